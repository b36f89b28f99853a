ghost use Rattle.std.specs.Prelude.{IfSome, ◌≡◌, ◌%◌, ◌^◌, ◌<◌, slice_get, get_or};
ghost use Rattle.std.specs.Option.{option_copied};
ghost use Rattle.llvm_facts.specs.Values as is;
ghost use Rattle.llvm_facts.specs.Entry.{fields_at, number_at};

use llvm_nodes::MetaItem;
use llvm_types::LlvmType;
use llvm_values::{ConstKind, Global};
use std::marker::Model;

/// The lists of a module by number, as the fields of its metadata name them.
#[derive(Drop)]
pub struct Lookup<'a> {
    items: &'a [MetaItem],
    bits: &'a [u64],
    types: &'a [LlvmType],
    values: &'a [Global],
}

impl<'a> Model for Lookup<'a> {
    ghost use Rattle.llvm_facts.specs.Module.{Module};

    ghost Value = { Module };

    ghost view = { λ s. record { items = s.items.now; bits = s.bits.now; types = s.types.now; values = s.values.now } };
}

/// A constant of an integer type: the type's width, and the number modulo 2 to the width.
///
/// Of a type wider than 64 bits these are the number's low 64 bits.
#[derive(Clone, Copy, Debug)]
pub struct Whole {
    pub width: u64,
    pub number: u64,
}

/// The bits modulo 2 to the width.
fn cut(width: u64, bits: u64) -> u64
    ensures value { result ≡ bits % 2 ^ width }
    ensures below { result < 2 ^ width }
{
    if width < 64 {
        bits % (1u64 << width)
    } else {
        bits
    }
}

/// The 64 bits of an integer constant.
fn bits_of(kind: &ConstKind) -> Option<u64>
    ensures { result ≡ is.bits_of kind.now }
{
    match kind {
        ConstKind::Null => Some(0),
        ConstKind::Integer(number) => Some(number.cast_unsigned()),
        ConstKind::Undef => None,
        ConstKind::Gep { .. } => None,
        ConstKind::Other => None,
    }
}

impl<'a> Lookup<'a> {
    /// The lists of a module.
    pub fn new(
        items: &'a [MetaItem],
        bits: &'a [u64],
        types: &'a [LlvmType],
        values: &'a [Global],
    ) -> Lookup<'a>
        ensures { result ≡ record { items = items.now; bits = bits.now; types = types.now; values = values.now } }
    {
        Lookup {
            items,
            bits,
            types,
            values,
        }
    }

    /// The numbered records.
    pub fn items(&self) -> &'a [MetaItem]
        ensures { result.now ≡ self.now.items }
    {
        self.items
    }

    /// The bit of the record with a number.
    pub fn bit(&self, id: u32) -> u64
        ensures { result ≡ is.bit_of self.now id }
    {
        match self.bits.get(id as usize) {
            Some(bit) => *bit,
            None => 0,
        }
    }

    /// The record that a field names.
    fn item(&self, field: u32) -> Option<&'a MetaItem>
        ensures { option_copied result ≡ is.item_at self.now field }
    {
        if field == 0 {
            None
        } else {
            self.items.get(field as usize - 1)
        }
    }

    /// The fields of the node with a number.
    pub fn node_by(&self, id: u32) -> Option<&'a [u32]>
        ensures { option_copied result ≡ is.node_by self.now id }
    {
        match self.items.get(id as usize) {
            Some(MetaItem::Node(ids)) => Some(ids.as_slice()),
            Some(MetaItem::Text(_)) => None,
            Some(MetaItem::Value { .. }) => None,
            None => None,
        }
    }

    /// The fields of the node that a field names.
    pub fn node(&self, field: u32) -> Option<&'a [u32]>
        ensures { option_copied result ≡ is.node_at self.now field }
    {
        match self.item(field) {
            Some(MetaItem::Node(ids)) => Some(ids.as_slice()),
            Some(MetaItem::Text(_)) => None,
            Some(MetaItem::Value { .. }) => None,
            None => None,
        }
    }

    /// The fields of the node that a field names, none where it names no node.
    pub fn fields(&self, field: u32) -> &'a [u32]
        ensures { result.now ≡ fields_at self.now field }
    {
        match self.node(field) {
            Some(fields) => fields,
            None => &[],
        }
    }

    /// The text that a field names.
    pub fn text(&self, field: u32) -> Option<&'a [u8]>
        ensures { option_copied result ≡ is.text_at self.now field }
    {
        match self.item(field) {
            Some(MetaItem::Text(text)) => Some(text.as_slice()),
            Some(MetaItem::Node(_)) => None,
            Some(MetaItem::Value { .. }) => None,
            None => None,
        }
    }

    /// The value of the module that a field names.
    fn value(&self, field: u32) -> Option<&'a Global>
        ensures { option_copied result ≡ is.value_of self.now (is.item_at self.now field) }
    {
        match self.item(field) {
            Some(MetaItem::Value { value, .. }) => self.values.get(*value as usize),
            Some(MetaItem::Text(_)) => None,
            Some(MetaItem::Node(_)) => None,
            None => None,
        }
    }

    /// The width of a constant's type.
    fn width(&self, ty: Option<u32>) -> Option<u64>
        ensures { result ≡ is.width_by self.now ty }
    {
        let Some(ty) = ty else {
            return Some(32);
        };
        match self.types.get(ty as usize) {
            Some(LlvmType::Integer(width)) => Some(*width),
            _ => None,
        }
    }

    /// The constant of an integer type that a field names.
    #[tactic(auto, unfolding(crate::specs::Values::constant_at))]
    pub fn constant(&self, field: u32) -> Option<Whole>
        ensures value { result ≡ is.constant_at self.now field }
        ensures below { IfSome result (λ c. c.number < 2 ^ c.width) }
    {
        match self.value(field) {
            Some(Global::Constant { ty, kind, .. }) => self.counted(*ty, kind),
            Some(Global::Variable { .. }) => None,
            Some(Global::Function { .. }) => None,
            None => None,
        }
    }

    fn counted(&self, ty: Option<u32>, kind: &ConstKind) -> Option<Whole>
        ensures value { result ≡ is.counted (is.width_by self.now ty) (is.bits_of kind.now) }
        ensures below { IfSome result (λ c. c.number < 2 ^ c.width) }
    {
        let width = self.width(ty)?;
        let bits = bits_of(kind)?;
        Some(Whole {
            width,
            number: cut(width, bits),
        })
    }

    /// The number of an `i32` constant that a field names.
    pub fn i32(&self, field: u32) -> Option<u32>
        ensures { result ≡ is.i32_at self.now field }
    {
        match self.constant(field) {
            Some(Whole { width: 32, number }) => Some(number as u32),
            _ => None,
        }
    }

    /// The number of an `i32` constant that a field names, or 0.
    pub fn number(&self, field: u32) -> u32
        ensures { result ≡ number_at self.now field }
    {
        match self.i32(field) {
            Some(number) => number,
            None => 0,
        }
    }

    /// The number of an `i1` constant that a field names.
    pub fn i1(&self, field: u32) -> Option<u64>
        ensures { result ≡ is.i1_at self.now field }
    {
        match self.constant(field) {
            Some(Whole { width: 1, number }) => Some(number),
            _ => None,
        }
    }

    fn is_void(&self, ty: u32) -> bool
        ensures { result ≡ is.is_void (slice_get self.now.types ty) }
    {
        match self.types.get(ty as usize) {
            Some(LlvmType::Void) => true,
            _ => false,
        }
    }

    /// Whether a type is `void ()`.
    fn takes_nothing(&self, ty: u32) -> bool
        ensures { result ≡ is.takes_nothing self.now (slice_get self.now.types ty) }
    {
        match self.types.get(ty as usize) {
            Some(
                LlvmType::Function {
                    vararg,
                    ret,
                    params,
                },
            ) => !*vararg && params.len() == 0 && self.is_void(*ret),
            _ => false,
        }
    }

    /// The number of the body of the function of type `void ()` that a field names.
    #[tactic(auto, unfolding(crate::specs::Values::body_at))]
    pub fn body(&self, field: u32) -> Option<u32>
        ensures { result ≡ is.body_at self.now field }
    {
        match self.value(field) {
            Some(Global::Function { ty, body, .. }) => {
                if self.takes_nothing(*ty) { *body } else { None }
            }
            Some(Global::Variable { .. }) => None,
            Some(Global::Constant { .. }) => None,
            None => None,
        }
    }
}
