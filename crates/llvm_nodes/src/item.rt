ghost use Rattle.std.specs.Prelude.{◌≡◌, ◌==◌, ◌<◌, ◌^◌, get_or, All, IfOk, true, false};
ghost use Rattle.llvm_nodes.specs.Metadata.{item_of as stated, chars};

use crate::code::{STRING, VALUE};
use bitstream_spelling::FieldList;
use dx_base::{Bytes, List, Numbers, OutOfMemory};
use std::alloc::Global;

/// A numbered record of the metadata (LLVM 3.7 bitcode file format, "METADATA_BLOCK Contents").
#[derive(Clone, Debug, Drop)]
pub enum MetaItem {
    /// A text.
    Text(Bytes),
    /// A value of the module: the numbers of a type and of the value.
    Value { ty: u32, value: u32 },
    /// A node: the numbers of its records plus one, with 0 for null.
    Node(Numbers),
}

/// Numbered records, from 0 on.
pub type MetaList = List<MetaItem>;

/// A named node: its name, the numbers of its records, and the bit of its NAMED_NODE record.
#[derive(Clone, Debug, Drop)]
pub struct Named {
    pub name: Bytes,
    pub nodes: Numbers,
    pub bit: u64,
}

/// Named nodes in record order.
pub type NamedList = List<Named>;

/// The metadata of a module.
#[derive(Debug, Drop)]
pub struct Meta {
    /// The records by number.
    pub list: MetaList,
    /// The bits of these records.
    pub bits: FieldList,
    pub named: NamedList,
    /// The bit of the module's end.
    pub end: u64,
}

/// The fields as numbers of records.
pub fn numbers_of(alloc: Global, fields: &[u64]) -> Result<Numbers, OutOfMemory>
    requires { All (λ t. t < 2 ^ 32) fields.now }
    ensures { IfOk result (λ numbers. numbers ≡ fields.now) }
{
    let mut numbers = List::new(alloc);
    for field in fields {
        if numbers.push(*field as u32).is_err() {
            return Err(OutOfMemory);
        }
    }
    Ok(numbers)
}

/// The fields as characters, each of which counts modulo 256.
pub fn chars_of(alloc: Global, fields: &[u64]) -> Result<Bytes, OutOfMemory>
    ensures { IfOk result (λ text. text ≡ chars fields.now) }
{
    let mut text = List::new(alloc);
    for field in fields {
        if text.push((*field % 256) as u8).is_err() {
            return Err(OutOfMemory);
        }
    }
    Ok(text)
}

/// The field at a place as a number of a type or value, or 0.
fn number_at(fields: &[u64], at: usize) -> u32
    requires { get_or fields.now at 0 < 2 ^ 32 }
    ensures { result ≡ get_or fields.now at 0 }
{
    match fields.get(at) {
        Some(field) => *field as u32,
        None => 0,
    }
}

fn node_of(alloc: Global, fields: &[u64]) -> Result<MetaItem, OutOfMemory>
    requires { All (λ t. t < 2 ^ 32) fields.now }
    ensures { IfOk result (λ item. item ≡ MetaItem.Node fields.now) }
{
    let ids = numbers_of(alloc, fields)?;
    Ok(MetaItem::Node(ids))
}

fn text_of(alloc: Global, fields: &[u64]) -> Result<MetaItem, OutOfMemory>
    ensures { IfOk result (λ item. item ≡ MetaItem.Text (chars fields.now)) }
{
    let text = chars_of(alloc, fields)?;
    Ok(MetaItem::Text(text))
}

/// The item that a record states whose code takes a number.
#[tactic(auto, unfolding(crate::specs::Metadata::item_of))]
pub fn item_of(alloc: Global, code: u64, fields: &[u64]) -> Result<MetaItem, OutOfMemory>
    requires ids { (code == 2) ≡ false → (code == 1) ≡ false → All (λ t. t < 2 ^ 32) fields.now }
    requires ty { (code == 2) ≡ true → get_or fields.now 0 0 < 2 ^ 32 }
    requires value { (code == 2) ≡ true → get_or fields.now 1 0 < 2 ^ 32 }
    ensures { IfOk result (λ item. item ≡ stated code fields.now) }
{
    match code {
        STRING => text_of(alloc, fields),
        VALUE => Ok(MetaItem::Value {
            ty: number_at(fields, 0),
            value: number_at(fields, 1),
        }),
        _ => node_of(alloc, fields),
    }
}
