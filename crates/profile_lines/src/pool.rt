ghost use Rattle.std.specs.Prelude.{◌≡◌, ◌≤◌, ◌%◌, ◌^◌, ◌==◌, slice_get};
ghost use Rattle.std.specs.Option.{option_copied};
ghost use Rattle.llvm_facts.specs.Values.{bits_of as bits_in};
ghost use Rattle.profile_lines.specs.Pool as is;

use llvm_types::LlvmType;
use llvm_values::{ConstKind, Global};
use std::marker::Model;

/// What stands before the instructions of a body: the types and values of the module, and the constants of the body.
#[derive(Drop)]
pub struct Pool<'a> {
    types: &'a [LlvmType],
    globals: &'a [Global],
    constants: &'a [Global],
}

impl<'a> Model for Pool<'a> {
    ghost use Rattle.profile_lines.specs.Pool.{Pool as Stated};

    ghost Value = { Stated };

    ghost view = { λ s. record { types = s.types.now; globals = s.globals.now; constants = s.constants.now } };
}

/// The 64 bits of an integer constant.
fn bits_of(kind: &ConstKind) -> Option<u64>
    ensures { result ≡ bits_in kind.now }
{
    match kind {
        ConstKind::Null => Some(0),
        ConstKind::Integer(number) => Some(number.cast_unsigned()),
        ConstKind::Undef => None,
        ConstKind::Gep { .. } => None,
        ConstKind::Other => None,
    }
}

/// Bits of a type of so many bits, where that is the width that is asked.
fn cut(asked: u32, width: Option<u64>, bits: Option<u64>) -> Option<u32>
    requires { asked ≤ 32 }
    ensures { result ≡ is.cut asked width bits }
{
    let width = width?;
    let bits = bits?;
    if width == asked as u64 {
        Some((bits % (1u64 << asked)) as u32)
    } else {
        None
    }
}

fn is_multiple(width: u64, bits: u64) -> bool
    ensures { result ≡ (bits % 2 ^ width == 0) }
{
    if width < 64 {
        bits % (1u64 << width) == 0
    } else {
        bits == 0
    }
}

fn are_zeros(width: Option<u64>, bits: Option<u64>) -> bool
    ensures { result ≡ is.are_zeros width bits }
{
    let Some(width) = width else {
        return false;
    };
    let Some(bits) = bits else {
        return false;
    };
    is_multiple(width, bits)
}

impl<'a> Pool<'a> {
    /// The types and values of a module, and the constants of a body.
    pub fn new(types: &'a [LlvmType], globals: &'a [Global], constants: &'a [Global]) -> Pool<'a>
        ensures { result ≡ record { types = types.now; globals = globals.now; constants = constants.now } }
    {
        Pool {
            types,
            globals,
            constants,
        }
    }

    /// The type with a number.
    pub fn ty(&self, number: u32) -> Option<&'a LlvmType>
        ensures { option_copied result ≡ slice_get self.now.types number }
    {
        self.types.get(number as usize)
    }

    /// The values of the module.
    pub fn globals(&self) -> &'a [Global]
        ensures { result.now ≡ self.now.globals }
    {
        self.globals
    }

    /// The constants of the body.
    pub fn constants(&self) -> &'a [Global]
        ensures { result.now ≡ self.now.constants }
    {
        self.constants
    }

    /// The variable, function or constant with a number.
    pub fn stated(&self, number: u32) -> Option<&'a Global>
        ensures { option_copied result ≡ is.stated self.now number }
    {
        let number = number as usize;
        if number < self.globals.len() {
            self.globals.get(number)
        } else {
            self.constants.get(number - self.globals.len())
        }
    }

    /// The width of a constant's type.
    fn width(&self, ty: Option<u32>) -> Option<u64>
        ensures { result ≡ is.width self.now ty }
    {
        let Some(ty) = ty else {
            return Some(32);
        };
        match self.types.get(ty as usize) {
            Some(LlvmType::Integer(width)) => Some(*width),
            _ => None,
        }
    }

    /// The number of a constant of the integer type of a width.
    pub fn constant(&self, width: u32, number: u32) -> Option<u32>
        requires { width ≤ 32 }
        ensures { result ≡ is.constant self.now width number }
    {
        match self.stated(number) {
            Some(Global::Constant { ty, kind, .. }) => cut(width, self.width(*ty), bits_of(kind)),
            Some(Global::Variable { .. }) => None,
            Some(Global::Function { .. }) => None,
            None => None,
        }
    }

    /// The same of an operand, if there is one.
    pub fn constant_given(&self, width: u32, operand: Option<u32>) -> Option<u32>
        requires { width ≤ 32 }
        ensures { result ≡ is.constant_given self.now width operand }
    {
        match operand {
            Some(number) => self.constant(width, number),
            None => None,
        }
    }

    /// Whether a value is the constant 0 of an integer type.
    pub fn is_zero(&self, number: u32) -> bool
        ensures { result ≡ is.is_zero self.now number }
    {
        match self.stated(number) {
            Some(Global::Constant { ty, kind, .. }) => are_zeros(self.width(*ty), bits_of(kind)),
            Some(Global::Variable { .. }) => false,
            Some(Global::Function { .. }) => false,
            None => false,
        }
    }
}
