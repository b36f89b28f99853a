ghost use Rattle.std.specs.Prelude.{◌≡◌, ◌+◌, ◌≤◌, ◌<◌, ◌^◌, length, OnOk, Some, None};
ghost use Rattle.llvm_layout.specs.Reads.{back, signed_back, number, carried, plain_field, says, says_forward, TakenAnswer, IsRoomy};

use dx_base::{Cases, List, Numbers};

/// What a field of a layout is (LLVM 3.7 bitcode file format, "FUNCTION_BLOCK Contents"; operands are relative).
#[derive(Clone, Copy)]
pub enum Letter {
    /// An operand, counted back from the current value number, with a type number after it if it is not below that number.
    Typed,
    /// An operand, counted back from the current value number.
    Back,
    /// An operand, counted back or on in signed form.
    Signed,
    /// An absolute value number.
    Absolute,
    /// A type number.
    TypeNumber,
    /// A block number.
    BlockNumber,
    /// A plain field.
    Plain,
}

/// A row of letters, and a row that may follow any number of times; an empty one follows never.
#[derive(Clone, Copy)]
pub struct Form {
    pub head: &'static [Letter],
    pub again: &'static [Letter],
}

/// What the fields of a record say.
#[derive(Debug, Drop)]
pub struct Parts {
    /// The value numbers and the block numbers of its operand places, in the order of the layout.
    pub numbers: Numbers,
    /// The type numbers that the record carries, each behind the number of the operand place that it stands at.
    pub types: Cases,
    /// The other fields in order.
    pub plain: List<u64>,
}

/// What the fields are read against.
#[derive(Clone, Copy)]
pub struct Around {
    /// The current value number.
    pub now: u32,
    /// How many types the module has.
    pub types: u32,
    /// How many blocks the body declares.
    pub blocks: u32,
}

/// The place behind the fields that were taken, or why none were.
#[derive(Clone, Copy)]
pub enum Taken {
    To(usize),
    Misfit,
    /// There was no memory.
    Full,
}

/// The operand's number where a field holds the current value number less it, modulo 2^32.
pub fn back_from(now: u32, field: u64) -> u32
    ensures { result ≡ back now field }
{
    ((now as u64 + (1 << 32) - field % (1 << 32)) % (1 << 32)) as u32
}

fn signed_from(now: u32, field: u64) -> u32
    ensures { result ≡ signed_back now field }
{
    if field % 2 == 0 {
        back_from(now, field / 2)
    } else {
        ((now as u64 + field / 2) % (1 << 32)) as u32
    }
}

fn add_number(parts: &mut Parts, value: u32, to: usize) -> Taken
    ensures { TakenAnswer result (Some (number parts.old value, to)) parts.new }
{
    match parts.numbers.push(value) {
        Ok(()) => Taken::To(to),
        Err(_) => Taken::Full,
    }
}

fn add_type(parts: &mut Parts, ty: u32, to: usize) -> Taken
    requires { length parts.old.numbers < 2 ^ 32 }
    ensures { TakenAnswer result (Some (carried parts.old ty, to)) parts.new }
{
    let place = parts.numbers.len() as u32;
    match parts.types.push((place, ty)) {
        Ok(()) => Taken::To(to),
        Err(_) => Taken::Full,
    }
}

fn add_plain(parts: &mut Parts, value: u64, to: usize) -> Taken
    ensures { TakenAnswer result (Some (plain_field parts.old value, to)) parts.new }
{
    match parts.plain.push(value) {
        Ok(()) => Taken::To(to),
        Err(_) => Taken::Full,
    }
}

/// Takes an operand that is not below the current number, with the type number at `at`.
#[tactic(auto, unfolding(crate::specs::Reads::says_forward))]
fn take_forward(x: Around, parts: &mut Parts, fields: &[u64], at: usize, value: u32) -> Taken
    requires room { IsRoomy parts.old fields.now at }
    ensures { TakenAnswer result (says_forward x parts.old fields.now at value) parts.new }
{
    match fields.get(at) {
        Some(ty) if *ty < x.types as u64 => match add_type(parts, *ty as u32, at + 1) {
            Taken::To(next) => add_number(parts, value, next),
            Taken::Misfit => Taken::Misfit,
            Taken::Full => Taken::Full,
        },
        Some(_) => Taken::Misfit,
        None => Taken::Misfit,
    }
}

/// Takes the field or the fields of one letter at a place.
#[tactic(auto, unfolding(crate::specs::Reads::says))]
pub fn take_letter(x: Around, letter: Letter, parts: &mut Parts, fields: &[u64], at: usize) -> Taken
    requires room { IsRoomy parts.old fields.now at }
    ensures { TakenAnswer result (says x letter parts.old fields.now at) parts.new }
{
    let Some(found) = fields.get(at) else {
        return Taken::Misfit;
    };
    let field = *found;
    match letter {
        Letter::Typed => {
            let value = back_from(x.now, field);
            if value < x.now {
                add_number(parts, value, at + 1)
            } else {
                take_forward(x, parts, fields, at + 1, value)
            }
        }
        Letter::Back => add_number(parts, back_from(x.now, field), at + 1),
        Letter::Signed => add_number(parts, signed_from(x.now, field), at + 1),
        Letter::Absolute => add_number(parts, (field % (1 << 32)) as u32, at + 1),
        Letter::TypeNumber => {
            if field < x.types as u64 {
                add_type(parts, field as u32, at + 1)
            } else {
                Taken::Misfit
            }
        }
        Letter::BlockNumber => {
            if field < x.blocks as u64 {
                add_number(parts, field as u32, at + 1)
            } else {
                Taken::Misfit
            }
        }
        Letter::Plain => add_plain(parts, field, at + 1),
    }
}
