ghost use Rattle.std.specs.Prelude.{◌≡◌, ◌≤◌, ◌<◌, ◌^◌, ◌⊎◌, ◌↔◌, IsTrue, true};
ghost use Rattle.bitstream_values.specs.Definitions.{made, encoded, GivenAnswer};
ghost use Rattle.bitstream_values.specs.Operands.{KeepAnswer, OperandsAnswer, DefinitionAnswer};

use crate::form::{Form, form_with};
use crate::number::{Seen, see};
use crate::row::Stop;
use bitstream_spelling::{Abbreviation, Operand};
use dx_base::{BitCursor, List};
use std::alloc::Global;

/// An operand of a definition; where it is wide its number is 2^64 or more.
#[derive(Clone, Copy, Debug, PartialEq, Eq)]
pub struct Given {
    pub operand: Operand,
    pub wide: bool,
}

fn literal_of(seen: Seen) -> Option<Given>
    ensures { result ≡ made Operand.Literal seen }
{
    match seen {
        Seen::Small(value) => Some(Given {
            operand: Operand::Literal(value),
            wide: false,
        }),
        Seen::Large => Some(Given {
            operand: Operand::Literal(u64::MAX),
            wide: true,
        }),
        Seen::Short => None,
    }
}

fn fixed_of(seen: Seen) -> Option<Given>
    ensures { result ≡ made Operand.Fixed seen }
{
    match seen {
        Seen::Small(width) => Some(Given {
            operand: Operand::Fixed(width),
            wide: false,
        }),
        Seen::Large => Some(Given {
            operand: Operand::Fixed(u64::MAX),
            wide: true,
        }),
        Seen::Short => None,
    }
}

fn vbr_of(seen: Seen) -> Option<Given>
    ensures { result ≡ made Operand.Vbr seen }
{
    match seen {
        Seen::Small(width) => Some(Given {
            operand: Operand::Vbr(width),
            wide: false,
        }),
        Seen::Large => Some(Given {
            operand: Operand::Vbr(u64::MAX),
            wide: true,
        }),
        Seen::Short => None,
    }
}

/// The operand of an encoding without a width.
fn without_width(encoding: u64) -> Operand
    ensures { result ≡ encoded encoding }
{
    if encoding == 3 {
        Operand::Array
    } else if encoding == 4 {
        Operand::Char6
    } else if encoding == 5 {
        Operand::Blob
    } else {
        Operand::Faulty
    }
}

/// Takes an operand of a definition (LLVM 3.7 bitcode file format, "DEFINE_ABBREV Encoding"); None where it passes the end.
pub fn take_operand(cursor: &mut BitCursor) -> Option<Given>
    ensures { GivenAnswer result cursor.old cursor.new }
{
    let Some(literal) = cursor.fixed(1) else {
        return None;
    };
    if literal == 1 {
        return literal_of(see(cursor, 8));
    }
    let Some(encoding) = cursor.fixed(3) else {
        return None;
    };
    if encoding == 1 {
        return fixed_of(see(cursor, 5));
    }
    if encoding == 2 {
        return vbr_of(see(cursor, 5));
    }
    Some(Given {
        operand: without_width(encoding),
        wide: false,
    })
}

/// The operands of a definition: at most so many of them are kept, though all are read and counted.
#[derive(Debug, Drop)]
pub struct Definition {
    pub operands: Abbreviation,
    pub count: u64,
    /// Whether a number is 2^64 or more.
    pub wide: bool,
    pub form: Form,
}

fn either(one: bool, other: bool) -> bool
    ensures { IsTrue result ↔ ((one ≡ true) ⊎ (other ≡ true)) }
{
    one || other
}

/// Keeps an operand while there are at most so many.
fn keep_operand(
    operands: &mut Abbreviation,
    operand: Operand,
    taken: u64,
    most: u64,
) -> Result<(), Stop>
    ensures { KeepAnswer result operands.old operands.new operand taken most }
{
    if taken >= most {
        return Ok(());
    }
    match operands.push(operand) {
        Ok(()) => Ok(()),
        Err(_) => Err(Stop::OutOfMemory),
    }
}

/// Takes so many operands of a definition.
fn take_operands(
    alloc: Global,
    cursor: &mut BitCursor,
    count: u64,
    most: u64,
) -> Result<Definition, Stop>
    requires { cursor.old.place ≤ cursor.old.end }
    ensures { OperandsAnswer result cursor.old cursor.new count most }
{
    let mut operands: Abbreviation = List::new(alloc);
    let mut wide = false;
    let mut form = Form::Empty;
    for taken in 0..count {
        let Some(given) = take_operand(cursor) else {
            return Err(Stop::Ends);
        };
        wide = either(wide, given.wide);
        form = form_with(form, given.operand);
        match keep_operand(&mut operands, given.operand, taken, most) {
            Ok(()) => {}
            Err(stop) => return Err(stop),
        }
    }
    Ok(Definition {
        operands,
        count,
        wide,
        form,
    })
}

/// Takes a definition of an abbreviation behind its id: a count, and so many operands.
pub fn take_definition(alloc: Global, cursor: &mut BitCursor, most: u64) -> Result<Definition, Stop>
    requires { cursor.old.end < 2 ^ 64 }
    ensures { DefinitionAnswer result cursor.old cursor.new most }
{
    match see(cursor, 5) {
        Seen::Small(count) => take_operands(alloc, cursor, count, most),
        Seen::Large => Err(Stop::Ends),
        Seen::Short => Err(Stop::Ends),
    }
}
