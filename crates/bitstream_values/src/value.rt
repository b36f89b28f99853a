ghost use Rattle.std.specs.Prelude.{◌≡◌, ◌≤◌, ◌<◌, ◌^◌};
ghost use Rattle.bitstream_spelling.specs.Rules.{IsPlainOperand, IsScalar};
ghost use Rattle.bitstream_values.specs.Numbers.{ValueAnswer};

use crate::number::{Seen, see};
use bitstream_spelling::Operand;
use dx_base::BitCursor;

/// The number itself, which its type keeps below 2^64.
fn same(value: u64) -> u64
    ensures is { result ≡ value }
    ensures below { result < 2 ^ 64 }
{
    value
}

/// Takes a number in chunks of so many bits, where chunks of no bits are 0.
fn take_chunks(cursor: &mut BitCursor, width: u64) -> Seen
    requires width { IsScalar (Operand.Vbr width) }
    requires within { cursor.old.place ≤ cursor.old.end }
    ensures { ValueAnswer result cursor.old cursor.new (Operand.Vbr width) }
{
    if width == 0 {
        return Seen::Small(0);
    }
    see(cursor, width as u32)
}

/// Takes one value by an operand that takes one.
pub fn take_value(cursor: &mut BitCursor, operand: Operand) -> Seen
    requires plain { IsPlainOperand operand }
    requires within { cursor.old.place ≤ cursor.old.end }
    ensures { ValueAnswer result cursor.old cursor.new operand }
{
    match operand {
        Operand::Literal(value) => Seen::Small(same(value)),
        Operand::Fixed(width) => match cursor.fixed(width as u32) {
            Some(value) => Seen::Small(value),
            None => Seen::Short,
        },
        Operand::Vbr(width) => take_chunks(cursor, width),
        Operand::Char6 => match cursor.char6() {
            Some(value) => Seen::Small(value as u64),
            None => Seen::Short,
        },
        Operand::Array => unreachable!(),
        Operand::Blob => unreachable!(),
        Operand::Faulty => unreachable!(),
    }
}
