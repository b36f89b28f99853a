ghost use Rattle.std.specs.Prelude.{◌≤◌, ◌<◌, ◌^◌};
ghost use Rattle.bitstream_spelling.specs.Rules.{AreSound, IsPlainOperand};
ghost use Rattle.bitstream_values.specs.Rows.{SpelledAnswer, OneAnswer};

use crate::array::{take_array, take_blob};
use crate::number::Seen;
use crate::row::{Row, Stop, add};
use crate::value::take_value;
use bitstream_spelling::{FieldList, Operand};
use dx_base::BitCursor;

/// Takes one value behind those before it.
fn take_one(
    cursor: &mut BitCursor,
    fields: &mut FieldList,
    operand: Operand,
    most: u64,
    row: Row,
) -> Result<Row, Stop>
    requires plain { IsPlainOperand operand }
    requires within { cursor.old.place ≤ cursor.old.end }
    ensures { OneAnswer result cursor.old cursor.new operand most row fields.old fields.new }
{
    match take_value(cursor, operand) {
        Seen::Small(value) => add(fields, most, row, value),
        Seen::Large => Ok(Row::Wide),
        Seen::Short => Err(Stop::Ends),
    }
}

/// Takes the values of a record by the operands that stand behind that of its code.
pub fn take_values(
    cursor: &mut BitCursor,
    fields: &mut FieldList,
    operands: &[Operand],
    most: u64,
    row: Row,
) -> Result<Row, Stop>
    requires sound { AreSound operands.now }
    requires within { cursor.old.place ≤ cursor.old.end }
    requires end { cursor.old.end < 2 ^ 64 }
    ensures { SpelledAnswer result cursor.old cursor.new operands.now most row fields.old fields.new }
{
    let mut now = row;
    for index in 0..operands.len() {
        match operands[index] {
            Operand::Array => {
                return take_array(cursor, fields, operands[index + 1], most, now);
            }
            Operand::Blob => return take_blob(cursor, fields, most, now),
            operand => match take_one(cursor, fields, operand, most, now) {
                Ok(next) => now = next,
                Err(stop) => return Err(stop),
            },
        }
    }
    Ok(now)
}
