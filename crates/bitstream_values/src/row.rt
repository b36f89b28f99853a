ghost use Rattle.std.specs.Prelude.{◌≡◌, ◌≤◌, ◌∷◌, [], length, ◌^◌};
ghost use Rattle.bitstream_spelling.specs.Rules.{IsPlainOperand};
ghost use Rattle.bitstream_values.specs.Rows.{AddAnswer, Adds, RowAnswer};

use crate::number::Seen;
use crate::value::take_value;
use bitstream_spelling::{FieldList, Operand};
use dx_base::BitCursor;

/// What the values of a record came to so far.
#[derive(Clone, Copy, Debug, PartialEq, Eq)]
pub enum Row {
    /// All are small and are kept.
    Taken,
    /// A number is 2^64 or more.
    Wide,
    /// All are small, and there are too many.
    Many,
}

/// Why a row is not read to its end.
#[derive(Clone, Copy, Debug, PartialEq, Eq)]
pub enum Stop {
    /// It passes the end.
    Ends,
    OutOfMemory,
}

/// Adds a small value.
pub fn add(fields: &mut FieldList, most: u64, row: Row, value: u64) -> Result<Row, Stop>
    ensures { AddAnswer result most row fields.old fields.new value }
{
    match row {
        Row::Taken => {
            if fields.len() as u64 >= most {
                return Ok(Row::Many);
            }
            match fields.push(value) {
                Ok(()) => Ok(Row::Taken),
                Err(_) => Err(Stop::OutOfMemory),
            }
        }
        Row::Wide => Ok(Row::Wide),
        Row::Many => Ok(Row::Many),
    }
}

/// Takes so many values by one operand, to the end of the last one.
pub fn take_row(
    cursor: &mut BitCursor,
    fields: &mut FieldList,
    operand: Operand,
    count: u64,
    most: u64,
    row: Row,
) -> Result<Row, Stop>
    requires plain { IsPlainOperand operand }
    requires within { cursor.old.place ≤ cursor.old.end }
    ensures { RowAnswer result cursor.old cursor.new operand count most row fields.old fields.new }
{
    let mut now = row;
    for taken in 0..count {
        match take_value(cursor, operand) {
            Seen::Small(value) => match add(fields, most, now, value) {
                Ok(next) => now = next,
                Err(stop) => return Err(stop),
            },
            Seen::Large => now = Row::Wide,
            Seen::Short => return Err(Stop::Ends),
        }
    }
    Ok(now)
}
