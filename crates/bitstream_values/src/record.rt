ghost use Rattle.std.specs.Prelude.{◌≡◌, ◌≤◌, ◌<◌, ◌^◌, length, drop};
ghost use Rattle.bitstream_spelling.specs.Rules.{IsSound};
ghost use Rattle.bitstream_values.specs.Records.{RecordAnswer, PlainAnswer, FieldsAnswer};

use crate::number::{Seen, see};
use crate::row::{Row, Stop, take_row};
use crate::value::take_value;
use crate::values::take_values;
use bitstream_spelling::{FieldList, Operand};
use dx_base::BitCursor;

/// A record's code, which counts where no number of the record is wide, and what its values came to.
#[derive(Clone, Copy, Debug, PartialEq, Eq)]
pub struct Coded {
    pub code: u64,
    pub row: Row,
}

/// The operands behind the first one.
fn behind_first(operands: &[Operand]) -> &[Operand]
    requires { 0 < length operands.now }
    ensures { result.now ≡ drop 1 operands.now }
{
    &operands[1..]
}

/// Takes the values of a record by an abbreviation: its code, and its fields behind the fields before.
pub fn take_record(
    cursor: &mut BitCursor,
    fields: &mut FieldList,
    operands: &[Operand],
    most: u64,
) -> Result<Coded, Stop>
    requires sound { IsSound operands.now }
    requires few { length fields.old ≤ most }
    requires within { cursor.old.place ≤ cursor.old.end }
    requires end { cursor.old.end < 2 ^ 64 }
    ensures { RecordAnswer result cursor.old cursor.new operands.now most fields.old fields.new }
{
    match take_value(cursor, operands[0]) {
        Seen::Small(code) => {
            match take_values(cursor, fields, behind_first(operands), most, Row::Taken) {
                Ok(row) => Ok(Coded { code, row }),
                Err(stop) => Err(stop),
            }
        }
        Seen::Large => match take_values(cursor, fields, behind_first(operands), most, Row::Wide) {
            Ok(_) => Ok(Coded {
                code: 0,
                row: Row::Wide,
            }),
            Err(stop) => Err(stop),
        },
        Seen::Short => Err(Stop::Ends),
    }
}

/// Takes so many fields of a record without an abbreviation.
fn take_fields(
    cursor: &mut BitCursor,
    fields: &mut FieldList,
    most: u64,
    row: Row,
) -> Result<Row, Stop>
    requires within { cursor.old.place ≤ cursor.old.end }
    requires end { cursor.old.end < 2 ^ 64 }
    ensures { FieldsAnswer result cursor.old cursor.new most row fields.old fields.new }
{
    match see(cursor, 6) {
        Seen::Small(count) => take_row(cursor, fields, Operand::Vbr(6), count, most, row),
        Seen::Large => Err(Stop::Ends),
        Seen::Short => Err(Stop::Ends),
    }
}

/// Takes a record without an abbreviation: its code, and its fields behind the fields before.
pub fn take_plain(cursor: &mut BitCursor, fields: &mut FieldList, most: u64) -> Result<Coded, Stop>
    requires few { length fields.old ≤ most }
    requires within { cursor.old.place ≤ cursor.old.end }
    requires end { cursor.old.end < 2 ^ 64 }
    ensures { PlainAnswer result cursor.old cursor.new most fields.old fields.new }
{
    match see(cursor, 6) {
        Seen::Small(code) => match take_fields(cursor, fields, most, Row::Taken) {
            Ok(row) => Ok(Coded { code, row }),
            Err(stop) => Err(stop),
        },
        Seen::Large => match take_fields(cursor, fields, most, Row::Wide) {
            Ok(_) => Ok(Coded {
                code: 0,
                row: Row::Wide,
            }),
            Err(stop) => Err(stop),
        },
        Seen::Short => Err(Stop::Ends),
    }
}
