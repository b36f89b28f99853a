ghost use Rattle.std.specs.Prelude.{◌≡◌, ◌≤◌, ◌<◌, ◌^◌, ◌∷◌, [], ◌↔◌, IsTrue, length};
ghost use Rattle.bitstream_spelling.specs.Rules.{IsScalar};
ghost use Rattle.bitstream_values.specs.Rows.{SpelledAnswer, TakesNothing, too_many_of, BytesAnswer};

use crate::number::{Seen, see};
use crate::row::{Row, Stop, take_row};
use bitstream_spelling::{FieldList, Operand};
use dx_base::BitCursor;

/// Whether a value by the operand takes no bits.
fn takes_nothing(operand: Operand) -> bool
    ensures { IsTrue result ↔ TakesNothing operand }
{
    match operand {
        Operand::Fixed(width) => width == 0,
        Operand::Vbr(width) => width == 0,
        _ => false,
    }
}

/// Whether elements that take no bits are more than there may be.
fn is_past(free: bool, count: u64, most: u64) -> bool
    ensures { IsTrue result ↔ (IsTrue free × most < count) }
{
    free && count > most
}

/// The row with so many values that there are too many.
fn too_many(row: Row) -> Row
    ensures { result ≡ too_many_of row }
{
    match row {
        Row::Taken => Row::Many,
        Row::Wide => Row::Wide,
        Row::Many => Row::Many,
    }
}

/// Takes an array: a count, and so many values by its element.
///
/// Where the elements take no bits, their count is not limited by the bits, and they are not taken one by one past the limit.
pub fn take_array(
    cursor: &mut BitCursor,
    fields: &mut FieldList,
    element: Operand,
    most: u64,
    row: Row,
) -> Result<Row, Stop>
    requires scalar { IsScalar element }
    requires end { cursor.old.end < 2 ^ 64 }
    ensures { SpelledAnswer result cursor.old cursor.new (Operand.Array ∷ element ∷ []) most row fields.old fields.new }
{
    let free = takes_nothing(element);
    match see(cursor, 6) {
        Seen::Small(count) => {
            if is_past(free, count, most) {
                return Ok(too_many(row));
            }
            take_row(cursor, fields, element, count, most, row)
        }
        Seen::Large => {
            if free {
                return Ok(Row::Wide);
            }
            Err(Stop::Ends)
        }
        Seen::Short => Err(Stop::Ends),
    }
}

/// Takes a blob: a count, and so many bytes between alignments.
pub fn take_blob(
    cursor: &mut BitCursor,
    fields: &mut FieldList,
    most: u64,
    row: Row,
) -> Result<Row, Stop>
    requires end { cursor.old.end < 2 ^ 64 }
    ensures { SpelledAnswer result cursor.old cursor.new (Operand.Blob ∷ []) most row fields.old fields.new }
{
    match see(cursor, 6) {
        Seen::Small(count) => take_bytes(cursor, fields, count, most, row),
        Seen::Large => Err(Stop::Ends),
        Seen::Short => Err(Stop::Ends),
    }
}

/// Takes so many bytes between alignments.
fn take_bytes(
    cursor: &mut BitCursor,
    fields: &mut FieldList,
    count: u64,
    most: u64,
    row: Row,
) -> Result<Row, Stop>
    ensures { BytesAnswer result cursor.old cursor.new count most row fields.old fields.new }
{
    let Some(_) = cursor.align() else {
        return Err(Stop::Ends);
    };
    match take_row(cursor, fields, Operand::Fixed(8), count, most, row) {
        Ok(taken) => {
            let Some(_) = cursor.align() else {
                return Err(Stop::Ends);
            };
            Ok(taken)
        }
        Err(stop) => Err(stop),
    }
}
