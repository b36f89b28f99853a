ghost use Rattle.std.specs.Prelude.{◌≡◌, ◌+◌, ◌*◌, ◌≤◌, ◌^◌, ◌↔◌, IsTrue, IfOk, length};
ghost use Rattle.dx_base.specs.Cursor.{moved};
ghost use Rattle.bitstream_spelling.specs.Framed.{IsFramed};
ghost use Rattle.bitstream_spelling.specs.Rules.{HasMagic};
ghost use Rattle.dx_bitstream.specs.Answers.{IsOnly, ItemsAnswer};
ghost use Rattle.dx_bitstream.specs.Places.{IsSteady};
ghost use Rattle.dx_bitstream.specs.Steps.{IsAtFront, StepAnswer, WholeAnswer};

use crate::definition::define;
use crate::end::take_end;
use crate::entry::take_block;
use crate::fault::refused;
use crate::info::Info;
use crate::reader::{Open, Reader};
use crate::record::take_item;
use crate::stack::Stack;
use bitstream_spelling::Items;
use dx_base::{BitCursor, Fault, List};
use std::alloc::Global;

/// Takes the next item; whether it ends the reading.
fn step(alloc: Global, reader: &mut Reader) -> Result<bool, Fault>
    requires { IsSteady reader.old }
    ensures { StepAnswer result reader.old reader.old.cursor.place reader.new }
{
    let bit = reader.cursor.at();
    match reader.cursor.fixed(reader.here.width) {
        Some(0) => take_end(reader, bit),
        Some(1) => take_block(alloc, reader, bit),
        Some(2) => define(alloc, reader, bit),
        Some(id) => take_item(reader, bit, id),
        None => Err(refused(2, bit)),
    }
}

/// Takes items until the reading ends.
fn read_all(alloc: Global, reader: &mut Reader) -> Result<(), Fault>
    requires { IsAtFront reader.old }
    ensures { WholeAnswer result reader.old reader.new }
{
    'steps: loop {
        match step(alloc, reader) {
            Ok(true) => return Ok(()),
            Ok(false) => {}
            Err(fault) => return Err(fault),
        }
    }
}

/// Whether the magic stands at the cursor, which is then behind it.
fn has_magic(cursor: &mut BitCursor) -> bool
    ensures test { IsTrue result ↔ HasMagic cursor.old.bytes cursor.old.place cursor.old.end }
    ensures behind { IsTrue result → cursor.new ≡ moved cursor.old (cursor.old.place + 32) }
{
    match cursor.fixed(32) {
        Some(0xDEC0_4342) => true,
        Some(_) => false,
        None => false,
    }
}

/// The items that the bits of the bytes from `from` up to `to` spell.
///
/// Ok holds the one list of items and fields that those bits spell without a broken rule and within the limits; the list ends with the end of the first module block, and what stands behind that is not read. Else the answer is the broken rule `B1` to `B8` or the passed limit of least bit, and at one bit the one of least number, limits last; a bit counts from the first bit of `bytes`. Want of memory may be answered at any time.
pub fn read_items(alloc: Global, bytes: &[u8], from: u64, to: u64) -> Result<Items, Fault>
    requires order { from ≤ to }
    requires within { to ≤ length bytes.now }
    requires small { to ≤ 2 ^ 32 }
    ensures exact { ItemsAnswer result bytes.now (8 * from) (8 * to) }
    ensures only { IfOk result (λ items. IsOnly bytes.now (8 * from) (8 * to) items) }
    ensures framed { IfOk result (λ items. IsFramed items.list items.fields) }
{
    let start = 8 * from;
    let mut cursor = BitCursor::new(bytes, start, 8 * to);
    if !has_magic(&mut cursor) {
        return Err(refused(1, start));
    }
    let here = Open {
        kind: None,
        width: 2,
        given: 0,
        own: List::new(alloc),
        named: None,
        words: 0,
        bit: start,
        content: start,
    };
    let mut reader = Reader {
        cursor,
        here,
        around: Stack::new(alloc),
        info: Info::new(alloc),
        operands: 0,
        records: 0,
        list: List::new(alloc),
        fields: List::new(alloc),
    };
    match read_all(alloc, &mut reader) {
        Ok(()) => {
            let Reader { list, fields, .. } = reader;
            Ok(Items { list, fields })
        }
        Err(fault) => Err(fault),
    }
}
