//! Records (LLVM 3.7 bitcode file format, "Data Records" and "BLOCKINFO Block").

ghost use Rattle.std.specs.Prelude.{◌≡◌, ◌≤◌, ◌+◌, ◌^◌, ◌↔◌, IsTrue, Some, drop};
ghost use Rattle.dx_bitstream.specs.Naming.{IsNaming};
ghost use Rattle.dx_bitstream.specs.Places.{IsAfterId, IsSteady};
ghost use Rattle.dx_bitstream.specs.Steps.{StepAnswer, TakenAnswer};

use crate::fault::{keep, limit, refused};
use crate::kind::BlockKind;
use crate::reader::{MOST_FIELDS, MOST_RECORDS, Open, Reader, find, is_info};
use bitstream_spelling::Item;
use bitstream_values::{Coded, Row, Stop, take_plain, take_record};
use dx_base::{Fault, Which};

/// The code of SETBID, the record of BLOCKINFO that names a block.
const SET_BLOCK_ID: u64 = 1;

/// Takes a record without an abbreviation.
fn take_unabbreviated(reader: &mut Reader, bit: u64) -> Result<Coded, Fault>
    requires id { IsAfterId reader.old bit 3 }
    requires steady { IsSteady reader.old }
    ensures { TakenAnswer result reader.old bit reader.new }
{
    let most = MOST_FIELDS - reader.operands;
    match take_plain(&mut reader.cursor, &mut reader.fields, most) {
        Ok(coded) => Ok(coded),
        Err(Stop::Ends) => Err(refused(2, bit)),
        Err(Stop::OutOfMemory) => Err(Fault::OutOfMemory),
    }
}

/// Takes a record by the abbreviation with this number, counted from 0.
fn take_abbreviated(reader: &mut Reader, bit: u64, number: u64) -> Result<Coded, Fault>
    requires id { IsAfterId reader.old bit (4 + number) }
    requires steady { IsSteady reader.old }
    ensures { TakenAnswer result reader.old bit reader.new }
{
    let most = MOST_FIELDS - reader.operands;
    let Some(form) = find(&reader.info, &reader.here, number) else {
        return Err(refused(3, bit));
    };
    match take_record(
        &mut reader.cursor,
        &mut reader.fields,
        form.as_slice(),
        most,
    ) {
        Ok(coded) => Ok(coded),
        Err(Stop::Ends) => Err(refused(2, bit)),
        Err(Stop::OutOfMemory) => Err(Fault::OutOfMemory),
    }
}

/// Takes a record, whose id was read at `bit`.
fn take_coded(reader: &mut Reader, bit: u64, id: u64) -> Result<Coded, Fault>
    requires id { IsAfterId reader.old bit id }
    requires record { 3 ≤ id }
    requires steady { IsSteady reader.old }
    ensures { TakenAnswer result reader.old bit reader.new }
{
    if id == 3 {
        return take_unabbreviated(reader, bit);
    }
    take_abbreviated(reader, bit, id - 4)
}

/// Whether it is a SETBID that names no block.
fn is_nameless(here: &Open, code: u64, count: usize) -> bool
    ensures { IsTrue result ↔ ((here.now.kind ≡ Some BlockKind.BlockInfo) × (code ≡ 1) × (count ≡ 0)) }
{
    is_info(here) && code == SET_BLOCK_ID && count == 0
}

/// Names a block by the fields of a SETBID, which are those from `first` on; other records name none.
fn name_block(here: &mut Open, code: u64, fields: &[u64], first: usize)
    ensures { IsNaming here.old here.new code (drop first fields.now) }
{
    if is_info(here) && code == SET_BLOCK_ID {
        if let Some(id) = fields.get(first) {
            here.named = Some(*id);
        }
    }
}

/// Takes a record, whose id was read at `bit`.
pub fn take_item(reader: &mut Reader, bit: u64, id: u64) -> Result<bool, Fault>
    requires id { IsAfterId reader.old bit id }
    requires record { 3 ≤ id }
    requires steady { IsSteady reader.old }
    ensures { StepAnswer result reader.old bit reader.new }
{
    let first = reader.fields.len();
    let coded = match take_coded(reader, bit, id) {
        Ok(coded) => coded,
        Err(fault) => return Err(fault),
    };
    match coded.row {
        Row::Wide => Err(refused(7, bit)),
        Row::Many => {
            if reader.around.is_empty() {
                return Err(refused(8, bit));
            }
            if reader.records >= MOST_RECORDS {
                return Err(limit(Which::Records, bit));
            }
            Err(limit(Which::Fields, bit))
        }
        Row::Taken => {
            let count = reader.fields.len() - first;
            if is_nameless(&reader.here, coded.code, count) {
                return Err(refused(6, bit));
            }
            if reader.around.is_empty() {
                return Err(refused(8, bit));
            }
            if reader.records >= MOST_RECORDS {
                return Err(limit(Which::Records, bit));
            }
            name_block(
                &mut reader.here,
                coded.code,
                reader.fields.as_slice(),
                first,
            );
            reader.records += 1;
            let item = Item::Record {
                code: coded.code,
                first: first as u32,
                count: count as u32,
                bit,
            };
            if keep(&mut reader.list, item).is_err() {
                return Err(Fault::OutOfMemory);
            }
            Ok(false)
        }
    }
}
