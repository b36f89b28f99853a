//! The entry of a block (LLVM 3.7 bitcode file format, "ENTER_SUBBLOCK Encoding").

ghost use Rattle.std.specs.Prelude.{◌≡◌, ◌≤◌, ◌↔◌, IsTrue};
ghost use Rattle.dx_bitstream.specs.Entering.{IsEntryAt, SmallAnswer};
ghost use Rattle.dx_bitstream.specs.Kinds.{IsPassed, IsReadKind};
ghost use Rattle.dx_bitstream.specs.Places.{IsAfterId, IsSteady};
ghost use Rattle.dx_bitstream.specs.Steps.{StepAnswer};

use crate::fault::{keep, refused};
use crate::kind::{BlockKind, kind_in, number_of};
use crate::reader::{Open, Reader};
use bitstream_spelling::Item;
use bitstream_values::{Entry, Seen, take_entry};
use dx_base::{Fault, List};
use std::alloc::Global;
use std::mem;

/// The number, if it is below 2^64.
fn small_of(seen: Seen) -> Option<u64>
    ensures { SmallAnswer result seen }
{
    match seen {
        Seen::Small(number) => Some(number),
        Seen::Large => None,
        Seen::Short => None,
    }
}

/// Whether an abbreviation id may have so many bits.
fn is_width(width: u64) -> bool
    ensures { IsTrue result ↔ ((2 ≤ width) × (width ≤ 32)) }
{
    width >= 2 && width <= 32
}

/// Opens a block that is read, whose entry was taken.
fn open_block(
    alloc: Global,
    reader: &mut Reader,
    bit: u64,
    kind: BlockKind,
    entry: Entry,
) -> Result<bool, Fault>
    requires entry { IsEntryAt reader.old bit entry }
    requires kind { IsReadKind reader.old.here.kind entry.id kind }
    requires steady { IsSteady reader.old }
    ensures { StepAnswer result reader.old bit reader.new }
{
    let Some(width) = small_of(entry.width) else {
        return Err(refused(7, bit));
    };
    if !is_width(width) {
        return Err(refused(8, bit));
    }
    let opened = Open {
        kind: Some(kind),
        width: width as u32,
        given: reader.info.given(kind).len(),
        own: List::new(alloc),
        named: None,
        words: entry.words,
        bit,
        content: reader.cursor.at(),
    };
    let outer = mem::replace(&mut reader.here, opened);
    if reader.around.push(outer).is_err() {
        return Err(Fault::OutOfMemory);
    }
    let item = Item::Enter {
        id: number_of(kind),
        width: width as u32,
        bit,
    };
    if keep(&mut reader.list, item).is_err() {
        return Err(Fault::OutOfMemory);
    }
    Ok(false)
}

/// Passes over a block that is not read, whose entry was taken.
fn pass_block(reader: &mut Reader, bit: u64, entry: Entry) -> Result<bool, Fault>
    requires entry { IsEntryAt reader.old bit entry }
    requires passed { IsPassed reader.old.here.kind entry.id }
    requires steady { IsSteady reader.old }
    ensures { StepAnswer result reader.old bit reader.new }
{
    let Some(_) = reader.cursor.forward(32 * entry.words as u64) else {
        return Err(refused(2, bit));
    };
    let Some(id) = small_of(entry.id) else {
        return Err(refused(7, bit));
    };
    let Some(_) = small_of(entry.width) else {
        return Err(refused(7, bit));
    };
    let item = Item::Skip {
        id,
        words: entry.words,
        bit,
    };
    if keep(&mut reader.list, item).is_err() {
        return Err(Fault::OutOfMemory);
    }
    Ok(false)
}

/// Takes a block's entry, whose id was read at `bit`, and the content of a block that is not read.
pub fn take_block(alloc: Global, reader: &mut Reader, bit: u64) -> Result<bool, Fault>
    requires id { IsAfterId reader.old bit 1 }
    requires steady { IsSteady reader.old }
    ensures { StepAnswer result reader.old bit reader.new }
{
    let Some(entry) = take_entry(&mut reader.cursor) else {
        return Err(refused(2, bit));
    };
    match kind_in(reader.here.kind, entry.id) {
        Some(kind) => open_block(alloc, reader, bit, kind, entry),
        None => pass_block(reader, bit, entry),
    }
}
