//! The definition of an abbreviation (LLVM 3.7 bitcode file format, "DEFINE_ABBREV Encoding").

ghost use Rattle.std.specs.Prelude.{◌≡◌, ◌≤◌, ◌+◌, ◌^◌, ◌↔◌, IsTrue, OnOk, Some, None, length};
ghost use Rattle.dx_bitstream.specs.Defining.{IsDefinitionAt, IsFiled, room_of};
ghost use Rattle.dx_bitstream.specs.Places.{IsAfterId, IsSteady};
ghost use Rattle.dx_bitstream.specs.Steps.{StepAnswer};

use crate::fault::{keep, limit, refused};
use crate::info::Info;
use crate::kind::{BlockKind, kind_of};
use crate::reader::{MOST_FIELDS, Open, Reader, is_info};
use crate::sound::SoundAbbreviation;
use bitstream_values::{Definition, Stop, may_end, take_definition};
use dx_base::{Fault, OutOfMemory, Which};
use std::alloc::Global;

/// How many operands there may still be.
fn room(reader: &Reader) -> u64
    requires { length reader.now.fields + reader.now.operands ≤ 2 ^ 24 }
    ensures { result ≡ room_of reader.now }
{
    MOST_FIELDS - reader.operands - reader.fields.len() as u64
}

/// Whether a definition stands in a BLOCKINFO block before any block is named.
fn is_unnamed(here: &Open) -> bool
    ensures { IsTrue result ↔ ((here.now.kind ≡ Some BlockKind.BlockInfo) × (here.now.named ≡ None)) }
{
    is_info(here) && here.named.is_none()
}

/// Keeps an abbreviation for the block that BLOCKINFO named, or else for the block itself.
///
/// One for a block that is read nowhere is not kept.
fn file(info: &mut Info, here: &mut Open, form: SoundAbbreviation) -> Result<(), OutOfMemory>
    ensures { OnOk result (IsFiled info.old here.old form info.new here.new) }
{
    let Some(id) = here.named else {
        return keep(&mut here.own, form);
    };
    match kind_of(id) {
        Some(kind) => info.give(kind, form),
        None => Ok(()),
    }
}

/// Keeps a definition that was taken.
fn keep_definition(reader: &mut Reader, bit: u64, found: Definition) -> Result<bool, Fault>
    requires definition { IsDefinitionAt reader.old bit found }
    requires steady { IsSteady reader.old }
    ensures { StepAnswer result reader.old bit reader.new }
{
    if !may_end(found.form) {
        return Err(refused(4, bit));
    }
    if is_unnamed(&reader.here) {
        return Err(refused(6, bit));
    }
    if found.wide {
        return Err(refused(7, bit));
    }
    if reader.around.is_empty() {
        return Err(refused(8, bit));
    }
    if found.count > room(reader) {
        return Err(limit(Which::Fields, bit));
    }
    reader.operands += found.count;
    let form = SoundAbbreviation::new(found.operands);
    if file(&mut reader.info, &mut reader.here, form).is_err() {
        return Err(Fault::OutOfMemory);
    }
    Ok(false)
}

/// Takes the definition of an abbreviation, whose id was read at `bit`.
pub fn define(alloc: Global, reader: &mut Reader, bit: u64) -> Result<bool, Fault>
    requires id { IsAfterId reader.old bit 2 }
    requires steady { IsSteady reader.old }
    ensures { StepAnswer result reader.old bit reader.new }
{
    let most = room(reader);
    match take_definition(alloc, &mut reader.cursor, most) {
        Ok(found) => keep_definition(reader, bit, found),
        Err(Stop::Ends) => Err(refused(2, bit)),
        Err(Stop::OutOfMemory) => Err(Fault::OutOfMemory),
    }
}
