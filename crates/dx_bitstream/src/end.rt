//! The end of a block (LLVM 3.7 bitcode file format, "END_BLOCK Encoding").

ghost use Rattle.std.specs.Prelude.{◌≡◌, ◌+◌, ◌*◌, ◌<◌, ◌^◌, ◌↔◌, IsTrue, [], Some};
ghost use Rattle.dx_bitstream.specs.Places.{IsAfterId, IsSteady};
ghost use Rattle.dx_bitstream.specs.Steps.{StepAnswer};

use crate::fault::{keep, refused};
use crate::kind::BlockKind;
use crate::reader::{Open, Reader};
use crate::stack::Stack;
use bitstream_spelling::Item;
use dx_base::Fault;

/// Whether the block's content has its stated length, if it ends here.
fn is_full(here: &Open, at: u64) -> bool
    requires { here.now.content < 2 ^ 60 }
    ensures { IsTrue result ↔ (at ≡ here.now.content + 32 * here.now.words) }
{
    at == here.content + 32 * here.words as u64
}

/// Whether the end of this block ends the reading.
fn is_last(here: &Open, around: &Stack<Open>) -> bool
    ensures { IsTrue result ↔ ((here.now.kind ≡ Some BlockKind.Module) × (around.now ≡ [])) }
{
    match here.kind {
        Some(BlockKind::Module) => around.is_empty(),
        Some(_) => false,
        None => false,
    }
}

/// Takes a block's end, whose id was read at `bit`; whether it ends the reading.
pub fn take_end(reader: &mut Reader, bit: u64) -> Result<bool, Fault>
    requires id { IsAfterId reader.old bit 0 }
    requires steady { IsSteady reader.old }
    ensures { StepAnswer result reader.old bit reader.new }
{
    let Some(_) = reader.cursor.align() else {
        return Err(refused(2, bit));
    };
    let Some(outer) = reader.around.pop() else {
        return Err(refused(8, bit));
    };
    if !is_full(&reader.here, reader.cursor.at()) {
        return Err(refused(5, reader.here.bit));
    }
    let over = is_last(&reader.here, &reader.around);
    reader.here = outer;
    if keep(&mut reader.list, Item::End { bit }).is_err() {
        return Err(Fault::OutOfMemory);
    }
    Ok(over)
}
