//! The parts and items of a file as lines of text.
#![tactic(auto)]

ghost use Rattle.std.specs.Prelude.{◌≤◌, ◌^◌, length};
ghost use Rattle.dx_show.specs.Showing.{ShowAnswer};

mod lines;
mod text;

use dx_base::{Bytes, Fault, OutOfMemory};
use dx_file::read_file;
use lines::lines_of;
use std::alloc::Global;

/// The lines of a file of at most 2^26 bytes, as text.
///
/// For each part of the container, in the order of its offset table: `part NAME at BYTE size SIZE`, where BYTE is the place of the part's header, SIZE that of its data, and a character of the name outside 0x21 to 0x7E is a dot. Then for each item of the bitcode, in stream order: `block ID bit N` for a block that is read, `skip ID bit N` for one that is passed over, and `record CODE fields F bit N`. Ends of blocks and definitions of abbreviations have no line.
///
/// # Errors
///
/// The first refusal of the container, and behind it that of the bitstream, as `read_file` answers them.
pub fn show(alloc: Global, bytes: &[u8]) -> Result<Bytes, Fault>
    requires { length bytes.now ≤ 2 ^ 26 }
    ensures { ShowAnswer result bytes.now }
{
    match read_file(alloc, bytes) {
        Ok(file) => match lines_of(
            alloc,
            file.parts.list.as_slice(),
            file.items.list.as_slice(),
        ) {
            Ok(text) => Ok(text),
            Err(OutOfMemory) => Err(Fault::OutOfMemory),
        },
        Err(fault) => Err(fault),
    }
}
