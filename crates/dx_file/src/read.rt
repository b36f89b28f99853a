ghost use Rattle.std.specs.Prelude.{◌≤◌, ◌^◌, length, IfOk};
ghost use Rattle.bitstream_spelling.specs.Framed.{IsFramed};
ghost use Rattle.dx_file.specs.Reading.{FileAnswer, IsOnly};

use dx_base::Fault;
use dx_bitstream::{Items, read_items};
use dxbc_container::{Parts, read_container};
use std::alloc::Global;

/// What a file carries.
#[derive(Debug, Drop)]
pub struct File {
    /// The parts of the container.
    pub parts: Parts,
    /// The items of the bitcode in the part named `DXIL`.
    pub items: Items,
}

/// The parts and the items of a file of at most 2^26 bytes.
///
/// # Errors
///
/// The first rule of the container that is broken, C1 to C9; where none is, the first rule of the bitstream that is broken, B1 to B8, or the limit on records or on fields where it is passed before. First is least bit, and at one bit least number, with limits after rules. Or want of memory.
pub fn read_file(alloc: Global, bytes: &[u8]) -> Result<File, Fault>
    requires { length bytes.now ≤ 2 ^ 26 }
    ensures exact { FileAnswer result bytes.now }
    ensures only { IfOk result (λ file. IsOnly bytes.now file) }
    ensures framed { IfOk result (λ file. IsFramed file.items.list file.items.fields) }
{
    let parts = match read_container(alloc, bytes) {
        Ok(parts) => parts,
        Err(fault) => return Err(fault),
    };
    match read_items(alloc, bytes, parts.from, parts.to) {
        Ok(items) => Ok(File { parts, items }),
        Err(fault) => Err(fault),
    }
}
