ghost use Rattle.std.specs.Prelude.{◌≡◌};
ghost use Rattle.dx_outside.specs.Outside.{Rose, FilesNeverFell};
ghost use Rattle.dx_outside.specs.Whole.{WholeAnswer};

use crate::entry::append;
use crate::{Files, Outage};
use dx_base::{Bytes, List};
use std::alloc::Global;

/// The most bytes that are read of a file.
const MOST_BYTES: usize = 1 << 26;

/// The most bytes that are asked for at a time.
const PIECE: usize = 4096;

/// A file that was read to its end, or why it was not.
#[derive(Debug, Drop)]
pub enum Whole {
    /// All bytes of the file, at most 2^26.
    Read(Bytes),
    /// The file has more than 2^26 bytes.
    TooLong,
    /// A read failed.
    Failed,
    /// There was no memory for the bytes, or a read found none.
    OutOfMemory,
}

/// Reads a file to its end, or to the byte after the 2^26th. No file changes.
///
/// `Failed` comes only where the count of reads of this name that failed rose in this call.
pub fn read_whole<F: Files>(alloc: Global, files: &mut F, name: &str) -> Whole
    ensures answer { WholeAnswer (F.seen files.old).store name.now result }
    ensures same { (F.seen files.new).store ≡ (F.seen files.old).store }
    ensures counts { FilesNeverFell (F.seen files.old) (F.seen files.new) }
    ensures failed { result ≡ Whole.Failed → Rose ((F.seen files.old).read_faults name.now) ((F.seen files.new).read_faults name.now) }
{
    let mut bytes: Bytes = List::new(alloc);
    let mut piece = [0u8; PIECE];
    'pieces: loop {
        let at = bytes.len();
        match files.read_at(name, at as u64, &mut piece) {
            Ok(0) => return Whole::Read(bytes),
            Ok(n) => {
                if n > MOST_BYTES - at {
                    return Whole::TooLong;
                }
                if append(&mut bytes, &piece[..n]).is_err() {
                    return Whole::OutOfMemory;
                }
            }
            Err(Outage::Failed) => return Whole::Failed,
            Err(Outage::OutOfMemory) => return Whole::OutOfMemory,
        }
    }
}
