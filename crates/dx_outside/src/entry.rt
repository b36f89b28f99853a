ghost use Rattle.std.specs.Prelude.{◌≡◌, ◌-◌, ◌<◌, ◌++◌, length, min, IfOk, OnOk};
ghost use Rattle.std.specs.Str.{bytes_eq};
ghost use Rattle.std.specs.List.{position};
ghost use Rattle.dx_outside.specs.Outside.{StandsAt};

use dx_base::{Bytes, List, OutOfMemory};
use std::alloc::Global;

/// A file in memory.
#[derive(Debug, Drop)]
pub struct Entry {
    /// The file's name, in UTF-8.
    pub name: Bytes,
    /// All that the file holds.
    pub bytes: Bytes,
}

/// A copy of the bytes.
pub fn copied(alloc: Global, piece: &[u8]) -> Result<Bytes, OutOfMemory>
    ensures { IfOk result (λ copy. copy ≡ piece.now) }
{
    let mut copy: Bytes = List::new(alloc);
    append(&mut copy, piece)?;
    Ok(copy)
}

/// Appends the piece; where memory runs out a part of it may be there.
pub fn append(list: &mut Bytes, piece: &[u8]) -> Result<(), OutOfMemory>
    ensures { OnOk result (list.new ≡ list.old ++ piece.now) }
{
    for byte in piece {
        if list.push(*byte).is_err() {
            return Err(OutOfMemory);
        }
    }
    Ok(())
}

/// Copies the bytes from a place on, as many as there are and as fit, and answers how many.
pub fn copy_from(bytes: &[u8], at: u64, into: &mut [u8]) -> usize
    requires { 0 < length into.old }
    ensures count { result ≡ min (length into.new) (length bytes.now - at) }
    ensures bytes { StandsAt at result into.new bytes.now }
{
    let at = at as usize;
    if at >= bytes.len() {
        return 0;
    }
    let rest = &bytes[at..];
    let count = rest.len().min(into.len());
    into[..count].copy_from_slice(&rest[..count]);
    count
}

/// The place of the first file of this name.
pub fn place_of(entries: &[Entry], name: &str) -> Option<usize>
    ensures { result ≡ position (λ entry. bytes_eq entry.name name.now) entries.now }
{
    entries
        .iter()
        .position(|entry| entry.name.as_slice() == name.as_bytes())
}
