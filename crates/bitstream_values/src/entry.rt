ghost use Rattle.std.specs.Prelude.{◌≡◌, ◌≤◌, ◌↔◌, IsTrue};
ghost use Rattle.bitstream_values.specs.Entries.{EntryAnswer};

use crate::number::{Seen, see};
use dx_base::BitCursor;

/// What stands behind the id of a block's entry: the block's id, the new width, and the length in words of 32 bits.
#[derive(Clone, Copy, Debug, PartialEq, Eq)]
pub struct Entry {
    pub id: Seen,
    pub width: Seen,
    pub words: u32,
}

fn is_short(seen: Seen) -> bool
    ensures { IsTrue result ↔ (seen ≡ Seen.Short) }
{
    match seen {
        Seen::Small(_) => false,
        Seen::Large => false,
        Seen::Short => true,
    }
}

/// Takes a block's entry behind its id (LLVM 3.7 bitcode file format, "ENTER_SUBBLOCK Encoding"); None where it passes the end.
pub fn take_entry(cursor: &mut BitCursor) -> Option<Entry>
    ensures { EntryAnswer result cursor.old cursor.new }
{
    let id = see(cursor, 8);
    if is_short(id) {
        return None;
    }
    let width = see(cursor, 4);
    if is_short(width) {
        return None;
    }
    let Some(_) = cursor.align() else {
        return None;
    };
    let Some(words) = cursor.fixed(32) else {
        return None;
    };
    Some(Entry {
        id,
        width,
        words: words as u32,
    })
}
