ghost use Rattle.std.specs.Prelude.{◌≤◌};
ghost use Rattle.bitstream_values.specs.Numbers.{SeenAnswer};

use dx_base::{BitCursor, Vbr};

/// What one number or value came to.
#[derive(Clone, Copy, Debug, PartialEq, Eq)]
pub enum Seen {
    /// It is below 2^64.
    Small(u64),
    /// It is 2^64 or more.
    Large,
    /// It passes the end.
    Short,
}

/// Takes a number in chunks of `width` bits, of whatever value.
pub fn see(cursor: &mut BitCursor, width: u32) -> Seen
    requires low { 2 ≤ width }
    requires high { width ≤ 32 }
    ensures { SeenAnswer result cursor.old cursor.new width }
{
    match cursor.vbr(width) {
        Vbr::Value(value) => Seen::Small(value),
        Vbr::End => Seen::Short,
        Vbr::Wide => {
            let _ = cursor.pass(width);
            Seen::Large
        }
    }
}
