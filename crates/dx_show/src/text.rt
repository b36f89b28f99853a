//! Text that grows by pieces.

ghost use Rattle.std.specs.Prelude.{◌≡◌, ◌++◌, ◌∷◌, [], OnOk};
ghost use Rattle.std.specs.Fmt.{decimal};

use dx_base::{Bytes, OutOfMemory};

fn push(text: &mut Bytes, byte: u8) -> Result<(), OutOfMemory>
    ensures { OnOk result (text.new ≡ text.old ++ byte ∷ []) }
{
    text.push(byte).map_err(|_| OutOfMemory)
}

/// Adds the bytes at the end.
pub fn push_all(text: &mut Bytes, bytes: &[u8]) -> Result<(), OutOfMemory>
    ensures { OnOk result (text.new ≡ text.old ++ bytes.now) }
{
    for byte in bytes {
        push(text, *byte)?;
    }
    Ok(())
}

/// Adds the number's decimal digits at the end.
pub fn push_number(text: &mut Bytes, number: u64) -> Result<(), OutOfMemory>
    ensures { OnOk result (text.new ≡ text.old ++ decimal number) }
{
    if number < 10 {
        return push(text, number as u8 + b'0');
    }
    push_number(text, number / 10)?;
    push(text, (number % 10) as u8 + b'0')
}
