ghost use Rattle.std.specs.Prelude.{◌≡◌, ◌%◌, ◌^◌, get_or};

/// The field at a place, or 0.
pub fn field_at(fields: &[u64], at: usize) -> u64
    ensures { result ≡ get_or fields.now at 0 }
{
    match fields.get(at) {
        Some(field) => *field,
        None => 0,
    }
}

/// A number of a type or a value, which counts modulo 2^32.
pub fn number_of(field: u64) -> u32
    ensures { result ≡ field % 2 ^ 32 }
{
    (field % 0x1_0000_0000) as u32
}
