use thiserror::Error;

/// A rule of the input's formats, by the layer that asks it and its number there.
///
/// The layers are the container (`C`), the bitstream (`B`), the types (`Y`), the module's records (`M`), the metadata (`N`) and the profile (`P`).
#[derive(Clone, Copy, Debug, PartialEq, Eq)]
pub enum Rule {
    C(u8),
    B(u8),
    Y(u8),
    M(u8),
    N(u8),
    P(u8),
}

/// What a limit counts.
#[derive(Clone, Copy, Debug, PartialEq, Eq)]
pub enum Which {
    File,
    Records,
    Fields,
    Blocks,
    Instructions,
    Cases,
    PhiEntries,
    Resources,
}

/// Why a file is not translated. A `bit` counts from the file's first bit.
#[derive(Clone, Copy, Debug, PartialEq, Eq, Error)]
pub enum Fault {
    #[error("the file breaks a rule of its format")]
    Refused { rule: Rule, bit: u64 },
    #[error("the file passes a limit")]
    Limit { which: Which, bit: u64 },
    #[error("out of memory")]
    OutOfMemory,
}

/// A call found no memory.
#[derive(Clone, Copy, Debug, PartialEq, Eq, Error)]
#[error("out of memory")]
pub struct OutOfMemory;
