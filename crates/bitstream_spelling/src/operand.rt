use dx_base::List;

/// An operand of an abbreviation (LLVM 3.7 bitcode file format, "DEFINE_ABBREV Encoding").
#[derive(Clone, Copy, Debug, PartialEq, Eq)]
pub enum Operand {
    /// A value that takes no bits.
    Literal(u64),
    /// A number of so many bits.
    Fixed(u64),
    /// A number in chunks of so many bits.
    Vbr(u64),
    /// A count and so many values by the next operand.
    Array,
    /// A character of six bits.
    Char6,
    /// A count and so many bytes.
    Blob,
    /// An operand with one of the encodings 0, 6 and 7, which no abbreviation may have.
    Faulty,
}

/// The operands of an abbreviation in their order.
pub type Abbreviation = List<Operand>;
