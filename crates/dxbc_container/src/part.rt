use dx_base::List;

/// A part of a container.
#[derive(Clone, Copy, Debug, PartialEq, Eq)]
pub struct Part {
    /// The four characters of its name.
    pub name: [u8; 4],
    /// The byte at which its header stands.
    pub at: u64,
    /// The size of its data in bytes, which stand behind the eight bytes of the header.
    pub size: u32,
}

/// Parts in the order of the offset table.
pub type PartList = List<Part>;

/// The parts of a container, and where its bitcode stands.
#[derive(Debug, Drop)]
pub struct Parts {
    /// The parts in the order of the offset table.
    pub list: PartList,
    /// The index of the part named `DXIL`.
    pub dxil: u32,
    /// The first byte of the bitcode.
    pub from: u64,
    /// The first byte behind the bitcode.
    pub to: u64,
}
