use dx_base::List;
use dxil_form::Class;

/// A resource that the metadata declare (LLVM bitcode of DXIL, "Metadata Resource Records").
#[derive(Clone, Copy, Debug, PartialEq, Eq)]
pub struct Row {
    pub class: Class,
    pub id: u32,
    pub space: u32,
    pub lower: u32,
    pub range: u32,
    /// The kind, 13 for a constant buffer.
    pub kind: u32,
    /// The stride of a structured buffer, the bytes of a constant buffer, or 0.
    pub size: u32,
    /// Whether it is a UAV whose accesses are rasterizer ordered.
    pub ordered: bool,
}

/// Resources: SRVs, UAVs, then constant buffers, in the order of the metadata.
pub type RowList = List<Row>;

/// What the metadata say of a compute shader.
#[derive(Debug, Drop)]
pub struct Facts {
    /// The place of the entry function among the bodies.
    pub body: u32,
    /// The thread counts x, y and z of a group.
    pub local: [u32; 3],
    pub rows: RowList,
}
