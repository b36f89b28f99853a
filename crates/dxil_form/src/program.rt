use crate::block::BlockList;
use dx_base::{List, Numbers};

/// The class of a resource: read only, read and write, or constant buffer.
#[derive(Clone, Copy, Debug, PartialEq, Eq)]
pub enum Class {
    Srv,
    Uav,
    Cbv,
}

/// How a resource is laid out; `stride` counts bytes, and a row has 16 of them.
#[derive(Clone, Copy, Debug, PartialEq, Eq)]
pub enum Kind {
    Raw,
    Structured { stride: u32 },
    Constant { rows: u32 },
}

/// A resource that the program names: its class, its id in that class, its register space and lower bound, and its layout.
#[derive(Clone, Copy, Debug, PartialEq, Eq)]
pub struct Resource {
    pub class: Class,
    pub id: u32,
    pub space: u32,
    pub lower: u32,
    pub kind: Kind,
}

/// Resources by class, then id.
pub type ResourceList = List<Resource>;

/// What the entry function of a file states.
///
/// `local` has the thread counts x, y and z of a group. `shared` has the words of each groupshared array that the body names, in module order.
#[derive(Clone, Debug, Drop)]
pub struct Program {
    pub local: [u32; 3],
    pub resources: ResourceList,
    pub shared: Numbers,
    pub blocks: BlockList,
}
