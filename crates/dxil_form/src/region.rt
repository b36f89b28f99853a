use dx_base::{Cases, List, Numbers};

/// A region of the program's blocks. Other regions go by their places in the list, which come earlier in it.
#[derive(Clone, Debug, Drop)]
pub enum Region {
    /// One block.
    Leaf {
        block: u32,
    },
    /// `first`, and then `second` where `first` wants the block `target`.
    Then {
        first: u32,
        second: u32,
        target: u32,
    },
    /// `body`, again and again as long as it wants the block `head`.
    Loop {
        body: u32,
        head: u32,
    },
    /// The region of the list that the wanted block enters, as long as there is one; the first is the one that block 0 enters.
    Dispatch {
        arms: Numbers,
    },
    /// `first`, and then the one region whose block it wants, if there is one; an arm is a block and a region.
    Arms {
        first: u32,
        arms: Cases,
    },
}

/// Regions, each after those that it names.
pub type RegionList = List<Region>;

/// The regions of a program; the last one is the root.
#[derive(Clone, Debug, Drop)]
pub struct Regions {
    pub list: RegionList,
}
