use dx_base::List;

/// What a bitstream is made of (LLVM 3.7 bitcode file format, "Abbreviation IDs").
///
/// A `bit` counts from the first bit of the bytes, and is that of the item's abbreviation id.
#[derive(Clone, Copy, Debug, PartialEq, Eq)]
pub enum Item {
    /// The entry of a block that is read, with the bits of the abbreviation ids in it.
    Enter {
        id: u64,
        width: u32,
        bit: u64,
    },
    /// A record: its fields are `count` of the field list, from `first` on.
    Record {
        code: u64,
        first: u32,
        count: u32,
        bit: u64,
    },
    /// A block that is passed over, with its length in words of 32 bits.
    Skip {
        id: u64,
        words: u32,
        bit: u64,
    },
    /// The end of the innermost open block.
    End {
        bit: u64,
    },
}

/// Items in stream order.
pub type ItemList = List<Item>;

/// Fields of records in stream order.
pub type FieldList = List<u64>;

/// The items in stream order, and the fields of all their records.
#[derive(Debug, Drop)]
pub struct Items {
    pub list: ItemList,
    pub fields: FieldList,
}
