//! The codes of the records in a block of metadata (LLVM 3.7 bitcode file format, "METADATA_BLOCK Contents").

pub const STRING: u64 = 1;

pub const VALUE: u64 = 2;

pub const NODE: u64 = 3;

pub const NAME: u64 = 4;

pub const DISTINCT_NODE: u64 = 5;

pub const KIND: u64 = 6;

pub const NAMED_NODE: u64 = 10;
