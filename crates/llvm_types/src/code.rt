//! The codes of the records in a block of types (LLVM 3.7 bitcode file format, "TYPE_BLOCK Contents").

pub const NUMENTRY: u64 = 1;

pub const VOID: u64 = 2;

pub const FLOAT: u64 = 3;

pub const DOUBLE: u64 = 4;

pub const LABEL: u64 = 5;

pub const OPAQUE: u64 = 6;

pub const INTEGER: u64 = 7;

pub const POINTER: u64 = 8;

pub const HALF: u64 = 10;

pub const ARRAY: u64 = 11;

pub const VECTOR: u64 = 12;

pub const METADATA: u64 = 16;

pub const STRUCT_ANON: u64 = 18;

pub const STRUCT_NAME: u64 = 19;

pub const STRUCT_NAMED: u64 = 20;

pub const FUNCTION: u64 = 21;
