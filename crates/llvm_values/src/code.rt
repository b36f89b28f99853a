//! The ids of blocks, and the codes of the records in them (LLVM 3.7 bitcode file format, "MODULE_BLOCK Contents", "CONSTANTS_BLOCK Contents" and "VALUE_SYMTAB_BLOCK Contents").

/// The id of a block of constants.
pub const CONSTANTS: u64 = 11;

/// The id of a body.
pub const BODY: u64 = 12;

/// The id of a block of symbols.
pub const SYMBOLS: u64 = 14;

/// A module's record of a variable.
pub const VARIABLE: u64 = 7;

/// A module's record of a function.
pub const FUNCTION: u64 = 8;

pub const SETTYPE: u64 = 1;

pub const NULL: u64 = 2;

pub const UNDEF: u64 = 3;

pub const INTEGER: u64 = 4;

pub const CE_GEP: u64 = 12;

pub const CE_INBOUNDS_GEP: u64 = 20;

/// A symbol of a value.
pub const ENTRY: u64 = 1;

pub const VERSION: u64 = 1;

/// A body's record of its number of blocks.
pub const DECLAREBLOCKS: u64 = 1;

/// A debug place that is that of the instruction before.
pub const DEBUG_LOC_AGAIN: u64 = 33;

pub const DEBUG_LOC: u64 = 35;
