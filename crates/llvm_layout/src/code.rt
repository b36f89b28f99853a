//! The codes of the records in a function's block (LLVM 3.7 bitcode file format, "FUNCTION_BLOCK Contents", and the reader's list of function codes).

pub const DECLAREBLOCKS: u64 = 1;

pub const BINOP: u64 = 2;

pub const CAST: u64 = 3;

pub const RET: u64 = 10;

pub const BR: u64 = 11;

pub const SWITCH: u64 = 12;

pub const UNREACHABLE: u64 = 15;

pub const PHI: u64 = 16;

pub const ALLOCA: u64 = 19;

pub const LOAD: u64 = 20;

pub const EXTRACTVAL: u64 = 26;

pub const CMP2: u64 = 28;

pub const VSELECT: u64 = 29;

pub const DEBUG_LOC_AGAIN: u64 = 33;

pub const CALL: u64 = 34;

pub const DEBUG_LOC: u64 = 35;

pub const ATOMICRMW: u64 = 38;

pub const GEP: u64 = 43;

pub const STORE: u64 = 44;

pub const CMPXCHG: u64 = 46;
