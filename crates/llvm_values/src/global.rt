use dx_base::{Bytes, Cases, List};

/// What a constant record states (LLVM 3.7 bitcode file format, "CONSTANTS_BLOCK Contents").
#[derive(Clone, Debug, Drop)]
pub enum ConstKind {
    Null,
    Undef,
    /// A whole number, which counts modulo 2 to the width of its type.
    Integer(i64),
    /// A place within a value. The pairs are a type number and a value number, the base first; `source` is the type that the indices go into, where
    /// the record states one.
    Gep { source: Option<u32>, args: Cases },
    /// A constant that nothing may use.
    Other,
}

/// A value of the module, or a constant of a body. `bit` is that of its record.
#[derive(Clone, Debug, Drop)]
pub enum Global {
    /// A variable: the number of its own type, its address space, and the value that it begins with.
    Variable {
        ty: u32,
        space: u64,
        init: Option<u32>,
        bit: u64,
    },
    /// A function: the number of its function type, its place among the bodies where it has one, and the name that the first symbol gives it.
    Function {
        ty: u32,
        body: Option<u32>,
        name: Bytes,
        bit: u64,
    },
    /// A constant. Its type is that of the last SETTYPE of its block; without one it is a 32-bit integer.
    Constant {
        ty: Option<u32>,
        kind: ConstKind,
        bit: u64,
    },
}

/// Values by number.
pub type GlobalList = List<Global>;
