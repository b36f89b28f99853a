use crate::value::{Operand, Reg, Ty};

/// The memory of an access: a buffer, by its place in the program's resources, or a groupshared array, by its place in the program's list of them.
#[derive(Clone, Copy, Debug, PartialEq, Eq)]
pub enum Target {
    Buffer(u32),
    Shared(u32),
}

/// Where in its memory an access reads or writes; its part `c` is one word.
#[derive(Clone, Copy, Debug, PartialEq, Eq)]
pub enum Addr {
    /// The word `at / 4 + c` of a raw buffer; `at` counts bytes.
    Byte {
        at: Operand,
    },
    /// The word `(index * stride + at) / 4 + c` of a structured buffer; `stride` and `at` count bytes.
    Element {
        index: Operand,
        at: Operand,
        stride: u32,
    },
    /// The word `4 * index + c` of a constant buffer.
    Row {
        index: Operand,
    },
    /// The word `index` of a groupshared array.
    Index {
        index: Operand,
    },
}

/// LLVM's binary operators on integers.
#[derive(Clone, Copy, Debug, PartialEq, Eq)]
pub enum BinOp {
    Add,
    Sub,
    Mul,
    UDiv,
    SDiv,
    URem,
    SRem,
    Shl,
    LShr,
    AShr,
    And,
    Or,
    Xor,
}

/// LLVM's predicates of `icmp`.
#[derive(Clone, Copy, Debug, PartialEq, Eq)]
pub enum CmpOp {
    Eq,
    Ne,
    UGt,
    UGe,
    ULt,
    ULe,
    SGt,
    SGe,
    SLt,
    SLe,
}

/// LLVM's casts between `i1` and `i32`.
#[derive(Clone, Copy, Debug, PartialEq, Eq)]
pub enum CastOp {
    Trunc,
    Zext,
    Sext,
}

/// DXIL's operations on the bits of one number.
#[derive(Clone, Copy, Debug, PartialEq, Eq)]
pub enum OneOp {
    Bfrev,
    Countbits,
}

/// DXIL's signed and unsigned maxima and minima.
#[derive(Clone, Copy, Debug, PartialEq, Eq)]
pub enum TwoOp {
    IMax,
    IMin,
    UMax,
    UMin,
}

/// The numbers of an invocation: in the launch, of its group, in its group, and in its group as one number.
#[derive(Clone, Copy, Debug, PartialEq, Eq)]
pub enum IdOp {
    Thread,
    Group,
    InGroup,
    Flat,
}

/// What an atomic makes of the word that it finds and its value.
#[derive(Clone, Copy, Debug, PartialEq, Eq)]
pub enum AtomicOp {
    Add,
    Sub,
    And,
    Or,
    Xor,
    SMin,
    SMax,
    UMin,
    UMax,
    Exchange,
}

/// For whom a barrier orders memory.
#[derive(Clone, Copy, Debug, PartialEq, Eq)]
pub enum Scope {
    Nobody,
    Group,
    Device,
}

/// An instruction that ends no block. It sets the register `to`, or the parts of the value `to`.
#[derive(Clone, Copy, Debug, PartialEq, Eq)]
pub enum Instr {
    Bin {
        to: Reg,
        op: BinOp,
        ty: Ty,
        a: Operand,
        b: Operand,
    },
    Cmp {
        to: Reg,
        op: CmpOp,
        ty: Ty,
        a: Operand,
        b: Operand,
    },
    Cast {
        to: Reg,
        op: CastOp,
        a: Operand,
    },
    Select {
        to: Reg,
        ty: Ty,
        cond: Operand,
        a: Operand,
        b: Operand,
    },
    /// An extracted part, or the index of a groupshared place.
    Copy {
        to: Reg,
        ty: Ty,
        a: Operand,
    },
    One {
        to: Reg,
        op: OneOp,
        a: Operand,
    },
    Two {
        to: Reg,
        op: TwoOp,
        a: Operand,
        b: Operand,
    },
    /// `a * b + c`.
    Mad {
        to: Reg,
        a: Operand,
        b: Operand,
        c: Operand,
    },
    /// The component `part`, 0 to 2, of a number of the invocation.
    Id {
        to: Reg,
        op: IdOp,
        part: u8,
    },
    /// The number of words of a buffer, which goes by its place in the program's resources. No file states one yet.
    Size {
        to: Reg,
        buffer: u32,
    },
    /// Loads each part whose bit stands in `mask`.
    Load {
        to: u32,
        mask: u8,
        target: Target,
        addr: Addr,
    },
    /// Stores `x`, `y`, `z` and `w` to the parts 0 to 3 whose bits stand in `mask`; the other values are unread.
    Store {
        mask: u8,
        target: Target,
        addr: Addr,
        x: Operand,
        y: Operand,
        z: Operand,
        w: Operand,
    },
    /// Sets `to` to the word that it finds.
    Atomic {
        to: Reg,
        op: AtomicOp,
        target: Target,
        addr: Addr,
        value: Operand,
    },
    /// Writes `value` where the word is `compare`; part 0 is the word that it finds, and part 1 tells whether that was equal.
    Swap {
        to: u32,
        target: Target,
        addr: Addr,
        compare: Operand,
        value: Operand,
    },
    /// `sync` waits for the group; `uav` and `shared` tell which memory is ordered.
    Barrier {
        sync: bool,
        scope: Scope,
        uav: bool,
        shared: bool,
    },
    /// The making of a handle, which is a static name.
    Nothing,
}
