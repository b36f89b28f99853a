/// The type of a value that is computed: LLVM's `i1` or `i32`.
#[derive(Clone, Copy, Debug, PartialEq, Eq)]
pub enum Ty {
    Bool,
    Int,
}

/// A register: a part of the value that one record of the file defines, by the absolute number of that value.
///
/// The part is 0 where the value has no parts. A load of a buffer has the parts 0 to 3, and a compare and exchange the parts 0 and 1.
#[derive(Clone, Copy, Debug, PartialEq, Eq)]
pub struct Reg {
    pub value: u32,
    pub part: u8,
}

/// What an instruction reads: a register of a type, a constant, or an undefined value of a type.
#[derive(Clone, Copy, Debug, PartialEq, Eq)]
pub enum Operand {
    Reg { reg: Reg, ty: Ty },
    Int(u32),
    Bool(bool),
    Undef(Ty),
}
