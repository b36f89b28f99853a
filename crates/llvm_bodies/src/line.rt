use dx_base::{Cases, List, Numbers};
use llvm_values::GlobalList;

/// An instruction of a body.
#[derive(Debug, Drop)]
pub struct Line {
    /// The bit of its record.
    pub bit: u64,
    /// The number of the block that it stands in.
    pub block: u32,
    /// The number of the value that it gives, where it gives one.
    pub value: Option<u32>,
    /// The code of its record.
    pub code: u32,
    /// The value numbers and the block numbers of its operand places, in the order of the record's layout.
    pub numbers: Numbers,
    /// The type numbers that the record carries, each behind the number of the operand place that it stands at.
    pub types: Cases,
    /// The other fields of the record, in order.
    pub plain: List<u64>,
}

/// Instructions in order.
pub type LineList = List<Line>;

/// The body of a function.
#[derive(Debug, Drop)]
pub struct Body {
    /// The bit of its block's entry.
    pub bit: u64,
    /// How many blocks it declares.
    pub blocks: u32,
    /// How many values it sees, those of the module among them.
    pub values: u32,
    /// Its constants, which have the value numbers behind those of the arguments.
    pub constants: GlobalList,
    pub lines: LineList,
}

/// Bodies in order.
pub type BodyList = List<Body>;
