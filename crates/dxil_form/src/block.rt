use crate::instr::Instr;
use crate::value::{Operand, Reg, Ty};
use dx_base::{Cases, List};

/// How a block ends. Blocks go by their numbers in the program.
#[derive(Clone, Debug, Drop)]
pub enum Term {
    Ret,
    Unreachable,
    Go(u32),
    If {
        cond: Operand,
        yes: u32,
        no: u32,
    },
    /// Goes to the block of the case whose value this is, and else to `default`; a case is a value and a block.
    Switch {
        value: Operand,
        default: u32,
        cases: Cases,
    },
}

/// What a phi takes where the block `from` ran before.
#[derive(Clone, Copy, Debug, PartialEq, Eq)]
pub struct Entry {
    pub from: u32,
    pub value: Operand,
}

/// The entries of a phi, in record order, doubled ones among them.
pub type EntryList = List<Entry>;

/// A register that is set as its block begins.
#[derive(Clone, Debug, Drop)]
pub struct Phi {
    pub to: Reg,
    pub ty: Ty,
    pub entries: EntryList,
}

/// The phis of a block.
pub type PhiList = List<Phi>;

/// The instructions of a block, without phis and terminator.
pub type InstrList = List<Instr>;

/// A block: its phis, which read at once, its instructions in order, and how it ends.
#[derive(Clone, Debug, Drop)]
pub struct Block {
    pub phis: PhiList,
    pub instrs: InstrList,
    pub term: Term,
}

/// The blocks that a body declares; block 0 is the first to run.
pub type BlockList = List<Block>;
