use dxil_form::{AtomicOp, Operand, Reg};

/// What an access does with one word of memory. A register that it sets is zero, or false, where the word is out of range.
#[derive(Clone, Copy, Debug, PartialEq, Eq)]
pub enum Event {
    Load {
        to: Reg,
    },
    Store {
        value: Operand,
    },
    Atomic {
        to: Reg,
        op: AtomicOp,
        value: Operand,
    },
    /// `old` takes the word that was there, and `same` whether it was equal.
    Swap {
        old: Reg,
        same: Reg,
        compare: Operand,
        value: Operand,
    },
}
