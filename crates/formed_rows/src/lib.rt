//! The code of the regions of a program is formed as its opcodes say, as a theorem.
//!
//! The function does nothing: its contract states the theorem, which stands in `specs/Rowed.antt`.
#![tactic(auto)]

ghost use Rattle.formed_rows.specs.Rowed.{RowsAreFormed};

/// Each instruction of the code of the regions has the operands that its opcode takes, and ids below the bound.
pub fn rows_are_formed()
    ensures { RowsAreFormed }
{}
