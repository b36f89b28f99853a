//! The code of the lines of a block is formed as its opcodes say, as a theorem.
//!
//! The function does nothing: its contract states the theorem, which stands in `specs/Formed.antt`.
#![tactic(auto)]

ghost use Rattle.formed_lines.specs.Formed.{LinesAreFormed};

/// Each instruction of the code of lines has the operands that its opcode takes, and ids below the bound.
pub fn lines_are_formed()
    ensures { LinesAreFormed }
{}
