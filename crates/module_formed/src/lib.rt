//! Every module of a lowered program is formed as its opcodes say, as a theorem.
//!
//! The function does nothing: its contract states the theorem, which stands in `specs/Laws.antt`.
#![tactic(auto)]

ghost use Rattle.module_formed.specs.Laws.{ModulesAreFormed};

/// Each instruction of the module of a sound program has the operands that its opcode takes, and ids below the module's bound.
pub fn modules_are_formed()
    ensures { ModulesAreFormed }
{}
