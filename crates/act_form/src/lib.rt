//! Which accesses, atomics and barriers stand in the words of a program's module, as a theorem.
//!
//! The function does nothing: its contract states the theorem, which stands in `specs/Acts.antt`.
#![tactic(auto)]

ghost use Rattle.act_form.specs.Acts.{ModulesHaveActs};

/// The module of every sound program has the accesses, atomics and barriers of the blocks that are reached, in their order, and no others.
pub fn module_has_acts()
    ensures { ModulesHaveActs }
{}
