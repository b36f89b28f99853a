//! The module of a program does what the program does, as a theorem.
//!
//! The function does nothing: its contract states the theorem, which stands in `specs/Laws.antt`.
#![tactic(auto)]

ghost use Rattle.module_same.specs.Laws.{ModulesAreSame};

/// The module of each sound program does the same as the program, in every launch and by every schedule.
pub fn modules_are_same()
    ensures { ModulesAreSame }
{}
