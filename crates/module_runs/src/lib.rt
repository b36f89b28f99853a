//! A module that has the code of a program's regions and declares what it names does the same as the program, as a theorem.
//!
//! The function does nothing: its contract states the theorem, which stands in `specs/Stands.antt`.
#![tactic(auto)]

ghost use Rattle.module_runs.specs.Stands.{SameByPlan};

/// A program and a module that stands by the program's plan do the same, in every launch and by every schedule.
pub fn same_by_plan()
    ensures { SameByPlan }
{}
