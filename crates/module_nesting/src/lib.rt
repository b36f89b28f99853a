//! No module of a lowered program has too many merge instructions that wait for their labels, as a theorem.
//!
//! The function does nothing: its contract states the theorem, which stands in `specs/Laws.antt`.
#![tactic(auto)]

ghost use Rattle.module_nesting.specs.Laws.{ModulesStayShallow};

/// Where the regions are those that a program is written by, never more than 1,023 merge instructions of its module wait for their merge label.
pub fn modules_stay_shallow()
    ensures { ModulesStayShallow }
{}
