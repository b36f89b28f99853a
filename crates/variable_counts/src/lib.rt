//! How many variables the function of a lowered program's module has, as a theorem.
//!
//! The function does nothing: its contract states the theorem, which stands in `specs/Laws.antt`.
#![tactic(auto)]

ghost use Rattle.variable_counts.specs.Laws.{FewVariables};

/// Where few blocks are reachable, each by one edge at most, and no switch is long, a module has at most two variables for each phi and one for each register that crosses blocks or stands at an access.
pub fn modules_have_few_variables()
    ensures { FewVariables }
{}
