//! What the code of a block asks of variables and declarations is there in the plan of every program, as a theorem.
//!
//! The function does nothing: its contract states the theorem, which stands in `specs/Planned.antt`.
#![tactic(auto)]

ghost use Rattle.plan_ready.specs.Planned.{PlansAreReady};

/// The plan of a program has the variables and the declarations that the code of its blocks asks for.
pub fn plans_are_ready()
    ensures { PlansAreReady }
{}
