//! The plan of a module, made of a program, its regions and the slots of its registers, and a theorem: it has what the module owes the program.
//!
//! The function does nothing: its contract states the theorem. The plan stands in `specs/Chosen.antt`, and what it has in `specs/IsPlan.antt`.
#![tactic(auto)]

ghost use Rattle.chosen_plan.specs.IsPlan.{PlansAreChosen};

/// The slots of a sound program make a plan of it.
pub fn plans_are_chosen()
    ensures { PlansAreChosen }
{}
