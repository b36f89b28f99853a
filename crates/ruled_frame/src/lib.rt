//! What the code of a module names stands ahead of it, as a theorem.
//!
//! The function does nothing: its contract states the theorem, which stands in `specs/Laws.antt`.
#![tactic(auto)]

ghost use Rattle.ruled_frame.specs.Laws.{ModulesStandAhead};

/// All that the code of regions names is declared before it, in the module of a program with wired regions.
pub fn modules_stand_ahead()
    ensures { ModulesStandAhead }
{}
