//! Each id of a lowered program's module is defined once, as a theorem.
//!
//! The function does nothing: its contract states the theorem, which stands in `specs/Laws.antt`.
#![tactic(auto)]

ghost use Rattle.ruled_ids.specs.Laws.{ModulesDefineOnce};

/// No two instructions of the module of a program with wired regions define one id.
pub fn modules_define_once()
    ensures { ModulesDefineOnce }
{}
