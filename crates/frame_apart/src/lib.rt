//! The types of a lowered program's module are declared once, as a theorem.
//!
//! The function does nothing: its contract states the theorem, which stands in `specs/Laws.antt`.
#![tactic(auto)]

ghost use Rattle.frame_apart.specs.Laws.{ModulesKeepTypesApart};

/// No type of the module of a sound program with wired regions is declared before it, an array or a structure aside.
pub fn modules_keep_types_apart()
    ensures { ModulesKeepTypesApart }
{}
