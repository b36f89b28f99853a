//! The module of every lowered program keeps the structure rules, as a theorem.
//!
//! The function does nothing: its contract states the theorem, which stands in `specs/Laws.antt`.
#![tactic(auto)]

ghost use Rattle.module_structure.specs.Laws.{ModulesKeepStructure};

/// The blocks of the module of a program with wired regions break none of the rules S1 to S12.
pub fn modules_keep_structure()
    ensures { ModulesKeepStructure }
{}
