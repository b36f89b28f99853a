//! What the module of a program declares, and which labels stand in it, as theorems.
//!
//! The functions do nothing: their contracts state the theorems, which stand in `specs/Facts.antt`. What is asked of the plan's lists stands in `specs/Serves.antt`.
#![tactic(auto)]

ghost use Rattle.frame_facts.specs.Facts.{ModuleDeclares, ModuleLabels};

/// The module of every program declares what its code names.
pub fn module_declares()
    ensures { ModuleDeclares }
{}

/// In the module of every program each label stands once, and blocks begin at their sites.
pub fn module_labels()
    ensures { ModuleLabels }
{}
