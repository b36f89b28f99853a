//! The variables of a lowered program's module are decorated as they have to be, as a theorem.
//!
//! The function does nothing: its contract states the theorem, which stands in `specs/Laws.antt`.
#![tactic(auto)]

ghost use Rattle.frame_marks.specs.Laws.{ModulesKeepMarks};

/// Each buffer variable of the module of a sound program has a set and a binding of its own and a Block of an array, and each Input variable a built-in.
pub fn modules_keep_marks()
    ensures { ModulesKeepMarks }
{}
