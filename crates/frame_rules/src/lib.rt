//! The types and the entry point of a lowered program's module, as a theorem.
//!
//! The function does nothing: its contract states the theorem, which stands in `specs/Laws.antt`.
#![tactic(auto)]

ghost use Rattle.frame_rules.specs.Laws.{ModulesKeepFrames};

/// The module of a program with wired regions has types that are listed, and an entry point with the interface and the function that a checker asks.
pub fn modules_keep_frames()
    ensures { ModulesKeepFrames }
{}
