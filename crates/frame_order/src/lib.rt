//! The order of the instructions of a lowered program's module, as a theorem.
//!
//! The function does nothing: its contract states the theorem, which stands in `specs/Laws.antt`.
#![tactic(auto)]

ghost use Rattle.frame_order.specs.Laws.{ModulesKeepOrder};

/// The module of a sound program with wired regions has its instructions in order: what stands once, the variables and the switches as a checker asks.
pub fn modules_keep_order()
    ensures { ModulesKeepOrder }
{}
