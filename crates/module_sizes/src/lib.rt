//! How long the module of a program is, as a theorem: its ids and its words are within the bounds that a checker asks.
//!
//! The function does nothing: its contract states the theorem, which stands in `specs/Sizes.antt`.
#![tactic(auto)]

ghost use Rattle.module_sizes.specs.Sizes.{ModulesAreSmall};

/// The module of each sound program over wired regions has few ids and few words.
pub fn modules_are_small()
    ensures { ModulesAreSmall }
{}
