//! The words of the module of a container, layer by layer.
//!
//! What the translator says of a file's bytes stands in `specs/Verdicts.antt`.
#![tactic(auto)]

mod layers;

pub use layers::translate;
