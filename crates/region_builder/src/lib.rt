//! The regions of a program, by rewriting its branch graph.
#![tactic(auto)]

mod builder;
mod partial;
mod reduce;
mod whole;

pub use partial::{Partial, start};
pub use whole::build;
