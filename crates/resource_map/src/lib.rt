//! The descriptor set and the binding of each resource of a program.
#![tactic(auto)]

mod bindings;

pub use bindings::{Binding, Bindings, map_resources};
