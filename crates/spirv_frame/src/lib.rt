//! Writes the whole module of a program: what stands before its code, the code of its regions, and the end.
#![tactic(auto)]

mod declares;
mod decorates;
mod head;
mod module;
mod names;

pub use module::write;
