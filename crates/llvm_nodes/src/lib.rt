//! The records of a module's metadata: those that take a number, and the named nodes.
#![tactic(auto)]

mod code;
mod item;
mod read;
mod table;

pub use item::{Meta, MetaItem, MetaList, Named, NamedList};
pub use read::read_nodes;
