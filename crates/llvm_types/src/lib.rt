//! The type table of a module.
#![tactic(auto)]

mod code;
mod kind;
mod read;
mod table;

pub use kind::{LlvmType, TypeList, Types};
pub use read::read_types;
