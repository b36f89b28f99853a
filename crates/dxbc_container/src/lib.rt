//! The container of a compiled shader, and its parts.
#![tactic(auto)]

mod part;
mod read;

pub use part::{Part, PartList, Parts};
pub use read::read_container;
