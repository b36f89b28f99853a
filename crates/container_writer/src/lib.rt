//! Writes the container of a compiled shader.
#![tactic(auto)]

mod part;
mod write;

pub use part::{NewPart, NewParts};
pub use write::write_container;
