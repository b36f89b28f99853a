//! What the metadata of a module say of its compute shader.
#![tactic(auto)]

mod facts;
mod lookup;
mod read;
mod roots;
mod rows;
mod tags;
mod threads;

pub use facts::{Facts, Row, RowList};
pub use read::shader_facts;
