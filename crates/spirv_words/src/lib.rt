//! The words of a SPIR-V module, written and read.
#![tactic(auto)]

mod file_words;
mod header;
mod operands;
mod read;
mod write;

pub use operands::{is_id, last_of};
pub use read::read_module;
pub use write::write_module;
