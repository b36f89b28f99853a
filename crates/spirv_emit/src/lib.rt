//! Writes the instructions that read and keep registers, and that access memory: each function appends exactly the instructions of a definition of `spirv_code`.
#![tactic(auto)]

mod code;
mod events;
mod ranges;
mod reads;
mod scene;
mod words;

pub use code::{Code, operands_of};
pub use events::write_part;
pub use ranges::length_of;
pub use reads::{int_of_two, keep, read, read_two, store, truth_of_two};
pub use scene::{Scene, coming_slot, kept_slot};
