//! What one line of the entry body states: an instruction, a phi, or the end of a block.
#![tactic(auto)]

mod access;
mod call;
mod codes;
mod lines;
mod placed;

pub use access::resource_of;
pub use lines::{end_of, instruction, phi_at};
pub use placed::Placed;
