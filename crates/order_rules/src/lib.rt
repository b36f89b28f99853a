//! The rules of the places of instructions: the order V1, what stands once V2, the place of variables V11 and open merges V14.
#![tactic(auto)]

mod landmarks;
mod merges;
mod order;

pub use landmarks::Landmarks;
pub use merges::first_crowded;
pub use order::{Phase, first_out_of_order, is_terminator};
