//! The program that the records of the entry body state, made with tables over its lines.
#![tactic(auto)]

mod blocks;
mod marks;
mod order;
mod program;
mod ranks;
mod resources;
mod variables;

pub use program::program_of;
