//! Lowers a program to a SPIR-V module.
#![tactic(auto)]

mod lowering;
mod passing;
mod variables;

pub use lowering::{lower, write_program};
