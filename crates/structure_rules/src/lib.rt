//! The check of a SPIR-V module: its rules V, and the structure rules S of its blocks.
#![tactic(auto)]

mod check;

pub use check::check_module;
