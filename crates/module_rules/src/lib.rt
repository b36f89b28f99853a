//! The rules V of a module: its instructions one by one.
#![tactic(auto)]

mod check;
mod entry;
mod tables;

pub use check::check_rules;
