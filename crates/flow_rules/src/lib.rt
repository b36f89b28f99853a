//! The basic blocks of a function, and the structure rules that a check of a module asks of them.
#![tactic(auto)]

mod block;
mod check;
mod lists;
mod tables;

pub use block::{BasicBlock, Ending, Merge, MergeKind, MergeList, Terminator};
pub use check::check_flow;
