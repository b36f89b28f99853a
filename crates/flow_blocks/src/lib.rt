//! The basic blocks of a module's function, which its instructions make.
#![tactic(auto)]

mod inst;
mod labels;
mod read;

pub use read::blocks_of;
