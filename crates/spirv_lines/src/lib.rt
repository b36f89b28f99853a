//! Writes the blocks of a program without their branches: each function appends exactly the instructions of a definition of `spirv_code`.
#![tactic(auto)]

mod leaves;
mod lines;
mod values;

pub use leaves::write_block;
