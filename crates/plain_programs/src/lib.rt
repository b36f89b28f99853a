//! Programs of blocks without instructions, for tests and timings of what is made of branch graphs.
#![tactic(auto)]

mod plain;

pub use plain::plain_program;
