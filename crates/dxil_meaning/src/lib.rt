//! What a DXIL program does: arithmetic, the machine of one invocation, and launches of many invocations over one memory.
#![tactic(auto)]

mod launch;
mod rows;

pub use launch::fits_launch;
pub use rows::{edge_rows, worked_rows};
