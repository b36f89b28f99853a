//! The records of a module: its values by number, and its bodies.
#![tactic(auto)]

mod facts;
mod read;

pub use llvm_bodies::{Body, BodyList, Line, LineList};
pub use llvm_values::{ConstKind, Global, GlobalList};
pub use read::{Records, read_module_records};
