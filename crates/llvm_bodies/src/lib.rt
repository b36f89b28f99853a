//! The bodies of a module's functions: the instructions of each, with their operands (LLVM 3.7 bitcode file format, "FUNCTION_BLOCK Contents").
#![tactic(auto)]

mod facts;
mod line;
mod progress;
mod read;
mod rules;

pub use facts::{ModuleFacts, Signature};
pub use line::{Body, BodyList, Line, LineList};
pub use read::read_bodies;
