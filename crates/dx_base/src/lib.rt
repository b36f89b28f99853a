//! Lists, bits and faults that every other crate speaks of.
#![tactic(auto)]

mod bits;
mod fault;
mod list;
mod words;

pub use bits::{BitCursor, Vbr};
pub use fault::{Fault, OutOfMemory, Rule, Which};
pub use list::{Bytes, Cases, List, Numbers, Words};
pub use words::bytes_of;
