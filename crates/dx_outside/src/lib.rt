//! What a program sees of the outside: files by their names, and a sink for what it says.
//!
//! Each object keeps counts of the calls that failed, and code that is generic over [`Files`] and [`Sink`] can't raise them. So
//! a contract that says "this fault only where the count rose in this call" refuses a body that gives up without a failed call.
#![tactic(auto)]

mod entry;
mod host;
mod memory;
mod outside;
mod read;
mod sink;
mod steady;
mod text;

pub use entry::Entry;
pub use host::{HostFiles, HostSink};
pub use memory::MemoryFiles;
pub use outside::{Files, Outage, Sink};
pub use read::{Whole, read_whole};
pub use sink::{MemorySink, SteadySink};
pub use steady::SteadyFiles;
pub use text::say;
