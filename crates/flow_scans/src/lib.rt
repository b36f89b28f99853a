//! Scans over spans of blocks: for each block the last span that lies over it and the least end of one. Beside them the greatest numbers of ranges, and lists of numbers kept as runs.
#![tactic(auto)]

mod range;
mod runs;
mod span;

pub use range::RangeMax;
pub use runs::Runs;
pub use span::{Span, first_ends, greatest_ends, last_holders, last_overs, least_firsts};
