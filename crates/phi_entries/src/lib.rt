//! What each phi of a program takes, by the block before: a map that is made once, so that no list of entries is searched for each edge.
#![tactic(auto)]

mod entries;

pub use entries::{Edge, Entries};
