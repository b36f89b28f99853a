//! Small bitstreams for tests, written piece by piece, and their items.
#![tactic(auto)]

mod writer;

pub use writer::{Piece, items_in, items_of};
