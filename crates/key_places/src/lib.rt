//! The first place of each key, kept as a sorted list of pairs.
#![tactic(auto)]

mod places;

pub use places::FirstPlaces;
