//! Tests of regions, and the regions of programs of few blocks.
#![tactic(auto)]

#[cfg(test)]
mod follow;
#[cfg(test)]
mod graphs;
mod nesting;
#[cfg(test)]
mod show;
#[cfg(test)]
mod tests;
#[cfg(test)]
mod wired;

pub use nesting::nested;
