//! Tests of bodies, and of the records of whole modules.
#![tactic(auto)]

#[cfg(test)]
mod bodies;
#[cfg(test)]
mod records;
