//! Tests of the basic blocks of a module and of the rules on its structure.
#![tactic(auto)]

#[cfg(test)]
mod blocks;
#[cfg(test)]
mod bodies;
#[cfg(test)]
mod places;
#[cfg(test)]
mod scans;
