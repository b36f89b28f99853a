//! Tests of bits, values and bitstreams.
#![tactic(auto)]

#[cfg(test)]
mod bits;
#[cfg(test)]
mod bitstreams;
#[cfg(test)]
mod blocks;
#[cfg(test)]
mod small;
#[cfg(test)]
mod values;
