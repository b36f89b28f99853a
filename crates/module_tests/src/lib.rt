//! Tests of the calls that read, write and check SPIR-V words.
#![tactic(auto)]

#[cfg(test)]
mod operands;
#[cfg(test)]
mod rules;
#[cfg(test)]
mod shader;
#[cfg(test)]
mod structure;
#[cfg(test)]
mod words;
