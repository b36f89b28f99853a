//! Tests of programs as plain data, of their graphs, and of what programs and modules mean.
#![tactic(auto)]

#[cfg(test)]
mod bindings;
#[cfg(test)]
mod graphs;
#[cfg(test)]
mod launches;
#[cfg(test)]
mod opcodes;
#[cfg(test)]
mod sites;
