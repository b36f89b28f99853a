//! Tests of containers, whole files and the lines that show them.
#![tactic(auto)]

#[cfg(test)]
mod containers;
#[cfg(test)]
mod files;
#[cfg(test)]
mod lines;
#[cfg(test)]
mod outside;
#[cfg(test)]
mod small;
