//! Tests of the metadata of a module, and of what they say of its shader.
#![tactic(auto)]

#[cfg(test)]
mod facts;
#[cfg(test)]
mod metadata;
#[cfg(test)]
mod surface;
