//! Tests of the profile: what each of its rules refuses, and the program that a shader states.
#![tactic(auto)]

#[cfg(test)]
mod loops;
#[cfg(test)]
mod many;
#[cfg(test)]
mod rounds;
#[cfg(test)]
mod rules;
#[cfg(test)]
mod shader;
#[cfg(test)]
mod writer;
