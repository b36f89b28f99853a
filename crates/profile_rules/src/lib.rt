//! The rules of the profile, which the entry body of a shader has to keep.
//!
//! The definitions stand in `specs/`: the rules P1 to P22 and the limit of resources in `Rules.antt`, and the kinds that operand places ask in `Asked.antt`.
#![tactic(auto)]

mod arguments;
mod asked;
mod call;
mod check;
mod handle;
mod kinds;
mod operation;
mod phi;
mod place;
mod rows;
mod sets;
mod switch;
mod variables;

pub use check::first_fault;
