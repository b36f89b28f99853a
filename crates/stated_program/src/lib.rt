//! The program that the records of the entry body state.
//!
//! So far these are definitions alone, in `specs/`: its resources and the accesses to them in `Accesses.antt`, its instructions in `Instructions.antt`, and the whole in `Stated.antt`.
#![tactic(auto)]
