//! Collects what the module of a program declares: the keys that its code names, each behind those that it needs itself.
#![tactic(auto)]

mod accesses;
mod lines;
mod operands;
mod regions;
mod table;

pub use regions::table_of;
