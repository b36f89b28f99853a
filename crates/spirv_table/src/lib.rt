//! What a module declares, as tables that are filled first and then looked up, and the registers that are known at a place of the code.
#![tactic(auto)]

mod known;
mod tables;

pub use known::Known;
pub use tables::Tables;
