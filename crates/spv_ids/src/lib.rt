//! The ids of a module: which operands of an instruction are ids, and where each id is defined.
#![tactic(auto)]

mod ids;
mod places;
mod roles;

pub use ids::Ids;
pub use places::{first_with, is_before, is_there};
pub use roles::{operand, result_of, result_place, type_of};
