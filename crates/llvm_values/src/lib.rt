//! The values of a module by number, and the rules of the records that state them.
#![tactic(auto)]

mod check;
mod code;
mod constant;
mod count;
mod field;
mod global;
mod list;
mod module;
mod rule;
mod symbol;

pub use check::check_values;
pub use constant::{constant_of, type_after};
pub use count::{count_bodies, count_values};
pub use global::{ConstKind, Global, GlobalList};
pub use list::list_values;
