//! The body of the entry function with tables over its lines: who gives a value, of which kind it is, which places and resources are named, which parts
//! are taken, and where blocks branch to.
#![tactic(auto)]

mod froms;
mod kind;
mod masks;
mod operand;
mod pairs;
mod place;
mod rows;
mod scope;

pub use kind::{is_kind, is_plain, ty_of};
pub use masks::Taken;
pub use operand::{is_same, operand_of, register};
pub use pairs::{cases_of, entries_of};
pub use place::{Place, is_i32, place_named, place_of, words_at};
pub use rows::class_number;
pub use scope::Scope;
