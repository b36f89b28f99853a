//! The instructions of the module that a program is lowered to, as a function of the program, of its regions, and of what the module declares.
//!
//! The definitions stand in `specs/`. This crate has the names of what a module declares, and a few facts of a program that the code and the table of a module both depend on.
#![tactic(auto)]

mod event;
mod key;
mod rows;
mod shapes;
mod way;

pub use event::Event;
pub use key::{BuiltIn, Global, Slot, Sort, Storage};
pub use rows::worked_rows;
pub use shapes::{
    PARTS, barrier_scope, barrier_semantics, buffer_storage, built_in_of, has_part, input_sort,
    is_never, is_rowed, limit_of, pick, scope_of, sort_of, zero_of,
};
pub use way::Way;
