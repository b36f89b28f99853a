//! The instructions of the entry body: which operations they call, and what their values are.
#![tactic(auto)]

mod call;
mod known;
mod pool;
mod setters;

pub use call::{
    Argument, Outcome, argument_at, arguments_of, carried, is_named, opcode, operand, operation,
    outcome_of, plain,
};
pub use known::{
    Known, KnownList, ValueKind, ValueType, call_type, is_variable, kind_by, kind_in, known_at,
    known_values,
};
pub use pool::Pool;
pub use setters::{setter, setters_of};
