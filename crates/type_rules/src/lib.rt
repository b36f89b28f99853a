//! The rules of a module's types and operands: V5 and V6, each of one instruction.
#![tactic(auto)]

mod group;
mod operands;
mod types;
mod values;

pub use operands::fits;
pub use types::{is_int, is_listed, is_void};
pub use values::{is_label, pointer_type};
