//! A SPIR-V module as plain data, the operands of its instructions, and the faults that a check of a module answers.
#![tactic(auto)]

mod fault;
mod module;
pub mod op;
mod operands;
mod shape;

pub use fault::{CheckFault, WordRule};
pub use module::{Inst, InstList, Module, Version};
pub use operands::Operands;
pub use shape::{Shape, shape_of};
