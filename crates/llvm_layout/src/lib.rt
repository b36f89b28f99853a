//! The fields of the records in a function's body, by a table of layouts (LLVM 3.7 bitcode file format, "FUNCTION_BLOCK Contents").
#![tactic(auto)]

pub mod code;
mod letter;
mod rows;
mod table;
mod walk;

pub use letter::{Around, Form, Letter, Parts, Taken, back_from};
pub use table::is_listed;
pub use walk::{is_stated, read_record};
