//! The metadata of a module, and what they say of its compute shader, over the module's types and records.
#![tactic(auto)]

mod read;

pub use llvm_facts::{Facts, Row, RowList};
pub use llvm_nodes::{Meta, MetaItem, MetaList, Named, NamedList};
pub use read::{read_metadata, shader_facts};
