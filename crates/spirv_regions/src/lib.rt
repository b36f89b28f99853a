//! Writes the regions of a program: each function appends exactly the instructions of a definition of `spirv_code`.
#![tactic(auto)]

mod choices;
mod labels;
mod pieces;
mod regions;
mod splits;
mod ways;

pub use labels::{Kind, begins_plainly, entry_label, label, tree_place};
pub use pieces::onwards;
pub use regions::row;
