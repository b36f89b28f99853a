//! What a SPIR-V module does: the machine of one invocation, which label stands for which block of the program, and when a program and a module do the same.
#![tactic(auto)]

mod bindings;
mod laws;
mod rows;
mod site;

pub use bindings::plain_binding;
pub use laws::{
    EmptyShader, StepMatching, empty_shader_is_same, plain_bindings_fit, same_by_matching,
    sites_begin,
};
pub use rows::worked_rows;
pub use site::{first_word, site_of, write_name};
