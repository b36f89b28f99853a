//! What the words of a program's module look like, as a theorem: what it declares of itself, its one function, its one return, the names of its labels, and what the variables of the function begin with.
//!
//! The function does nothing: its contract states the theorem, which stands in `specs/Form.antt`.
#![tactic(auto)]

ghost use Rattle.module_form.specs.Form.{ModulesHaveForm};

/// The module of every program has this form.
pub fn module_has_form()
    ensures { ModulesHaveForm }
{}
