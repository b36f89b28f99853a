//! Where the sites of blocks stand in the words of a program's module, and what has a name there, as a theorem.
//!
//! The function does nothing: its contract states the theorem, which stands in `specs/Sites.antt`.
#![tactic(auto)]

ghost use Rattle.site_form.specs.Sites.{ModulesHaveSites};

/// The module of every sound program has a site for each block that is reached, for no other, and names for the labels of sites alone.
pub fn module_has_sites()
    ensures { ModulesHaveSites }
{}
