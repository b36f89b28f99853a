//! The law that the body of the entry function of a shader is as the profile's layer takes it.
//!
//! The function does nothing: it is a theorem, which its contract states. Which body that is stands in `specs/Entry.antt`, and the statement in `specs/Law.antt`.
#![tactic(auto)]

ghost use Rattle.entry_read.specs.Law.{EntryIsRead};

/// The body of the entry function of a shader that a module states, of which no layer is broken, is as the profile's layer takes it: bits rise, values and blocks are numbered by position, and the counts are within their limits.
pub fn entry_is_read()
    ensures { EntryIsRead }
{}
