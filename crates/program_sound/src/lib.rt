//! The law that a body which breaks no rule of the profile states a sound program.
//!
//! The function does nothing: it is a theorem, which its contract states. The statement stands in `specs/Law.antt`.
#![tactic(auto)]

ghost use Rattle.program_sound.specs.Law.{ProgramIsSound};

/// Where a body is as the readers of a file give it, and breaks no rule and no limit of the profile, the program that its records state is sound.
pub fn program_is_sound()
    ensures { ProgramIsSound }
{}
