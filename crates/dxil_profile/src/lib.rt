//! The profile of a compute shader: which entry bodies are translated, and the program that one states.
//!
//! The definitions stand in `specs/`: the answer on the types, the records and the facts of a shader in `Profile.antt`, and the laws in `Laws.antt`.
#![tactic(auto)]

ghost use Rattle.dxil_profile.specs.Laws.{OneProgram, OneRefusal, SoundHasNoRefusal};

mod answer;

pub use answer::profile;

/// The records of a shader state at most one program.
pub fn one_program()
    ensures { OneProgram }
{}

/// They have at most one first refusal.
pub fn one_refusal()
    ensures { OneRefusal }
{}

/// Records that state a program that meets the profile have no refusal.
pub fn sound_has_no_refusal()
    ensures { SoundHasNoRefusal }
{}
