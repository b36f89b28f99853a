//! The check of a file of SPIR-V words.
//!
//! The definitions stand in `specs/`: what is accepted and the first refusal in `Checking.antt`, and the laws in `Laws.antt`.
#![tactic(auto)]

ghost use Rattle.spirv_file.specs.Laws.{OneRefusal, AcceptedHasNoRefusal};

mod check;

pub use check::check_file;

/// A file has at most one first refusal.
pub fn one_refusal()
    ensures { OneRefusal }
{}

/// A file that is accepted has no refusal.
pub fn accepted_has_no_refusal()
    ensures { AcceptedHasNoRefusal }
{}
