//! What the code of one part of an access does, as a theorem: where the part's word is in range the machine of the module asks the memory for its place, and else it asks nothing; and then it holds what the program's machine holds.
//!
//! The function does nothing: its contract states the theorem, which stands in `specs/Parts.antt`.
#![tactic(auto)]

ghost use Rattle.access_runs.specs.Parts.{PartsRun};

/// The code of each part of an access does what the part does, in every launch that fits the program.
pub fn parts_run()
    ensures { PartsRun }
{}
