//! What a module does in whole blocks, as theorems: all states of a program and its module match, and so the two do the same, where the module has the code of each block that is reached and leaves it for the blocks that its terminator goes to.
//!
//! The functions do nothing: their contracts state the theorems, which stand in `specs/Laws.antt`. When two states match stands in `specs/Between.antt`, and what a block asks in `specs/BlockReady.antt`.
#![tactic(auto)]

ghost use Rattle.leaf_runs.specs.Laws.{LeavesMatch, SameByLeaves, StartsMatch};

/// All states at the beginning of a block, or between two events of it, match, within the steps that a run is given.
pub fn leaves_match()
    ensures { LeavesMatch }
{}

/// The two machines come from where they start to states that match.
pub fn starts_match()
    ensures { StartsMatch }
{}

/// So the program and the module do the same, in every launch and by every schedule.
pub fn same_by_leaves()
    ensures { SameByLeaves }
{}
