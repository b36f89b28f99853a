//! How many accesses, atomics and barriers the words of a program's module have at most, as a theorem.
//!
//! The function does nothing: its contract states the theorem, which stands in `specs/Laws.antt`.
#![tactic(auto)]

ghost use Rattle.act_counts.specs.Laws.{FewActs};

/// A module that does what the blocks that are reached do, each block once, has no more loads and stores of memory that other invocations see than those blocks have parts to load and to store, no more atomics, swaps and barriers than they have, and no more signed divisions, remainders, and reversals and counts of bits than they have of these operations.
pub fn modules_have_few_acts()
    ensures { FewActs }
{}
