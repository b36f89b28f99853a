//! Blocks that are put together from rows break no structure rule, as a theorem.
//!
//! The function does nothing: its contract states the theorem, which stands in `specs/Laws.antt`.
#![tactic(auto)]

ghost use Rattle.row_laws.specs.Laws.{WholeRowsAreSound};

/// A function whose blocks are a whole row breaks no structure rule.
pub fn whole_rows_are_sound()
    ensures { WholeRowsAreSound }
{}
