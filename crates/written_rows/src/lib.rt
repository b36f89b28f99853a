//! A function that is written as rows of blocks breaks no structure rule, as a theorem.
//!
//! The function does nothing: its contract states the theorem, which stands in `specs/Laws.antt`.
#![tactic(auto)]

ghost use Rattle.written_rows.specs.Laws.{WrittenRowsAreSound};

/// The blocks of instructions that are one function, whose code is put together by `RowCode`, break no structure rule.
pub fn written_rows_are_sound()
    ensures { WrittenRowsAreSound }
{}
