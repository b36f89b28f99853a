//! Where code is put together as rows, merge instructions wait for their labels only as deep as rows stand in rows, as a theorem.
//!
//! The function does nothing: its contract states the theorem, which stands in `specs/Laws.antt`.
#![tactic(auto)]

ghost use Rattle.nested_rows.specs.Laws.{NestedRowsStayShallow};

/// In a function that is a row, never more merge instructions wait for their merge label than the row is deep.
pub fn nested_rows_stay_shallow()
    ensures { NestedRowsStayShallow }
{}
