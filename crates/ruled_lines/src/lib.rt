//! The code of the lines of a block keeps the rules of the ids, as a theorem.
//!
//! The function does nothing: its contract states the theorem, which stands in `specs/Laws.antt`.
#![tactic(auto)]

ghost use Rattle.ruled_lines.specs.Laws.{LinesKeepRules};

/// Each instruction of the code of lines uses ids that are in reach, has operands that fit, and writes no memory that is read only.
pub fn lines_keep_rules()
    ensures { LinesKeepRules }
{}
