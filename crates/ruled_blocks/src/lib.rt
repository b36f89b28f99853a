//! The code of a block keeps the rules of the ids, as a theorem.
//!
//! The function does nothing: its contract states the theorem, which stands in `specs/Laws.antt`.
#![tactic(auto)]

ghost use Rattle.ruled_blocks.specs.Laws.{BlocksKeepRules};

/// Each instruction of the code of a block, up to its branch, uses ids that are in reach, has operands that fit, and writes no memory that is read only.
pub fn blocks_keep_rules()
    ensures { BlocksKeepRules }
{}
