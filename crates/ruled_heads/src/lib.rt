//! What stands before the code of the regions of a module keeps the rules of the ids, as a theorem.
//!
//! The function does nothing: its contract states the theorem, which stands in `specs/Laws.antt`.
#![tactic(auto)]

ghost use Rattle.ruled_heads.specs.Laws.{FramesKeepRules};

/// Each instruction before the code of the regions uses ids that are in reach, has operands that fit, and writes no memory that is read only.
pub fn frames_keep_rules()
    ensures { FramesKeepRules }
{}
