//! How a block is left keeps the rules of the ids, as theorems.
//!
//! The functions do nothing: their contracts state the theorems, which stand in `specs/Laws.antt`.
#![tactic(auto)]

ghost use Rattle.ruled_exits.specs.Laws.{ChoicesKeepRules, SplitsKeepRules};

/// Each instruction of a selection among the next blocks of a block, with the setters of those without an arm, uses ids that are in reach, has operands that fit, and writes no memory that is read only.
pub fn choices_keep_rules()
    ensures { ChoicesKeepRules }
{}

/// So does each instruction of the selections by which a switch of many cases is tested.
pub fn splits_keep_rules()
    ensures { SplitsKeepRules }
{}
