//! The code of the regions of a module keeps the rules of the ids, as theorems.
//!
//! The functions do nothing: their contracts state the theorems, which stand in `specs/Laws.antt`.
#![tactic(auto)]

ghost use Rattle.ruled_rows.specs.Laws.{RowsKeepRules, ModulesKeepIds};

/// Each instruction of a module behind its frame uses ids that are in reach, has operands that fit, and writes no memory that is read only.
pub fn rows_keep_rules()
    ensures { RowsKeepRules }
{}

/// So does each instruction of a module, where each instruction of its frame does.
pub fn modules_keep_ids()
    ensures { ModulesKeepIds }
{}
