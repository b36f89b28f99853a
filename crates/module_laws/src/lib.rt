//! What holds of the module of every program, over the regions of its branch graph: the rules that it keeps, and the loops that it has.
//!
//! The functions do nothing: their contracts state the theorems, which stand in `specs/Laws.antt`.
#![tactic(auto)]

ghost use Rattle.module_laws.specs.Laws.{ModulesKeepRules, ModulesHaveLoops};

/// The module of each program breaks none of the rules V1 to V15, and its blocks break none of S1 to S12.
pub fn modules_keep_rules()
    ensures { ModulesKeepRules }
{}

/// Where no ring of the branch graph is crossed and few blocks are reachable, the module of each program has the loops and switches of that graph.
pub fn modules_have_loops()
    ensures { ModulesHaveLoops }
{}
