//! The loops of the module of a lowered program are those of its branch graph, as a theorem.
//!
//! The function does nothing: its contract states the theorem, which stands in `specs/Laws.antt`.
#![tactic(auto)]

ghost use Rattle.module_loops.specs.Laws.{LoopsAreAsManyAsHeads};

/// Where no ring is crossed and few blocks are reachable, a module has as many OpLoopMerge as the branch graph has heads.
pub fn modules_have_their_loops()
    ensures { LoopsAreAsManyAsHeads }
{}
