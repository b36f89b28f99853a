//! How many switches and loops the module of a lowered program has at most, as a theorem.
//!
//! The function does nothing: its contract states the theorem, which stands in `specs/Laws.antt`.
#![tactic(auto)]

ghost use Rattle.module_counts.specs.Laws.{LoopsAreRegions, SwitchesAreTerminators, FewSwitches, NoRingNoLoop};

/// A module has no more OpLoopMerge than its regions have loops, and no more OpSwitch than their blocks' switches ask for; where no ring is crossed and few blocks are reachable, no more OpSwitch than the reachable blocks' switches ask for, and no OpLoopMerge where there is no ring.
pub fn modules_have_few_branches()
    ensures loops { LoopsAreRegions }
    ensures switches { SwitchesAreTerminators }
    ensures few { FewSwitches }
    ensures rings { NoRingNoLoop }
{}
