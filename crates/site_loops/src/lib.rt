//! The sites of a module stand in the loops of its program's branch graph, as a theorem.
//!
//! The function does nothing: its contract states the theorem, which stands in `specs/Laws.antt`.
#![tactic(auto)]

ghost use Rattle.site_loops.specs.Laws.{SitesStandInTheirLoops};

/// Where no ring is crossed and few blocks are reachable, the site of each reachable block stands in as many loop constructs as the block is deep.
pub fn sites_stand_in_their_loops()
    ensures { SitesStandInTheirLoops }
{}
