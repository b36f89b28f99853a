//! Laws of regions that are put together from below, by the parts before the whole.
//!
//! The functions do nothing: each is a theorem, which its contract states. The statements stand in `specs/Laws.antt`.
#![tactic(auto)]

ghost use Rattle.region_laws.specs.Laws.{ClosedIsWired, ClosedPassesAll};

/// Regions under several roots are one tree once a dispatch stands over the roots; a single root is one already.
pub fn closed_is_wired()
    ensures { ClosedIsWired }
{}

/// Where each root passes the paths up to the next root, the whole passes exactly the paths from block 0.
pub fn closed_passes_all()
    ensures { ClosedPassesAll }
{}
