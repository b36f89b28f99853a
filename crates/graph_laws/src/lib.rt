//! Laws of the rewriting of branch graphs, over plain graphs.
//!
//! The functions do nothing: each is a theorem, which its contract states. The statements stand in `specs/Laws.antt`, in the words of `dxil_form`.
//! A node that has an edge to itself may be folded, and a node other than the entry that has a sole predecessor may be absorbed by it.
//! Each law speaks of one step: a rewrite keeps whether some ring has two entrances, a graph on which none applies has such a ring or one node, and a rewrite keeps
//! which nodes the rings of each head pass.
#![tactic(auto)]

ghost use Rattle.graph_laws.specs.Laws.{FoldKeepsCrossed, AbsorbKeepsCrossed, StuckIsCrossed, FoldKeepsReached, AbsorbKeepsReached, StepOrCrossed, FoldKeepsHeads, AbsorbKeepsHeads, FoldEndsHead, HeadsByWalks};

/// A fold neither makes nor hides a crossed ring.
pub fn fold_keeps_crossed()
    ensures { FoldKeepsCrossed }
{}

/// An absorb of a node by its sole predecessor neither makes nor hides a crossed ring.
pub fn absorb_keeps_crossed()
    ensures { AbsorbKeepsCrossed }
{}

/// A graph of more than one node, all reached from the entry, on which neither rewrite applies has a crossed ring.
pub fn stuck_is_crossed()
    ensures { StuckIsCrossed }
{}

/// After a fold all nodes are still reached from the entry.
pub fn fold_keeps_reached()
    ensures { FoldKeepsReached }
{}

/// After an absorb all nodes are still reached from the entry.
pub fn absorb_keeps_reached()
    ensures { AbsorbKeepsReached }
{}

/// A graph of more than one node, all reached from the entry, has a crossed ring, or some rewrite applies in order.
///
/// A fold is in order where the rings of the node's own pass no other node, and an absorb where it leaves the rings of no head.
pub fn step_or_crossed()
    ensures { StepOrCrossed }
{}

/// A fold keeps which nodes the rings of each other head pass.
pub fn fold_keeps_heads()
    ensures { FoldKeepsHeads }
{}

/// An absorb keeps which nodes the rings of each head pass, of the nodes that stay.
pub fn absorb_keeps_heads()
    ensures { AbsorbKeepsHeads }
{}

/// After a fold in order the node is the head of no ring.
pub fn fold_ends_head()
    ensures { FoldEndsHead }
{}

/// Walks without a node tell of which rings it is the head.
pub fn heads_by_walks()
    ensures { HeadsByWalks }
{}
