//! Rewriting as far as possible.

ghost use Rattle.std.specs.Prelude.{◌≡◌, ◌≢◌, ◌<◌, ◌≤◌, ◌+◌, ◌↔◌, ℕ, length, slice_get, slice_index, true, false, ◌||◌, OnOk, IfOk, IsTrue, Some};
ghost use Rattle.std.specs.Option.{IfSome, IfNone};
ghost use Rattle.dxil_form.specs.Graphs.{SolePred};
ghost use Rattle.flow_graph.specs.Shapes.{plain};
ghost use Rattle.head_table.specs.Table.{over};
ghost use Rattle.region_builder.specs.Settled.{IsAllowed, MayRepeat, IsSettledBy, AllSettledBy};
ghost use Rattle.region_builder.specs.Built.{IsBuilt, Keeps, SameRings, Went, size};
ghost use Rattle.region_builder.specs.Children.{AreChildrenBelow};
ghost use Rattle.region_builder.specs.Bare.{HasLeaf, NoArms, Branched};
ghost use Rattle.region_builder.specs.Advancing.{Advances, StaysBare};

use crate::builder::Builder;
use dx_base::OutOfMemory;
use std::alloc::Global;

/// Tells whether one of the two holds.
fn either(a: bool, b: bool) -> bool
    ensures { result ≡ (a || b) }
{
    a || b
}

impl Builder {
    /// Tells whether `a` is the sole predecessor of a node.
    fn is_parent(&self, a: u32, j: u32) -> bool
        requires j { j < self.now.graph.count }
        ensures yes { IsTrue result → SolePred (plain self.now.graph) a j }
        ensures no { SolePred (plain self.now.graph) a j → (plain self.now.graph).live j ≡ true → IsTrue result }
    {
        self.graph.is_live(j) && self.graph.sole_pred(j) == Some(a)
    }

    /// Tells whether `a` may absorb `j`.
    fn is_child(&self, a: u32, j: u32) -> bool
        requires built { IsBuilt self.now }
        requires live { (plain self.now.graph).live a ≡ true }
        requires j { j < length self.now.blocks.items }
        ensures sole { IsTrue result → SolePred (plain self.now.graph) a j }
        ensures allowed { IsTrue result → IsAllowed (over self.now.heads) a j }
        ensures no { SolePred (plain self.now.graph) a j → IsAllowed (over self.now.heads) a j → IsTrue result }
    {
        self.is_parent(a, j) && self.heads.allows(a as usize, j as usize)
    }

    /// The first node but the entry that `a` may absorb.
    fn first_child(&self, a: u32) -> Option<u32>
        requires built { IsBuilt self.now }
        requires live { (plain self.now.graph).live a ≡ true }
        ensures sole { IfSome result (λ j. SolePred (plain self.now.graph) a j) }
        ensures allowed { IfSome result (λ j. IsAllowed (over self.now.heads) a j) }
        ensures nonzero { IfSome result (λ j. j ≢ 0) }
        ensures none { IfNone result ((j : ℕ) → j ≢ 0 → SolePred (plain self.now.graph) a j → IsAllowed (over self.now.heads) a j → ⊥) }
    {
        for j in 1..self.blocks.len() as u32 {
            if self.is_child(a, j) {
                return Some(j);
            }
        }
        None
    }

    /// The nodes but the entry that `a` may absorb and of which it was the sole predecessor at first.
    fn children(&self, alloc: Global, a: u32) -> Result<Vec<u32>, OutOfMemory>
        requires built { IsBuilt self.now }
        requires live { (plain self.now.graph).live a ≡ true }
        ensures { IfOk result (λ nodes. AreChildrenBelow self.now a (length self.now.blocks.items) nodes.items) }
    {
        let mut nodes = Vec::new(alloc);
        for j in 1..self.blocks.len() as u32 {
            if self.firsts[j as usize] == Some(a) && self.is_child(a, j) && nodes.push(j).is_err() {
                return Err(OutOfMemory);
            }
        }
        Ok(nodes)
    }

    /// Lets the leaf of `a` go on with those nodes, if there are any.
    fn branch_children(&mut self, alloc: Global, a: u32) -> Result<bool, OutOfMemory>
        requires built { IsBuilt self.old }
        requires live { (plain self.old.graph).live a ≡ true }
        ensures went { IfOk result (λ done. Went self.old self.new done) }
        ensures live { OnOk result ((plain self.new.graph).live a ≡ true) }
        ensures branched { IfOk result (λ done. done ≡ true → Branched self.old self.new a) }
        ensures none { IfOk result (λ done. done ≡ false → HasLeaf self.old a → NoArms self.old a) }
    {
        if !self.is_leaf(a) {
            return Ok(false);
        }
        let nodes = self.children(alloc, a)?;
        if nodes.is_empty() {
            return Ok(false);
        }
        self.branch(alloc, a, &nodes)?;
        Ok(true)
    }

    /// Lets `a` go on with every node that it may absorb.
    fn join_children(&mut self, a: u32) -> Result<bool, OutOfMemory>
        requires built { IsBuilt self.old }
        requires live { (plain self.old.graph).live a ≡ true }
        ensures went { IfOk result (λ done. Went self.old self.new done) }
        ensures live { OnOk result ((plain self.new.graph).live a ≡ true) }
        ensures none { OnOk result ((j : ℕ) → j ≢ 0 → SolePred (plain self.new.graph) a j → IsAllowed (over self.new.heads) a j → ⊥) }
        ensures did { IfOk result (λ joined. joined ≡ true → (j : ℕ) × ((plain self.old.graph).edge a j ≡ true)) }
    {
        let mut joined = false;
        while let Some(j) = self.first_child(a) {
            self.join(a, j)?;
            joined = true;
        }
        Ok(joined)
    }

    /// Does what may be done at a live node, and tells whether anything was done.
    fn step(&mut self, alloc: Global, a: u32) -> Result<bool, OutOfMemory>
        requires built { IsBuilt self.old }
        requires live { (plain self.old.graph).live a ≡ true }
        ensures went { IfOk result (λ done. Went self.old self.new done) }
        ensures settled { IfOk result (λ done. done ≡ false → IsSettledBy (over self.old.heads) (plain self.old.graph) a) }
        ensures bare { OnOk result (Advances self.old self.new (slice_index self.old.ranks.items a) a (a + 1)) }
    {
        let branched = self.branch_children(alloc, a)?;
        let joined = self.join_children(a)?;
        let folded = self.repeat(a)?;
        let rest = self.join_children(a)?;
        Ok(either(either(branched, joined), either(folded, rest)))
    }

    /// The same at any node.
    fn visit(&mut self, alloc: Global, a: u32) -> Result<bool, OutOfMemory>
        requires built { IsBuilt self.old }
        requires a { a < self.old.graph.count }
        ensures went { IfOk result (λ done. Went self.old self.new done) }
        ensures settled { IfOk result (λ done. done ≡ false → (plain self.old.graph).live a ≡ true → IsSettledBy (over self.old.heads) (plain self.old.graph) a) }
        ensures bare { OnOk result (Advances self.old self.new (slice_index self.old.ranks.items a) a (a + 1)) }
    {
        if self.graph.is_live(a) {
            self.step(alloc, a)
        } else {
            Ok(false)
        }
    }

    /// Tells whether a node has the rank.
    fn has_rank(&self, a: u32, rank: u32) -> bool
        requires built { IsBuilt self.now }
        requires a { a < self.now.graph.count }
        ensures { IsTrue result ↔ (slice_index self.now.ranks.items a ≡ rank) }
    {
        self.ranks[a as usize] == rank
    }

    /// The same at a node of a rank, and nothing at any other node.
    fn visit_at(&mut self, alloc: Global, rank: u32, a: u32) -> Result<bool, OutOfMemory>
        requires built { IsBuilt self.old }
        requires a { a < self.old.graph.count }
        ensures went { IfOk result (λ done. Went self.old self.new done) }
        ensures settled { IfOk result (λ done. done ≡ false → slice_index self.old.ranks.items a ≡ rank → (plain self.old.graph).live a ≡ true → IsSettledBy (over self.old.heads) (plain self.old.graph) a) }
        ensures bare { OnOk result (Advances self.old self.new rank a (a + 1)) }
    {
        if self.has_rank(a, rank) {
            self.visit(alloc, a)
        } else {
            Ok(false)
        }
    }

    /// Visits each node of a rank, and tells whether anything was done.
    fn visit_rank(&mut self, alloc: Global, rank: u32) -> Result<bool, OutOfMemory>
        requires built { IsBuilt self.old }
        ensures went { IfOk result (λ done. Went self.old self.new done) }
        ensures settled { IfOk result (λ done. done ≡ false → (a : ℕ) → slice_index self.old.ranks.items a ≡ rank → (plain self.old.graph).live a ≡ true → IsSettledBy (over self.old.heads) (plain self.old.graph) a) }
        ensures bare { OnOk result (Advances self.old self.new rank 0 (length self.old.blocks.items)) }
    {
        let mut changed = false;
        for a in 0..self.blocks.len() as u32 {
            let done = self.visit_at(alloc, rank, a)?;
            changed = either(changed, done);
        }
        Ok(changed)
    }

    /// Visits each node, those of the highest rank first, and tells whether anything was done.
    fn round(&mut self, alloc: Global) -> Result<bool, OutOfMemory>
        requires built { IsBuilt self.old }
        ensures went { IfOk result (λ done. Went self.old self.new done) }
        ensures settled { IfOk result (λ done. done ≡ false → AllSettledBy (over self.old.heads) (plain self.old.graph)) }
        ensures bare { OnOk result (StaysBare self.old self.new) }
    {
        let mut changed = false;
        let most = self.blocks.len() as u32 + 1;
        for seen in 0..most + 1 {
            let done = self.visit_rank(alloc, most - seen)?;
            changed = either(changed, done);
        }
        Ok(changed)
    }

    /// Visits all nodes until nothing may be done any more.
    pub(crate) fn reduce(&mut self, alloc: Global) -> Result<(), OutOfMemory>
        requires built { IsBuilt self.old }
        ensures built { OnOk result (Keeps self.old self.new) }
        ensures rings { OnOk result (SameRings self.old.graph self.new.graph) }
        ensures settled { OnOk result (AllSettledBy (over self.new.heads) (plain self.new.graph)) }
        ensures bare { OnOk result (StaysBare self.old self.new) }
        ensures fewer { OnOk result ((h b : ℕ) → over self.old.heads h b ≡ false → over self.new.heads h b ≡ false) }
    {
        while self.round(alloc)? {}
        Ok(())
    }

    /// Forgets the heads that have no loop, which are those of crossed rings.
    pub(crate) fn forget(&mut self)
        requires built { IsBuilt self.old }
        requires settled { AllSettledBy (over self.old.heads) (plain self.old.graph) }
        ensures built { Keeps self.old self.new }
        ensures rings { SameRings self.old.graph self.new.graph }
        ensures cleared { (h b : ℕ) → over self.new.heads h b ≡ false }
        ensures bare { StaysBare self.old self.new }
    {
        self.heads.clear();
    }
}
