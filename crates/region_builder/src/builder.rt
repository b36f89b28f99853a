//! Regions under roots, and the steps that put them together.

ghost use Rattle.std.specs.Prelude.{◌≡◌, ◌≢◌, ◌<◌, ◌∷◌, ◌++◌, [], ℕ, ◌^◌, length, slice_get, slice_index, slice_set, EachIndex, Some, true, false, ◌↔◌, OnOk, IfOk, IsTrue};
ghost use Rattle.dxil_form.specs.declared.region.Region.TheVariants.{Leaf};
ghost use Rattle.dxil_form.specs.Graphs.{IsFormed, AllReached, SolePred, absorbed};
ghost use Rattle.flow_graph.specs.Shapes.{plain};
ghost use Rattle.head_table.specs.Table.{over};
ghost use Rattle.region_builder.specs.Settled.{IsAllowed, MayRepeat};
ghost use Rattle.region_builder.specs.Built.{IsBuilt, Keeps, SameRings, Went, size};
ghost use Rattle.region_builder.specs.Bare.{PutsArms};
ghost use Rattle.region_builder.specs.Absorbing.{AreChildren, AreAbsorbed, arms_of};

use dx_base::{Cases, List, OutOfMemory};
use dxil_form::{Region, RegionList};
use flow_graph::Graph;
use head_table::HeadTable;
use std::alloc::Global;

/// A list of regions; the block that enters each node; the place of the root of each live node; the graph of the nodes; the sole predecessor of each node at first, if
/// it had one; the rank of each node, lower than that of each node whose sole predecessor it is; and the heads that have no loop yet.
#[derive(Drop)]
pub(crate) struct Builder {
    pub(crate) list: RegionList,
    pub(crate) blocks: Vec<u32>,
    pub(crate) places: Vec<u32>,
    pub(crate) graph: Graph,
    pub(crate) firsts: Vec<Option<u32>>,
    pub(crate) ranks: Vec<u32>,
    pub(crate) heads: HeadTable,
}

/// The arms that go on with the roots of nodes.
fn arms_for(
    alloc: Global,
    blocks: &[u32],
    places: &[u32],
    nodes: &[u32],
) -> Result<Cases, OutOfMemory>
    requires blocks { EachIndex nodes.now (λ n. slice_index nodes.now n < length blocks.now) }
    requires places { EachIndex nodes.now (λ n. slice_index nodes.now n < length places.now) }
    ensures { IfOk result (λ arms. arms ≡ arms_of blocks.now places.now nodes.now) }
{
    let mut arms: Cases = List::new(alloc);
    for j in nodes {
        if arms
            .push((blocks[*j as usize], places[*j as usize]))
            .is_err()
        {
            return Err(OutOfMemory);
        }
    }
    Ok(arms)
}

/// Lets `a` stand for all of the nodes too.
fn absorb_all(graph: &mut Graph, a: u32, nodes: &[u32])
    requires formed { IsFormed (plain graph.old) }
    requires reached { AllReached (plain graph.old) }
    requires children { AreChildren (plain graph.old) a nodes.now }
    ensures { AreAbsorbed (plain graph.old) a nodes.now (plain graph.new) }
{
    for n in 0..nodes.len() {
        graph.absorb(a, nodes[n]);
    }
}

impl Builder {
    /// Puts a region behind the others, as the root of node `a`.
    fn add(&mut self, a: u32, region: Region) -> Result<(), OutOfMemory>
        requires a { a < length self.old.places.items }
        requires room { length self.old.list < 2 ^ 32 }
        ensures list { OnOk result (self.new.list ≡ self.old.list ++ region ∷ []) }
        ensures places { OnOk result (self.new.places.items ≡ slice_set self.old.places.items a (length self.old.list)) }
        ensures blocks { OnOk result (self.new.blocks.items ≡ self.old.blocks.items) }
        ensures graph { OnOk result (self.new.graph ≡ self.old.graph) }
        ensures firsts { OnOk result (self.new.firsts ≡ self.old.firsts) }
        ensures ranks { OnOk result (self.new.ranks ≡ self.old.ranks) }
        ensures heads { OnOk result (self.new.heads ≡ self.old.heads) }
    {
        let place = self.list.len() as u32;
        if self.list.push(region).is_err() {
            return Err(OutOfMemory);
        }
        self.places[a as usize] = place;
        Ok(())
    }

    /// Lets `a` go on with `j` where it wants the block of `j`.
    pub(crate) fn join(&mut self, a: u32, j: u32) -> Result<(), OutOfMemory>
        requires built { IsBuilt self.old }
        requires entry { j ≢ 0 }
        requires sole { SolePred (plain self.old.graph) a j }
        requires allowed { IsAllowed (over self.old.heads) a j }
        ensures built { OnOk result (Keeps self.old self.new) }
        ensures graph { OnOk result (plain self.new.graph ≡ absorbed (plain self.old.graph) a j) }
        ensures rings { OnOk result (SameRings self.old.graph self.new.graph) }
        ensures smaller { OnOk result (size self.new.graph < size self.old.graph) }
        ensures heads { OnOk result (self.new.heads ≡ self.old.heads) }
        ensures ranks { OnOk result (self.new.ranks.items ≡ self.old.ranks.items) }
    {
        let first = self.places[a as usize];
        let second = self.places[j as usize];
        let target = self.blocks[j as usize];
        self.add(
            a,
            Region::Then {
                first,
                second,
                target,
            },
        )?;
        self.graph.absorb(a, j);
        Ok(())
    }

    /// Tells whether `a` wants its own block, and its rings pass no other live node.
    fn may_repeat(&self, a: u32) -> bool
        requires built { IsBuilt self.now }
        requires live { (plain self.now.graph).live a ≡ true }
        ensures { IsTrue result ↔ MayRepeat (over self.now.heads) (plain self.now.graph) a }
    {
        self.graph.has_edge(a, a) && self.heads.is_alone(&self.graph, a as usize)
    }

    /// Lets `a` go round while it wants its own block, if it may, and tells whether it may.
    pub(crate) fn repeat(&mut self, a: u32) -> Result<bool, OutOfMemory>
        requires built { IsBuilt self.old }
        requires live { (plain self.old.graph).live a ≡ true }
        ensures went { IfOk result (λ done. Went self.old self.new done) }
        ensures live { OnOk result ((plain self.new.graph).live a ≡ true) }
        ensures did { IfOk result (λ done. done ≡ true → MayRepeat (over self.old.heads) (plain self.old.graph) a) }
        ensures may { IfOk result (λ done. done ≡ false → MayRepeat (over self.old.heads) (plain self.old.graph) a → ⊥) }
    {
        if !self.may_repeat(a) {
            return Ok(false);
        }
        self.graph.fold(a);
        self.heads.end_head(a as usize);
        let body = self.places[a as usize];
        let head = self.blocks[a as usize];
        self.add(a, Region::Loop { body, head })?;
        Ok(true)
    }

    /// Tells whether the root of a live node is a leaf.
    pub(crate) fn is_leaf(&self, a: u32) -> bool
        requires built { IsBuilt self.now }
        requires live { (plain self.now.graph).live a ≡ true }
        ensures { IsTrue result ↔ ((block : ℕ) × (slice_get self.now.list (slice_index self.now.places.items a) ≡ Some (Leaf block))) }
    {
        match self.list.get(self.places[a as usize] as usize) {
            Some(Region::Leaf { .. }) => true,
            _ => false,
        }
    }

    /// Lets the leaf of `a` go on with each of the nodes where it branches to its block.
    pub(crate) fn branch(&mut self, alloc: Global, a: u32, nodes: &[u32]) -> Result<(), OutOfMemory>
        requires built { IsBuilt self.old }
        requires leaf { (block : ℕ) × (slice_get self.old.list (slice_index self.old.places.items a) ≡ Some (Leaf block)) }
        requires children { AreChildren (plain self.old.graph) a nodes.now }
        requires own { (n j : ℕ) → slice_get nodes.now n ≡ Some j → slice_get self.old.firsts.items j ≡ Some (Some a) }
        requires allowed { (n j : ℕ) → slice_get nodes.now n ≡ Some j → IsAllowed (over self.old.heads) a j }
        ensures built { OnOk result (Keeps self.old self.new) }
        ensures graph { OnOk result (AreAbsorbed (plain self.old.graph) a nodes.now (plain self.new.graph)) }
        ensures rings { OnOk result (SameRings self.old.graph self.new.graph) }
        ensures smaller { OnOk result (size self.new.graph < size self.old.graph) }
        ensures heads { OnOk result (self.new.heads ≡ self.old.heads) }
        ensures ranks { OnOk result (self.new.ranks.items ≡ self.old.ranks.items) }
        ensures arms { OnOk result (PutsArms self.old self.new a) }
    {
        let first = self.places[a as usize];
        let arms = arms_for(alloc, &self.blocks, &self.places, nodes)?;
        self.add(a, Region::Arms { first, arms })?;
        absorb_all(&mut self.graph, a, nodes);
        Ok(())
    }
}
