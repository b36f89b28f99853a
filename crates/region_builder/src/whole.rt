//! From leaves to the roots that are left.

ghost use Rattle.std.specs.Prelude.{◌≡◌, ◌<◌, ◌↔◌, ◌^◌, ◌∷◌, ◌++◌, [], ℕ, cond, length, map, slice_index, true, IfOk, OnOk};
ghost use Rattle.dxil_form.specs.declared.program.Program.{Program};
ghost use Rattle.dxil_form.specs.Graphs.{Graph as Branching, Crossed};
ghost use Rattle.dxil_form.specs.Branches.{IsBranchGraph};
ghost use Rattle.flow_graph.specs.Shapes.{plain};
ghost use Rattle.region_builder.specs.Started.{IsStarted, IsPartial};
ghost use Rattle.region_builder.specs.Built.{IsBuilt, BuiltBy, AllSettled};
ghost use Rattle.region_builder.specs.Loops.{LoopsAreHeads};
ghost use Rattle.region_builder.specs.Bare.{IsTree, NoThen, Bare};
ghost use Rattle.region_builder.specs.Children.{AreRoots, AreSolePreds};

use crate::builder::Builder;
use crate::partial::Partial;
use dx_base::{Cases, List, OutOfMemory};
use flow_graph::Graph;
use head_table::heads_of;
use std::alloc::Global;

/// The blocks that enter the roots.
fn blocks_of(alloc: Global, roots: &[(u32, u32)]) -> Result<Vec<u32>, OutOfMemory>
    ensures { IfOk result (λ blocks. blocks.items ≡ map (λ root. root.0) roots.now) }
{
    let mut blocks = Vec::new(alloc);
    for root in roots {
        if blocks.push(root.0).is_err() {
            return Err(OutOfMemory);
        }
    }
    Ok(blocks)
}

/// The places of the roots.
fn places_of(alloc: Global, roots: &[(u32, u32)]) -> Result<Vec<u32>, OutOfMemory>
    ensures { IfOk result (λ places. places.items ≡ map (λ root. root.1) roots.now) }
{
    let mut places = Vec::new(alloc);
    for root in roots {
        if places.push(root.1).is_err() {
            return Err(OutOfMemory);
        }
    }
    Ok(places)
}

/// Adds what is told of a node.
fn add_pred(preds: &mut Vec<Option<u32>>, pred: Option<u32>) -> Result<(), OutOfMemory>
    ensures { OnOk result (preds.new.items ≡ preds.old.items ++ pred ∷ []) }
{
    match preds.push(pred) {
        Ok(()) => Ok(()),
        Err(_) => Err(OutOfMemory),
    }
}

/// The sole predecessor of each of the first nodes, which are live.
fn sole_preds(alloc: Global, graph: &Graph, count: usize) -> Result<Vec<Option<u32>>, OutOfMemory>
    requires few { count < 2 ^ 32 }
    requires live { (i : ℕ) → i < count → (plain graph.now).live i ≡ true }
    ensures len { IfOk result (λ preds. length preds.items ≡ count) }
    ensures sole { IfOk result (λ preds. AreSolePreds (plain graph.now) preds.items) }
{
    let mut preds = Vec::new(alloc);
    for j in 0..count {
        let pred = graph.sole_pred(j as u32);
        add_pred(&mut preds, pred)?;
    }
    Ok(preds)
}

/// Regions under roots, before anything was done.
fn open(alloc: Global, partial: Partial) -> Result<Builder, OutOfMemory>
    requires { (p : Program) × IsStarted p partial }
    ensures built { IfOk result (λ builder. (p : Program) → IsStarted p partial → BuiltBy p partial builder) }
    ensures bare { IfOk result (λ builder. Bare (plain partial.graph) builder) }
{
    let blocks = blocks_of(alloc, partial.roots.as_slice())?;
    let places = places_of(alloc, partial.roots.as_slice())?;
    let graph = partial.graph;
    let firsts = sole_preds(alloc, &graph, blocks.len())?;
    let heads = heads_of(alloc, &graph, blocks.len())?;
    Ok(Builder {
        list: partial.list,
        blocks,
        places,
        graph,
        firsts,
        ranks: heads.ranks,
        heads: heads.table,
    })
}

/// Adds a root, if its node is live.
fn add_root(roots: &mut Cases, live: bool, block: u32, place: u32) -> Result<(), OutOfMemory>
    ensures { OnOk result (roots.new ≡ cond live (roots.old ++ (block, place) ∷ []) roots.old) }
{
    if live && roots.push((block, place)).is_err() {
        return Err(OutOfMemory);
    }
    Ok(())
}

/// The roots of the live nodes, in order.
fn live_roots(
    alloc: Global,
    graph: &Graph,
    blocks: &[u32],
    places: &[u32],
) -> Result<Cases, OutOfMemory>
    requires count { graph.now.count ≡ length blocks.now }
    requires few { length blocks.now < 2 ^ 32 }
    requires places { length places.now ≡ length blocks.now }
    requires rising { (i j : ℕ) → i < j → j < length blocks.now → slice_index blocks.now i < slice_index blocks.now j }
    ensures { IfOk result (λ roots. AreRoots (plain graph.now) (length blocks.now) blocks.now places.now roots) }
{
    let mut roots: Cases = List::new(alloc);
    for i in 0..blocks.len() {
        let live = graph.is_live(i as u32);
        add_root(&mut roots, live, blocks[i], places[i])?;
    }
    Ok(roots)
}

/// The regions and roots that are left.
fn shut(alloc: Global, builder: Builder) -> Result<Partial, OutOfMemory>
    requires built { IsBuilt builder }
    requires settled { AllSettled (plain builder.graph) }
    ensures partial { IfOk result (λ left. (p : Program) (first : Partial) → BuiltBy p first builder → IsPartial p left) }
    ensures list { IfOk result (λ left. left.list ≡ builder.list) }
    ensures single { IfOk result (λ left. (p : Program) (first : Partial) (g : Branching) → BuiltBy p first builder → IsBranchGraph p g → (length left.roots ≡ 1) ↔ (Crossed g → ⊥)) }
    ensures loops { IfOk result (λ left. (p : Program) (first : Partial) (g : Branching) → BuiltBy p first builder → IsBranchGraph p g → (Crossed g → ⊥) → LoopsAreHeads g left.list) }
{
    let roots = live_roots(alloc, &builder.graph, &builder.blocks, &builder.places)?;
    Ok(Partial {
        list: builder.list,
        roots,
        graph: builder.graph,
    })
}

/// Puts regions together as far as the rewriting of their graph leads.
///
/// One root is left exactly where no ring of the branch graph has two entrances. Then each head has one loop, over the blocks that its rings pass. Where each block has
/// at most one edge into it, no region is a `Then`.
pub fn build(alloc: Global, partial: Partial) -> Result<Partial, OutOfMemory>
    requires { (p : Program) × IsStarted p partial }
    ensures partial { IfOk result (λ left. (p : Program) → IsStarted p partial → IsPartial p left) }
    ensures single { IfOk result (λ left. (p : Program) (g : Branching) → IsStarted p partial → IsBranchGraph p g → (length left.roots ≡ 1) ↔ (Crossed g → ⊥)) }
    ensures loops { IfOk result (λ left. (p : Program) (g : Branching) → IsStarted p partial → IsBranchGraph p g → (Crossed g → ⊥) → LoopsAreHeads g left.list) }
    ensures no_then { IfOk result (λ left. (p : Program) (g : Branching) → IsStarted p partial → IsBranchGraph p g → IsTree g → NoThen left.list) }
{
    let mut builder = open(alloc, partial)?;
    builder.reduce(alloc)?;
    builder.forget();
    builder.reduce(alloc)?;
    shut(alloc, builder)
}
