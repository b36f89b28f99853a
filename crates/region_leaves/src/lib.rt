//! The blocks of a program that paths from block 0 reach, and a leaf for each of them.
#![tactic(auto)]

ghost use Rattle.std.specs.Prelude.{◌≡◌, ◌<◌, ◌≤◌, ◌^◌, ◌++◌, ◌∷◌, [], length, map, IfOk, OnOk};
ghost use Rattle.dxil_form.specs.Sound.{Sound};
ghost use Rattle.dxil_form.specs.Branches.{targets};
ghost use Rattle.flow_graph.specs.Given.{Within, given};
ghost use Rattle.region_leaves.specs.Leaves.{AreReachable, leaves_of, placed_from};
ghost use Rattle.region_leaves.specs.Edges.{edges_to, edges_on, AreMarked, MarksFromStart};

use dx_base::{Cases, List, Numbers, OutOfMemory};
use dxil_form::{Block, Program, Region, RegionList, Term};
use flow_graph::{Edge, Graph, MAX_EDGES, MAX_NODES};
use std::alloc::Global;

/// Adds an edge.
fn add_edge(edges: &mut Vec<Edge>, from: u32, to: u32) -> Result<(), OutOfMemory>
    ensures { OnOk result (edges.new.items ≡ edges.old.items ++ record { from = from; to = to } ∷ []) }
{
    match edges.push(Edge { from, to }) {
        Ok(()) => Ok(()),
        Err(_) => Err(OutOfMemory),
    }
}

/// Adds an edge to the block of each case of a switch.
fn add_cases(edges: &mut Vec<Edge>, from: u32, cases: &[(u32, u32)]) -> Result<(), OutOfMemory>
    ensures { OnOk result (edges.new.items ≡ edges.old.items ++ edges_to from (map (λ c. c.1) cases.now)) }
{
    for case in cases {
        add_edge(edges, from, case.1)?;
    }
    Ok(())
}

/// Adds an edge to each target of a terminator.
fn add_targets(edges: &mut Vec<Edge>, from: u32, term: &Term) -> Result<(), OutOfMemory>
    ensures { OnOk result (edges.new.items ≡ edges.old.items ++ edges_to from (targets term.now)) }
{
    match term {
        Term::Ret | Term::Unreachable => Ok(()),
        Term::Go(to) => add_edge(edges, from, *to),
        Term::If { yes, no, .. } => {
            add_edge(edges, from, *yes)?;
            add_edge(edges, from, *no)
        }
        Term::Switch { default, cases, .. } => {
            add_edge(edges, from, *default)?;
            add_cases(edges, from, cases.as_slice())
        }
    }
}

/// The edges of all blocks, in order.
fn block_edges(alloc: Global, blocks: &[Block]) -> Result<Vec<Edge>, OutOfMemory>
    requires { length blocks.now < 2 ^ 32 }
    ensures { IfOk result (λ edges. edges.items ≡ edges_on 0 blocks.now) }
{
    let mut edges = Vec::new(alloc);
    for b in 0..blocks.len() {
        add_targets(&mut edges, b as u32, &blocks[b].term)?;
    }
    Ok(edges)
}

/// The branches of all blocks, reachable or not, in order.
pub fn declared_edges(alloc: Global, p: &Program) -> Result<Vec<Edge>, OutOfMemory>
    requires { Sound p.now }
    ensures items { IfOk result (λ edges. edges.items ≡ edges_on 0 p.now.blocks) }
    ensures few { IfOk result (λ edges. length edges.items ≤ MAX_EDGES) }
    ensures within { IfOk result (λ edges. Within (length p.now.blocks) edges.items) }
{
    block_edges(alloc, p.blocks.as_slice())
}

/// Marks the nodes of a graph that paths from node 0 reach.
fn reached_marks(alloc: Global, count: usize, edges: &[Edge]) -> Result<Vec<bool>, OutOfMemory>
    requires some { 0 < count }
    requires nodes { count ≤ MAX_NODES }
    requires edges { length edges.now ≤ MAX_EDGES }
    requires within { Within count edges.now }
    ensures len { IfOk result (λ marks. length marks.items ≡ count) }
    ensures exact { IfOk result (λ marks. MarksFromStart (given count edges.now) marks.items) }
{
    let mut graph = Graph::new(alloc, count as u32, edges)?;
    let mut marks = match vec![in alloc; false; count] {
        Ok(marks) => marks,
        Err(_) => return Err(OutOfMemory),
    };
    graph.mark_reached(0, None, &mut marks);
    marks[0] = true;
    Ok(marks)
}

/// The places of the marks, in order.
fn marked(alloc: Global, marks: &[bool]) -> Result<Numbers, OutOfMemory>
    requires { length marks.now < 2 ^ 32 }
    ensures { IfOk result (λ numbers. AreMarked marks.now (length marks.now) numbers) }
{
    let mut numbers: Numbers = List::new(alloc);
    for i in 0..marks.len() {
        if marks[i] && numbers.push(i as u32).is_err() {
            return Err(OutOfMemory);
        }
    }
    Ok(numbers)
}

/// The blocks that paths from block 0 reach, by rising number.
pub fn reachable(alloc: Global, p: &Program) -> Result<Numbers, OutOfMemory>
    requires { Sound p.now }
    ensures { IfOk result (λ blocks. AreReachable p.now blocks) }
{
    let edges = declared_edges(alloc, p)?;
    let marks = reached_marks(alloc, p.blocks.len(), &edges)?;
    marked(alloc, &marks)
}

/// A leaf for each block, in order.
pub fn leaves(alloc: Global, blocks: &[u32]) -> Result<RegionList, OutOfMemory>
    ensures { IfOk result (λ list. list ≡ leaves_of blocks.now) }
{
    let mut list: RegionList = List::new(alloc);
    for block in blocks {
        if list.push(Region::Leaf { block: *block }).is_err() {
            return Err(OutOfMemory);
        }
    }
    Ok(list)
}

/// Each block with its place in the list of leaves.
pub fn leaf_roots(alloc: Global, blocks: &[u32]) -> Result<Cases, OutOfMemory>
    requires { length blocks.now < 2 ^ 32 }
    ensures { IfOk result (λ roots. roots ≡ placed_from 0 blocks.now) }
{
    let mut roots: Cases = List::new(alloc);
    for i in 0..blocks.len() {
        if roots.push((blocks[i], i as u32)).is_err() {
            return Err(OutOfMemory);
        }
    }
    Ok(roots)
}
