ghost use Rattle.std.specs.Prelude.{◌≡◌, ◌<◌, ◌≤◌, ◌^◌, ℕ, length, ◌++◌, replicate, None, filter_map, option_to_list, EachIndex, slice_index, List as Seq, IfOk, OnOk};
ghost use Rattle.dxil_form.specs.Sound.{Sound};
ghost use Rattle.flow_graph.specs.Given.{Within};
ghost use Rattle.region_leaves.specs.Leaves.{AreReachable};
ghost use Rattle.flow_graph.specs.Shapes.{plain};
ghost use Rattle.region_builder.specs.Started.{IsNodeGraph, IsStarted};
ghost use Rattle.region_builder.specs.Nodes.{AreNodes, node_edge};

use dx_base::{Cases, OutOfMemory};
use dxil_form::{Program, RegionList};
use flow_graph::{Edge, Graph};
use region_leaves::{declared_edges, leaf_roots, leaves, reachable};
use std::alloc::Global;

/// Regions that are put together as far as the rewriting has come.
///
/// A root is the block that enters it and its place in the list. Node i of the graph stands for the i-th reachable block, by rising number; the live nodes are
/// those of the blocks that enter roots, and an edge leads from a root to each root that it may want.
#[derive(Drop)]
pub struct Partial {
    pub list: RegionList,
    pub roots: Cases,
    pub graph: Graph,
}

/// As many blocks without nodes.
fn no_nodes(alloc: Global, count: usize) -> Result<Vec<Option<u32>>, OutOfMemory>
    ensures items { IfOk result (λ nodes. nodes.items ≡ replicate count None) }
    ensures len { IfOk result (λ nodes. length nodes.items ≡ count) }
{
    match vec![in alloc; None; count] {
        Ok(nodes) => Ok(nodes),
        Err(_) => Err(OutOfMemory),
    }
}

/// The node of each block that has one: its place in the list.
fn nodes_of(alloc: Global, count: usize, blocks: &[u32]) -> Result<Vec<Option<u32>>, OutOfMemory>
    requires few { length blocks.now < 2 ^ 32 }
    requires within { EachIndex blocks.now (λ i. slice_index blocks.now i < count) }
    requires rising { (i j : ℕ) → i < j → j < length blocks.now → slice_index blocks.now i < slice_index blocks.now j }
    ensures len { IfOk result (λ nodes. length nodes.items ≡ count) }
    ensures exact { IfOk result (λ nodes. AreNodes blocks.now (length blocks.now) nodes.items) }
{
    let mut nodes = no_nodes(alloc, count)?;
    for i in 0..blocks.len() {
        nodes[blocks[i] as usize] = Some(i as u32);
    }
    Ok(nodes)
}

/// The edge between the nodes of two blocks, if both have one.
fn rename(nodes: &[Option<u32>], edge: Edge) -> Option<Edge>
    requires from { edge.from < length nodes.now }
    requires to { edge.to < length nodes.now }
    ensures { result ≡ node_edge nodes.now edge }
{
    let from = nodes[edge.from as usize]?;
    let to = nodes[edge.to as usize]?;
    Some(Edge { from, to })
}

/// Adds an edge, if there is one.
fn add_some(edges: &mut Vec<Edge>, edge: Option<Edge>) -> Result<(), OutOfMemory>
    ensures { OnOk result (edges.new.items ≡ edges.old.items ++ option_to_list edge) }
{
    match edge {
        None => Ok(()),
        Some(edge) => match edges.push(edge) {
            Ok(()) => Ok(()),
            Err(_) => Err(OutOfMemory),
        },
    }
}

/// The edges between nodes.
fn node_edges(
    alloc: Global,
    nodes: &[Option<u32>],
    edges: &[Edge],
) -> Result<Vec<Edge>, OutOfMemory>
    requires { Within (length nodes.now) edges.now }
    ensures { IfOk result (λ renamed. renamed.items ≡ filter_map (node_edge nodes.now) edges.now) }
{
    let mut renamed = Vec::new(alloc);
    for edge in edges {
        add_some(&mut renamed, rename(nodes, *edge))?;
    }
    Ok(renamed)
}

/// The branch graph of a program, over the places of its reachable blocks.
fn node_graph(alloc: Global, p: &Program, blocks: &[u32]) -> Result<Graph, OutOfMemory>
    requires sound { Sound p.now }
    requires reachable { AreReachable p.now blocks.now }
    ensures { IfOk result (λ g. IsNodeGraph p.now blocks.now (plain g)) }
{
    let edges = declared_edges(alloc, p)?;
    let nodes = nodes_of(alloc, p.blocks.len(), blocks)?;
    let renamed = node_edges(alloc, &nodes, &edges)?;
    Graph::new(alloc, blocks.len() as u32, &renamed)
}

/// A leaf and a root for each reachable block.
pub fn start(alloc: Global, p: &Program) -> Result<Partial, OutOfMemory>
    requires sound { Sound p.now }
    requires few { (blocks : Seq ℕ) → AreReachable p.now blocks → length blocks ≤ 400 }
    ensures { IfOk result (λ partial. IsStarted p.now partial) }
{
    let blocks = reachable(alloc, p)?;
    let list = leaves(alloc, blocks.as_slice())?;
    let roots = leaf_roots(alloc, blocks.as_slice())?;
    let graph = node_graph(alloc, p, blocks.as_slice())?;
    Ok(Partial { list, roots, graph })
}
