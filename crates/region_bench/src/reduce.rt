//! The two rewrites of a linked graph, until neither applies.

ghost use Rattle.std.specs.Prelude.{◌≡◌, ◌<◌, ◌≤◌};

use flow_graph::Graph;

/// Folds a node, or lets its sole predecessor absorb it, and tells whether anything was done.
fn visit(graph: &mut Graph, j: u32) -> bool
    requires { j < graph.old.count }
    ensures { graph.new.count ≡ graph.old.count }
{
    if !graph.is_live(j) {
        return false;
    }
    let folded = graph.fold(j);
    match graph.sole_pred(j) {
        Some(a) if j > 0 => {
            graph.absorb(a, j);
            true
        }
        _ => folded,
    }
}

/// Visits each node.
fn pass(graph: &mut Graph, count: u32) -> bool
    requires { count ≤ graph.old.count }
    ensures { graph.new.count ≡ graph.old.count }
{
    let mut changed = false;
    for j in 0..count {
        if visit(graph, j) {
            changed = true;
        }
    }
    changed
}

/// Visits each node until nothing is done.
///
/// A pass that absorbs nothing leaves no edge from a node to itself, so that no two of them in a row do anything.
pub(crate) fn reduce(graph: &mut Graph, count: u32)
    requires { count ≤ graph.old.count }
    ensures { graph.new.count ≡ graph.old.count }
{
    for _ in 0..count {
        if !pass(graph, count) || !pass(graph, count) {
            break;
        }
    }
}

/// The number of the live nodes.
pub(crate) fn live_nodes(graph: &Graph, count: u32) -> usize
    requires { count ≤ graph.now.count }
{
    let mut live: usize = 0;
    for j in 0..count {
        if graph.is_live(j) {
            live = live.saturating_add(1);
        }
    }
    live
}
