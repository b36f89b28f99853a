ghost use Rattle.std.specs.Prelude.{◌≡◌, ◌≢◌, ◌<◌, ◌≤◌, IfOk};

use flow_graph::{Edge, Graph, MAX_EDGES, MAX_NODES};
use std::alloc::Global;
use std::process::Abort;
use std::test::Fail;

fn graph_of(rt: &impl Abort, alloc: Global, count: u32, pairs: &[(u32, u32)]) -> Result<Graph, Fail>
    requires some { 0 < count }
    requires most { count ≤ MAX_NODES }
    ensures { IfOk result (λ g. g.count ≡ count) }
{
    let mut edges = Vec::new(alloc);
    for (from, to) in pairs {
        assert!(rt; *from < count && *to < count && edges.len() < MAX_EDGES);
        edges.push(Edge {
            from: *from,
            to: *to,
        })?;
    }
    Ok(Graph::new(alloc, count, &edges)?)
}

fn live_nodes(alloc: Global, graph: &Graph, count: u32) -> Result<Vec<u32>, Fail>
    requires { graph.now.count ≡ count }
{
    let mut nodes = Vec::new(alloc);
    for a in 0..count {
        if graph.is_live(a) {
            nodes.push(a)?;
        }
    }
    Ok(nodes)
}

fn edges_of(alloc: Global, graph: &Graph, count: u32) -> Result<Vec<(u32, u32)>, Fail>
    requires { graph.now.count ≡ count }
{
    let mut edges = Vec::new(alloc);
    for a in 0..count {
        for b in 0..count {
            if graph.is_live(a) && graph.has_edge(a, b) {
                edges.push((a, b))?;
            }
        }
    }
    Ok(edges)
}

fn pred_of(rt: &impl Abort, graph: &Graph, j: u32) -> Option<u32>
    requires { j < graph.now.count }
{
    assert!(rt; graph.is_live(j));
    graph.sole_pred(j)
}

fn fold_at(rt: &impl Abort, graph: &mut Graph, a: u32) -> bool
    requires { a < graph.old.count }
    ensures { graph.new.count ≡ graph.old.count }
{
    assert!(rt; graph.is_live(a));
    graph.fold(a)
}

fn is_stuck_at(rt: &impl Abort, graph: &mut Graph, j: u32) -> bool
    requires { j < graph.old.count }
    ensures { graph.new.count ≡ graph.old.count }
{
    !fold_at(rt, graph, j) && pred_of(rt, graph, j).is_none()
}

fn absorb_at(rt: &impl Abort, graph: &mut Graph, j: u32)
    requires inside { j < graph.old.count }
    requires other { j ≢ 0 }
    ensures { graph.new.count ≡ graph.old.count }
{
    assert!(rt; graph.is_live(j));
    match graph.sole_pred(j) {
        Some(a) => graph.absorb(a, j),
        None => panic!(rt; "{j} has no sole predecessor"),
    }
}

fn walks_to(rt: &impl Abort, graph: &mut Graph, from: u32, to: u32, without: Option<u32>) -> bool
    requires from { from < graph.old.count }
    requires to { to < graph.old.count }
    ensures { graph.new.count ≡ graph.old.count }
{
    assert!(rt; graph.is_live(from));
    assert!(rt; graph.is_live(to));
    graph.reaches(from, to, without)
}

fn rings_at(rt: &impl Abort, graph: &mut Graph, a: u32) -> bool
    requires { a < graph.old.count }
    ensures { graph.new.count ≡ graph.old.count }
{
    assert!(rt; graph.is_live(a));
    graph.on_ring(a)
}

#[test]
fn a_self_edge_hides_a_sole_predecessor(rt: HostRuntime) -> Result<(), Fail> {
    let mut graph = graph_of(&rt, rt.alloc(), 3, &[(0, 1), (1, 1), (1, 2)])?;
    assert_eq!(rt; pred_of(&rt, &graph, 1), None);
    assert!(rt; fold_at(&rt, &mut graph, 1));
    assert!(rt; !fold_at(&rt, &mut graph, 1));
    assert_eq!(rt; pred_of(&rt, &graph, 1), Some(0));
    absorb_at(&rt, &mut graph, 1);
    assert_eq!(rt;
        edges_of(rt.alloc(), &graph, 3)?.as_slice(),
        [(0, 2)].as_slice()
    );
    assert_eq!(rt; pred_of(&rt, &graph, 2), Some(0));
    Ok(())
}

#[test]
fn a_ring_with_two_entrances_is_stuck(rt: HostRuntime) -> Result<(), Fail> {
    let mut graph = graph_of(
        &rt,
        rt.alloc(),
        4,
        &[(0, 1), (0, 2), (1, 2), (2, 1), (2, 3)],
    )?;
    for (j, want) in [(0, None), (1, None), (2, None), (3, Some(2))] {
        assert!(rt; j < 4);
        assert_eq!(rt; pred_of(&rt, &graph, j), want, "at {j}");
    }
    absorb_at(&rt, &mut graph, 3);
    assert_eq!(rt;
        live_nodes(rt.alloc(), &graph, 4)?.as_slice(),
        [0, 1, 2].as_slice()
    );
    assert!(rt; is_stuck_at(&rt, &mut graph, 0));
    assert!(rt; is_stuck_at(&rt, &mut graph, 1));
    assert!(rt; is_stuck_at(&rt, &mut graph, 2));
    assert!(rt; rings_at(&rt, &mut graph, 1));
    assert!(rt; !walks_to(&rt, &mut graph, 1, 1, Some(2)));
    assert!(rt; walks_to(&rt, &mut graph, 1, 2, Some(0)));
    assert!(rt; !walks_to(&rt, &mut graph, 0, 0, None));
    assert!(rt; !walks_to(&rt, &mut graph, 1, 2, Some(1)));
    Ok(())
}

fn chain(alloc: Global, count: u32) -> Result<Vec<(u32, u32)>, Fail> {
    let mut pairs = Vec::new(alloc);
    for i in 1..count {
        pairs.push((i - 1, i))?;
    }
    Ok(pairs)
}

fn complete(alloc: Global, count: u32) -> Result<Vec<(u32, u32)>, Fail> {
    let mut pairs = Vec::new(alloc);
    for a in 0..count {
        for b in 0..count {
            pairs.push((a, b))?;
        }
    }
    Ok(pairs)
}

/// Folds and absorbs each node in turn, as often as there are rounds.
fn reduce(graph: &mut Graph, count: u32, rounds: u32)
    requires { graph.old.count ≡ count }
    ensures { graph.new.count ≡ count }
{
    for _ in 0..rounds {
        for j in 0..count {
            step(graph, j);
        }
    }
}

fn step(graph: &mut Graph, j: u32)
    requires { j < graph.old.count }
    ensures { graph.new.count ≡ graph.old.count }
{
    if !graph.is_live(j) {
        return;
    }
    graph.fold(j);
    if j == 0 || !graph.is_live(j) {
        return;
    }
    if let Some(a) = graph.sole_pred(j) {
        graph.absorb(a, j);
    }
}

/// The nodes that are left of a graph, and how many of them a walk from node 0 marks.
fn rest_of(
    rt: &impl Abort,
    alloc: Global,
    count: u32,
    pairs: &[(u32, u32)],
    rounds: u32,
) -> Result<(usize, usize), Fail>
    requires some { 0 < count }
    requires most { count ≤ MAX_NODES }
{
    let mut graph = graph_of(rt, alloc, count, pairs)?;
    reduce(&mut graph, count, rounds);
    let mut marks = vec![in alloc; true; count as usize]?;
    assert!(rt; graph.is_live(0));
    graph.mark_reached(0, None, &mut marks);
    let left = live_nodes(alloc, &graph, count)?;
    Ok((left.len(), marks.iter().filter(|m| **m).count()))
}

#[test]
fn graphs_reduce_to_these_many_nodes(rt: HostRuntime) -> Result<(), Fail> {
    let alloc = rt.alloc();
    let long = chain(alloc, 8192)?;
    let dense = complete(alloc, 300)?;
    let cases = [
        (1, [].as_slice(), (1, 0)),
        (1, [(0, 0)].as_slice(), (1, 0)),
        (2, [(0, 1), (1, 0), (0, 1)].as_slice(), (1, 0)),
        (3, [(0, 1), (1, 2), (2, 0), (2, 1)].as_slice(), (1, 0)),
        (4, [(0, 1), (2, 3), (3, 2)].as_slice(), (2, 0)),
        (8192, long.as_slice(), (1, 0)),
        (300, dense.as_slice(), (300, 300)),
    ];
    for (count, pairs, want) in cases {
        assert!(rt; 0 < count && count <= MAX_NODES);
        assert_eq!(rt;
            rest_of(&rt, alloc, count, pairs, 3)?,
            want,
            "of {count} nodes"
        );
    }
    Ok(())
}
