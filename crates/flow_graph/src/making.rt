//! The cells and lists of a list of edges.
//!
//! The edges are grouped by source. Then those of one source are seen in a row, so that one mark for each target tells which is doubled.

ghost use Rattle.std.specs.Prelude.{◌≡◌, ◌<◌, ◌+◌, ◌^◌, ℕ, length, replicate, true, false, None, IfOk};
ghost use Rattle.flow_graph.specs.Links.{no_cell, cell_at, first_of};
ghost use Rattle.flow_graph.specs.Given.{Within, Grouped, chosen_at, Chosen, IsChoice, Placed};

use crate::cells::Cell;
use crate::linked::Edge;
use dx_base::OutOfMemory;
use std::alloc::Global;

/// As many links to nowhere.
pub(crate) fn no_links(alloc: Global, count: usize) -> Result<Vec<Option<u32>>, OutOfMemory>
    ensures items { IfOk result (λ v. v.items ≡ replicate count None) }
    ensures len { IfOk result (λ v. length v.items ≡ count) }
{
    match vec![in alloc; None; count] {
        Ok(links) => Ok(links),
        Err(_) => Err(OutOfMemory),
    }
}

/// As many marks, which are all alike.
pub(crate) fn same_marks(alloc: Global, mark: bool, count: usize) -> Result<Vec<bool>, OutOfMemory>
    ensures items { IfOk result (λ v. v.items ≡ replicate count mark) }
    ensures len { IfOk result (λ v. length v.items ≡ count) }
{
    match vec![in alloc; mark; count] {
        Ok(marks) => Ok(marks),
        Err(_) => Err(OutOfMemory),
    }
}

/// As many places for nodes.
pub(crate) fn no_nodes(alloc: Global, count: usize) -> Result<Vec<u32>, OutOfMemory>
    ensures { IfOk result (λ v. length v.items ≡ count) }
{
    match vec![in alloc; 0; count] {
        Ok(nodes) => Ok(nodes),
        Err(_) => Err(OutOfMemory),
    }
}

/// As many cells that aren't used.
pub(crate) fn no_cells(alloc: Global, count: usize) -> Result<Vec<Cell>, OutOfMemory>
    ensures items { IfOk result (λ v. v.items ≡ replicate count no_cell) }
    ensures len { IfOk result (λ v. length v.items ≡ count) }
{
    let cell = Cell {
        from: 0,
        to: 0,
        used: false,
        next_from: None,
        next_to: None,
    };
    match vec![in alloc; cell; count] {
        Ok(cells) => Ok(cells),
        Err(_) => Err(OutOfMemory),
    }
}

/// Makes a list of the places of its edges for each source.
fn group(edges: &[Edge], first: &mut [Option<u32>], next: &mut [Option<u32>])
    requires edges { length edges.now < 2 ^ 32 }
    requires within { Within (length first.old) edges.now }
    requires empty { (a : ℕ) → first_of first.old a ≡ None }
    requires places { length next.old ≡ length edges.now }
    ensures { Grouped edges.now first.new next.new }
{
    for i in 0..edges.len() {
        let from = edges[i].from as usize;
        next[i] = first[from];
        first[from] = Some(i as u32);
    }
}

/// Chooses one of each kind of edges from the source `a`.
fn choose_from(
    edges: &[Edge],
    first: &[Option<u32>],
    next: &[Option<u32>],
    a: u32,
    seen: &mut [Option<u32>],
    chosen: &mut [bool],
)
    requires a { a < length first.now }
    requires within { Within (length seen.old) edges.now }
    requires grouped { Grouped edges.now first.now next.now }
    requires next { length next.now ≡ length edges.now }
    requires places { length chosen.old ≡ length edges.now }
    requires before { Chosen edges.now a seen.old chosen.old }
    ensures { Chosen edges.now (a + 1) seen.new chosen.new }
{
    let mut at = first[a as usize];
    while let Some(i) = at {
        let to = edges[i as usize].to as usize;
        if seen[to] != Some(a) {
            seen[to] = Some(a);
            chosen[i as usize] = true;
        }
        at = next[i as usize];
    }
}

/// Chooses one of each kind of edges.
fn choose(
    edges: &[Edge],
    first: &[Option<u32>],
    next: &[Option<u32>],
    seen: &mut [Option<u32>],
    chosen: &mut [bool],
)
    requires nodes { length first.now < 2 ^ 32 }
    requires within { Within (length seen.old) edges.now }
    requires grouped { Grouped edges.now first.now next.now }
    requires next { length next.now ≡ length edges.now }
    requires places { length chosen.old ≡ length edges.now }
    requires none_seen { (y : ℕ) → first_of seen.old y ≡ None }
    requires none_chosen { (i : ℕ) → chosen_at chosen.old i ≡ false }
    ensures { Chosen edges.now (length first.now) seen.new chosen.new }
{
    for a in 0..first.len() {
        choose_from(edges, first, next, a as u32, seen, chosen);
    }
}

/// Tells of each place whether its edge is chosen of its kind. The scratch is given back.
pub(crate) fn chosen_edges(
    alloc: Global,
    count: usize,
    edges: &[Edge],
) -> Result<Vec<bool>, OutOfMemory>
    requires nodes { count < 2 ^ 32 }
    requires edges { length edges.now < 2 ^ 32 }
    requires within { Within count edges.now }
    ensures { IfOk result (λ v. IsChoice edges.now v.items) }
{
    let mut first = no_links(alloc, count)?;
    let mut next = no_links(alloc, edges.len())?;
    let mut seen = no_links(alloc, count)?;
    let mut chosen = same_marks(alloc, false, edges.len())?;
    group(edges, &mut first, &mut next);
    choose(edges, &first, &next, &mut seen, &mut chosen);
    Ok(chosen)
}

/// Puts the edge at place `i` into the cell there, as the first of its lists, if it is chosen.
fn place(
    edges: &[Edge],
    chosen: &[bool],
    i: usize,
    cells: &mut [Cell],
    first_from: &mut [Option<u32>],
    first_to: &mut [Option<u32>],
)
    requires edges { length edges.now < 2 ^ 32 }
    requires i { i < length edges.now }
    requires within { Within (length first_from.old) edges.now }
    requires nodes { length first_to.old ≡ length first_from.old }
    requires cells { length cells.old ≡ length edges.now }
    requires chosen { length chosen.now ≡ length edges.now }
    requires before { Placed edges.now chosen.now i cells.old first_from.old first_to.old }
    ensures { Placed edges.now chosen.now (i + 1) cells.new first_from.new first_to.new }
{
    if !chosen[i] {
        return;
    }
    let edge = edges[i];
    cells[i] = Cell {
        from: edge.from,
        to: edge.to,
        used: true,
        next_from: first_from[edge.from as usize],
        next_to: first_to[edge.to as usize],
    };
    first_from[edge.from as usize] = Some(i as u32);
    first_to[edge.to as usize] = Some(i as u32);
}

/// Puts the chosen edges into cells and lists.
pub(crate) fn link(
    edges: &[Edge],
    chosen: &[bool],
    cells: &mut [Cell],
    first_from: &mut [Option<u32>],
    first_to: &mut [Option<u32>],
)
    requires edges { length edges.now < 2 ^ 32 }
    requires within { Within (length first_from.old) edges.now }
    requires nodes { length first_to.old ≡ length first_from.old }
    requires cells { length cells.old ≡ length edges.now }
    requires chosen { length chosen.now ≡ length edges.now }
    requires unused { (c : ℕ) → (cell_at cells.old c).used ≡ false }
    requires none_from { (a : ℕ) → first_of first_from.old a ≡ None }
    requires none_to { (a : ℕ) → first_of first_to.old a ≡ None }
    ensures { Placed edges.now chosen.now (length edges.now) cells.new first_from.new first_to.new }
{
    for i in 0..edges.len() {
        place(edges, chosen, i, cells, first_from, first_to);
    }
}
