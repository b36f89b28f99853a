//! The edges of a graph in rows, which are read faster than links are followed.

ghost use Rattle.std.specs.Prelude.{◌≡◌, ◌<◌, ◌++◌, ◌∷◌, [], ℕ, length, true, IfOk, OnOk};
ghost use Rattle.flow_graph.specs.Links.{cell_at, FromLists, ToLists, Joining};
ghost use Rattle.flow_graph.specs.Shapes.{joins, edges_of};
ghost use Rattle.flow_graph.specs.Rows.{AreRows, Adds, backward};

use crate::cells::Cell;
use dx_base::OutOfMemory;
use std::alloc::Global;

/// For each node the nodes at the other ends of its edges. The row of node `a` is `ends[starts[a]..starts[a + 1]]`.
#[derive(Drop)]
pub(crate) struct Rows {
    pub(crate) starts: Vec<usize>,
    pub(crate) ends: Vec<u32>,
}

/// Adds an item.
fn add<T: Copy>(list: &mut Vec<T>, item: T) -> Result<(), OutOfMemory>
    ensures { OnOk result (list.new.items ≡ list.old.items ++ item ∷ []) }
{
    match list.push(item) {
        Ok(()) => Ok(()),
        Err(_) => Err(OutOfMemory),
    }
}

/// Adds the targets of the edges from a node.
fn add_targets(
    cells: &[Cell],
    first: &[Option<u32>],
    node: usize,
    ends: &mut Vec<u32>,
) -> Result<(), OutOfMemory>
    requires node { node < length first.now }
    requires lists { FromLists cells.now first.now }
    ensures { OnOk result (Adds (λ b. Joining cells.now node b) ends.old.items ends.new.items) }
{
    let mut at = first[node];
    while let Some(c) = at {
        let cell = &cells[c as usize];
        add(ends, cell.to)?;
        at = cell.next_from;
    }
    Ok(())
}

/// Adds the sources of the edges to a node.
fn add_sources(
    cells: &[Cell],
    first: &[Option<u32>],
    node: usize,
    ends: &mut Vec<u32>,
) -> Result<(), OutOfMemory>
    requires node { node < length first.now }
    requires lists { ToLists cells.now first.now }
    ensures { OnOk result (Adds (λ b. Joining cells.now b node) ends.old.items ends.new.items) }
{
    let mut at = first[node];
    while let Some(c) = at {
        let cell = &cells[c as usize];
        add(ends, cell.from)?;
        at = cell.next_to;
    }
    Ok(())
}

/// For each node the targets of the edges from it.
pub(crate) fn target_rows(
    alloc: Global,
    cells: &[Cell],
    first: &[Option<u32>],
) -> Result<Rows, OutOfMemory>
    requires lists { FromLists cells.now first.now }
    requires targets { (c : ℕ) → (cell_at cells.now c).used ≡ true → (cell_at cells.now c).to < length first.now }
    ensures { IfOk result (λ rows. AreRows (joins (edges_of cells.now)) (length first.now) (length first.now) rows.starts.items rows.ends.items) }
{
    let mut starts = Vec::new(alloc);
    let mut ends = Vec::new(alloc);
    add(&mut starts, 0)?;
    for node in 0..first.len() {
        add_targets(cells, first, node, &mut ends)?;
        add(&mut starts, ends.len())?;
    }
    Ok(Rows { starts, ends })
}

/// For each node the sources of the edges to it.
pub(crate) fn source_rows(
    alloc: Global,
    cells: &[Cell],
    first: &[Option<u32>],
) -> Result<Rows, OutOfMemory>
    requires lists { ToLists cells.now first.now }
    requires sources { (c : ℕ) → (cell_at cells.now c).used ≡ true → (cell_at cells.now c).from < length first.now }
    ensures { IfOk result (λ rows. AreRows (backward (edges_of cells.now)) (length first.now) (length first.now) rows.starts.items rows.ends.items) }
{
    let mut starts = Vec::new(alloc);
    let mut ends = Vec::new(alloc);
    add(&mut starts, 0)?;
    for node in 0..first.len() {
        add_sources(cells, first, node, &mut ends)?;
        add(&mut starts, ends.len())?;
    }
    Ok(Rows { starts, ends })
}
