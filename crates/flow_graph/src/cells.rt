//! Edges in the cells of one vector, each in the list of its source and in the list of its target.

ghost use Rattle.std.specs.Prelude.{◌≡◌, ◌≢◌, ◌<◌, ◌↔◌, ℕ, length, true, false, IsTrue};
ghost use Rattle.std.specs.Option.{IfSome, IfNone, MatchOption};
ghost use Rattle.flow_graph.specs.Links.{IsLast, IsAbove, leaves, enters, cell_at, FromLists, FromListsBut, ToLists, ToListsBut, Joining, Sound};
ghost use Rattle.flow_graph.specs.Changes.{SameButFrom, SameButTo, Without, Relabelled, Ended, Between, Merged};
ghost use Rattle.flow_graph.specs.Walked.{marked};

use crate::walks::{mark_targets, unmark_targets};

/// An edge, with the next edge of its source and the next edge of its target.
#[derive(Clone, Copy, Drop)]
pub(crate) struct Cell {
    pub(crate) from: u32,
    pub(crate) to: u32,
    pub(crate) used: bool,
    pub(crate) next_from: Option<u32>,
    pub(crate) next_to: Option<u32>,
}

/// The edge from `from` to `to`.
pub(crate) fn find_edge(cells: &[Cell], first: &[Option<u32>], from: u32, to: u32) -> Option<u32>
    requires from { from < length first.now }
    requires lists { FromLists cells.now first.now }
    ensures found { IfSome result (λ c. (c < length cells.now) × (leaves cells.now from c ≡ true) × ((cell_at cells.now c).to ≡ to)) }
    ensures none { IfNone result ((c : ℕ) → c < length cells.now → leaves cells.now from c ≡ true → (cell_at cells.now c).to ≢ to) }
{
    let mut at = first[from as usize];
    while let Some(c) = at {
        let cell = &cells[c as usize];
        if cell.to == to {
            return at;
        }
        at = cell.next_from;
    }
    None
}

/// Where a walk down the list of `from` goes on below an edge of it, or where it begins.
fn walk_from(cells: &[Cell], first: &[Option<u32>], from: u32, below: Option<u32>) -> Option<u32>
    requires from { from < length first.now }
    requires lists { FromLists cells.now first.now }
    requires below { IfSome below (λ p. (p < length cells.now) × (leaves cells.now from p ≡ true)) }
    ensures { MatchOption below (IsLast (leaves cells.now from) (length cells.now) result) (λ p. IsLast (leaves cells.now from) p result) }
{
    match below {
        Some(p) => cells[p as usize].next_from,
        None => first[from as usize],
    }
}

/// The least edge from `from` above the place `c`. The search begins at `hint`, which is such an edge, if there is one.
pub(crate) fn above_from(
    cells: &[Cell],
    first: &[Option<u32>],
    from: u32,
    hint: Option<u32>,
    c: u32,
) -> Option<u32>
    requires c { c < length cells.now }
    requires from { from < length first.now }
    requires lists { FromLists cells.now first.now }
    requires hint { IfSome hint (λ p. (p < length cells.now) × (leaves cells.now from p ≡ true)) }
    requires above { IfSome hint (λ p. c < p) }
    ensures { IsAbove (leaves cells.now from) (length cells.now) c result }
{
    let mut at = walk_from(cells, first, from, hint);
    let mut best = hint;
    while let Some(p) = at {
        if p <= c {
            return best;
        }
        best = at;
        at = cells[p as usize].next_from;
    }
    best
}

/// Takes the edge `c` out of the list of its source.
pub(crate) fn cut_from(cells: &mut [Cell], first: &mut [Option<u32>], c: u32)
    requires c { c < length cells.old }
    requires used { (cell_at cells.old c).used ≡ true }
    requires from { (cell_at cells.old c).from < length first.old }
    requires lists { FromLists cells.old first.old }
    ensures same { SameButFrom cells.old cells.new }
    ensures count { length first.new ≡ length first.old }
    ensures lists { FromListsBut c cells.new first.new }
{
    let from = cells[c as usize].from;
    let next = cells[c as usize].next_from;
    match above_from(cells, first, from, None, c) {
        Some(p) => cells[p as usize].next_from = next,
        None => first[from as usize] = next,
    }
}

/// The least edge to `to` above the place `c`.
pub(crate) fn above_to(cells: &[Cell], first: &[Option<u32>], to: u32, c: u32) -> Option<u32>
    requires c { c < length cells.now }
    requires to { to < length first.now }
    requires lists { ToLists cells.now first.now }
    ensures { IsAbove (enters cells.now to) (length cells.now) c result }
{
    let mut at = first[to as usize];
    let mut best = None;
    while let Some(p) = at {
        if p <= c {
            return best;
        }
        best = at;
        at = cells[p as usize].next_to;
    }
    best
}

/// Takes the edge `c` out of the list of its target.
pub(crate) fn cut_to(cells: &mut [Cell], first: &mut [Option<u32>], c: u32)
    requires c { c < length cells.old }
    requires used { (cell_at cells.old c).used ≡ true }
    requires to { (cell_at cells.old c).to < length first.old }
    requires lists { ToLists cells.old first.old }
    ensures same { SameButTo cells.old cells.new }
    ensures count { length first.new ≡ length first.old }
    ensures lists { ToListsBut c cells.new first.new }
{
    let to = cells[c as usize].to;
    let next = cells[c as usize].next_to;
    match above_to(cells, first, to, c) {
        Some(p) => cells[p as usize].next_to = next,
        None => first[to as usize] = next,
    }
}

/// Ends the edge `c`.
pub(crate) fn remove(
    cells: &mut [Cell],
    first_from: &mut [Option<u32>],
    first_to: &mut [Option<u32>],
    c: u32,
)
    requires c { c < length cells.old }
    requires used { (cell_at cells.old c).used ≡ true }
    requires from { (cell_at cells.old c).from < length first_from.old }
    requires to { (cell_at cells.old c).to < length first_to.old }
    requires from_lists { FromLists cells.old first_from.old }
    requires to_lists { ToLists cells.old first_to.old }
    ensures gone { Without c cells.old cells.new }
    ensures from_lists { FromLists cells.new first_from.new }
    ensures to_lists { ToLists cells.new first_to.new }
{
    cut_from(cells, first_from, c);
    cut_to(cells, first_to, c);
    cells[c as usize].used = false;
}

/// Gives the edge `c` the source `a`. The place in the list of `a` is sought from `hint` on, an edge of `a` above `c`, if there is one.
pub(crate) fn relabel(
    cells: &mut [Cell],
    first: &mut [Option<u32>],
    hint: Option<u32>,
    c: u32,
    a: u32,
)
    requires c { c < length cells.old }
    requires used { (cell_at cells.old c).used ≡ true }
    requires from { (cell_at cells.old c).from < length first.old }
    requires a { a < length first.old }
    requires other { (cell_at cells.old c).from ≢ a }
    requires hint { IfSome hint (λ p. (p < length cells.old) × (leaves cells.old a p ≡ true)) }
    requires above { IfSome hint (λ p. c < p) }
    requires lists { FromLists cells.old first.old }
    ensures same { Relabelled c a cells.old cells.new }
    ensures lists { FromLists cells.new first.new }
{
    let place = above_from(cells, first, a, hint, c);
    cut_from(cells, first, c);
    match place {
        Some(p) => {
            let next = cells[p as usize].next_from;
            cells[p as usize].next_from = Some(c);
            let cell = &mut cells[c as usize];
            cell.from = a;
            cell.next_from = next;
        }
        None => {
            let next = first[a as usize];
            first[a as usize] = Some(c);
            let cell = &mut cells[c as usize];
            cell.from = a;
            cell.next_from = next;
        }
    }
}

/// Gives each edge of `j` the source `a`, but for those that `a` has already, which end. The marks are of the targets of `a`.
///
/// Both lists are sorted, so that one pass over them merges them.
pub(crate) fn take_over(
    cells: &mut [Cell],
    first_from: &mut [Option<u32>],
    first_to: &mut [Option<u32>],
    marks: &[bool],
    a: u32,
    j: u32,
)
    requires a { a < length first_from.old }
    requires j { j < length first_from.old }
    requires apart { a ≢ j }
    requires nodes { length marks.now ≡ length first_to.old }
    requires marks { (y : ℕ) → (marked marks.now y ≡ true) ↔ Joining cells.old a y }
    requires sound { Sound cells.old first_from.old first_to.old }
    ensures sound { Sound cells.new first_from.new first_to.new }
    ensures moved { Between a j cells.old cells.new }
    ensures done { (c : ℕ) → c < length cells.new → leaves cells.new j c ≡ false }
{
    let mut hint = None;
    while let Some(c) = first_from[j as usize] {
        let to = cells[c as usize].to;
        if marks[to as usize] {
            remove(cells, first_from, first_to, c);
        } else {
            relabel(cells, first_from, hint, c, a);
            hint = Some(c);
        }
    }
}

/// Ends the edge between two nodes, and tells whether there was one.
pub(crate) fn end_edge(
    cells: &mut [Cell],
    first_from: &mut [Option<u32>],
    first_to: &mut [Option<u32>],
    from: u32,
    to: u32,
) -> bool
    requires from { from < length first_from.old }
    requires sound { Sound cells.old first_from.old first_to.old }
    ensures sound { Sound cells.new first_from.new first_to.new }
    ensures ended { Ended from to cells.old cells.new }
    ensures was { IsTrue result ↔ Joining cells.old from to }
{
    match find_edge(cells, first_from, from, to) {
        Some(c) => {
            remove(cells, first_from, first_to, c);
            true
        }
        None => false,
    }
}

/// Lets `a` stand for `j` too: the edge from `a` to `j`, which is the only one to `j`, ends, and each edge of `j` gets the source `a`.
pub(crate) fn merge(
    cells: &mut [Cell],
    first_from: &mut [Option<u32>],
    first_to: &mut [Option<u32>],
    marks: &mut [bool],
    a: u32,
    j: u32,
)
    requires a { a < length first_from.old }
    requires j { j < length first_from.old }
    requires apart { a ≢ j }
    requires nodes { length marks.old ≡ length first_to.old }
    requires clean { (b : ℕ) → marked marks.old b ≡ false }
    requires sole { (x : ℕ) → Joining cells.old x j → x ≡ a }
    requires sound { Sound cells.old first_from.old first_to.old }
    ensures sound { Sound cells.new first_from.new first_to.new }
    ensures merged { Merged a j cells.old cells.new }
    ensures clean { (b : ℕ) → marked marks.new b ≡ false }
{
    end_edge(cells, first_from, first_to, a, j);
    mark_targets(cells, first_from, marks, a);
    take_over(cells, first_from, first_to, marks, a, j);
    unmark_targets(cells, first_from, marks, a);
}

/// The node from which all edges to `j` come, if it is another than `j`.
pub(crate) fn sole_source(cells: &[Cell], first_to: &[Option<u32>], j: u32) -> Option<u32>
    requires j { j < length first_to.now }
    requires lists { ToLists cells.now first_to.now }
    requires single { (a c d : ℕ) → leaves cells.now a c ≡ true → leaves cells.now a d ≡ true → (cell_at cells.now c).to ≡ (cell_at cells.now d).to → c ≡ d }
    ensures found { IfSome result (λ a. Joining cells.now a j × a ≢ j × ((x : ℕ) → Joining cells.now x j → x ≡ a)) }
    ensures none { IfNone result ((a : ℕ) → Joining cells.now a j → a ≢ j → ((x : ℕ) → Joining cells.now x j → x ≡ a) → ⊥) }
{
    let c = first_to[j as usize]?;
    let cell = &cells[c as usize];
    match cell.next_to {
        Some(_) => None,
        None if cell.from == j => None,
        None => Some(cell.from),
    }
}
