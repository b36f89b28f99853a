//! The pieces of work.

ghost use Rattle.std.specs.Prelude.{◌≤◌, length, IfOk};
ghost use Rattle.dxil_form.specs.Sound.{Sound};
ghost use Rattle.region_builder.specs.Started.{IsStarted, IsPartial};

use crate::input::{Task, Work};
use crate::reduce::{live_nodes, reduce};
use anyhow::{Result, bail};
use dispatch_loop::all;
use dx_base::OutOfMemory;
use dxil_form::Program;
use flow_graph::Graph;
use plain_programs::plain_program;
use region_builder::{Partial, build, start};
use region_leaves::declared_edges;
use std::alloc::Global;
use std::fmt;

/// Counts of what was made.
#[derive(Clone, Copy, Debug, PartialEq, Eq)]
pub(crate) enum Counts {
    /// The live nodes of a linked graph.
    Nodes(usize),
    /// Regions.
    Regions(usize),
    /// Regions, and the roots that are left.
    Partial(usize, usize),
}

impl fmt::Display for Counts {
    fn fmt<W: fmt::Write>(&self, f: &mut fmt::Formatter<W>) -> fmt::Result {
        match self {
            Counts::Nodes(live) => write!(f, "{live} live nodes"),
            Counts::Regions(regions) => write!(f, "{regions} regions"),
            Counts::Partial(regions, roots) => write!(f, "{regions} regions, {roots} roots"),
        }
    }
}

/// Makes the linked graph of a program so many times, and reduces it if that is wanted.
fn graphs(alloc: Global, p: &Program, times: u32, reduced: bool) -> Result<Counts, OutOfMemory>
    requires { Sound p.now }
{
    let edges = declared_edges(alloc, p)?;
    let count = p.blocks.len() as u32;
    let mut live = 0;
    for _ in 0..times {
        let mut graph = Graph::new(alloc, count, &edges)?;
        if reduced {
            reduce(&mut graph, count);
        }
        live = live_nodes(&graph, count);
    }
    Ok(Counts::Nodes(live))
}

/// A leaf and a root for each reachable block.
fn started(alloc: Global, p: &Program) -> Result<Partial, OutOfMemory>
    requires sound { Sound p.now }
    requires few { length p.now.blocks ≤ 400 }
    ensures { IfOk result (λ partial. IsStarted p.now partial) }
{
    start(alloc, p)
}

/// Regions that are put together as far as the rewriting of their graph leads.
fn built(alloc: Global, p: &Program) -> Result<Partial, OutOfMemory>
    requires sound { Sound p.now }
    requires few { length p.now.blocks ≤ 400 }
    ensures { IfOk result (λ left. IsPartial p.now left) }
{
    let partial = started(alloc, p)?;
    build(alloc, partial)
}

/// Makes the leaves of a program so many times, and puts them together if that is wanted.
fn partials(alloc: Global, p: &Program, times: u32, whole: bool) -> Result<Counts, OutOfMemory>
    requires sound { Sound p.now }
    requires few { length p.now.blocks ≤ 400 }
{
    let mut counts = Counts::Partial(0, 0);
    for _ in 0..times {
        let left = if whole {
            built(alloc, p)?
        } else {
            started(alloc, p)?
        };
        counts = Counts::Partial(left.list.len(), left.roots.len());
    }
    Ok(counts)
}

/// Makes one dispatch over the blocks of a program so many times.
fn dispatches(alloc: Global, p: &Program, times: u32) -> Result<Counts, OutOfMemory>
    requires { Sound p.now }
{
    let mut counts = Counts::Regions(0);
    for _ in 0..times {
        counts = Counts::Regions(all(alloc, p)?.list.len());
    }
    Ok(counts)
}

/// Does the work as often as it is wanted, on the program whose blocks branch to the targets.
pub(crate) fn repeat(alloc: Global, task: &Task) -> Result<Counts> {
    let Some(p) = plain_program(alloc, &task.targets)? else {
        bail!("no such program");
    };
    match task.work {
        Work::Graph => Ok(graphs(alloc, &p, task.times, false)?),
        Work::Reduce => Ok(graphs(alloc, &p, task.times, true)?),
        Work::All => Ok(dispatches(alloc, &p, task.times)?),
        Work::Start | Work::Build if p.blocks.len() > 400 => bail!("more than 400 blocks"),
        Work::Start => Ok(partials(alloc, &p, task.times, false)?),
        Work::Build => Ok(partials(alloc, &p, task.times, true)?),
    }
}
