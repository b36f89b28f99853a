//! The work that is asked for, as text.

use anyhow::{Context, Result, bail};
use std::alloc::Global;
use std::io::{BufRead, BufReader, Read};

/// What is done.
#[derive(Clone, Copy, Debug, PartialEq, Eq)]
pub(crate) enum Work {
    /// The linked graph is made.
    Graph,
    /// The linked graph is made and reduced until neither rewrite applies.
    Reduce,
    /// Leaves and the graph of the reachable blocks are made.
    Start,
    /// The same, and they are put together into regions.
    Build,
    /// One dispatch over all reachable blocks is made.
    All,
}

/// The work, how often it is done, and the blocks to which each block branches.
#[derive(Drop)]
pub(crate) struct Task {
    pub(crate) work: Work,
    pub(crate) times: u32,
    pub(crate) targets: Vec<Vec<u32>>,
}

/// The work of a name.
fn work_named(name: &str) -> Result<Work> {
    match name {
        "graph" => Ok(Work::Graph),
        "reduce" => Ok(Work::Reduce),
        "start" => Ok(Work::Start),
        "build" => Ok(Work::Build),
        "all" => Ok(Work::All),
        _ => bail!("no work is named {name:?}"),
    }
}

/// The numbers of a line.
fn numbers(alloc: Global, line: &str) -> Result<Vec<u32>> {
    let mut list = Vec::new(alloc);
    for word in line.split_whitespace() {
        let number = word.parse::<u32>().context("no number")?;
        list.push(number)?;
    }
    Ok(list)
}

/// A task without blocks.
fn task_of(alloc: Global, line: &str) -> Result<Task> {
    let Some((name, times)) = line.split_once(' ') else {
        bail!("the first line is the work and how often it is done");
    };
    Ok(Task {
        work: work_named(name)?,
        times: times.trim().parse::<u32>().context("no number of times")?,
        targets: Vec::new(alloc),
    })
}

/// Reads a task.
pub(crate) fn read_task<R: Read + Drop>(alloc: Global, reader: R) -> Result<Task> {
    let mut lines = BufReader::new(alloc, reader)?.lines(alloc);
    let Some(first) = lines.next() else {
        bail!("no input");
    };
    let mut task = task_of(alloc, first?.as_str())?;
    for line in lines {
        let list = numbers(alloc, line?.as_str())?;
        task.targets.push(list)?;
    }
    Ok(task)
}
