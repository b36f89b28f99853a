//! Graphs as lists of targets.

use std::alloc::Global;
use std::test::Fail;

/// Targets as vectors.
pub fn lists(alloc: Global, targets: &[&[u32]]) -> Result<Vec<Vec<u32>>, Fail> {
    let mut all = Vec::new(alloc);
    for list in targets {
        let mut copy = Vec::new(alloc);
        for target in *list {
            copy.push(*target)?;
        }
        all.push(copy)?;
    }
    Ok(all)
}

/// The next of a row of numbers that look random.
pub fn next(state: &mut u32) -> u32 {
    *state = state.wrapping_mul(1_664_525).wrapping_add(1_013_904_223);
    *state >> 8
}

/// A number below a bound that is not 0, and 0 below 0.
fn below(state: &mut u32, bound: u32) -> u32 {
    match next(state).checked_rem(bound) {
        Some(n) => n,
        None => 0,
    }
}

/// Adds a target to the list of a block, unless it has 8 or the target is block 0.
fn add(lists: &mut Vec<Vec<u32>>, from: u32, to: u32) -> Result<(), Fail> {
    if let Some(list) = lists.get_mut(from as usize) {
        if to > 0 && list.len() < 8 {
            list.push(to)?;
        }
    }
    Ok(())
}

/// A graph of at most 40 blocks: some edges forwards and some backwards.
pub fn random(alloc: Global, state: &mut u32) -> Result<Vec<Vec<u32>>, Fail> {
    let count = below(state, 40).wrapping_add(1);
    let mut lists = Vec::new(alloc);
    for _ in 0..count {
        lists.push(Vec::new(alloc))?;
    }
    for to in 1..count {
        let from = below(state, to);
        add(&mut lists, from, to)?;
    }
    for _ in 0..below(state, count.wrapping_add(3)) {
        let from = below(state, count);
        let to = below(state, count);
        let forwards = below(state, 4) > 0;
        if forwards == (from < to) {
            add(&mut lists, from, to)?;
        }
    }
    Ok(lists)
}

/// Marks the blocks that paths from block 0 reach.
pub fn reached(alloc: Global, lists: &[Vec<u32>]) -> Result<Vec<bool>, Fail> {
    let mut marks = vec![in alloc; false; lists.len()]?;
    if let Some(mark) = marks.get_mut(0) {
        *mark = true;
    }
    for _ in 0..lists.len() {
        for (from, list) in lists.iter().enumerate() {
            if marks.get(from) == Some(&true) {
                mark_all(&mut marks, list);
            }
        }
    }
    Ok(marks)
}

/// Marks each target.
fn mark_all(marks: &mut [bool], list: &[u32]) {
    for to in list {
        if let Some(mark) = marks.get_mut(*to as usize) {
            *mark = true;
        }
    }
}
