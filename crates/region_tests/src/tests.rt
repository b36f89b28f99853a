use crate::follow::{first_leaf, leaf_of, next_leaf, parents};
use crate::graphs::{lists, random, reached};
use crate::nesting::nested;
use crate::show::show;
use crate::wired::fits;
use dispatch_loop::all;
use dxil_form::{Region, Regions};
use plain_programs::plain_program;
use std::alloc::Global;
use std::process::Abort;
use std::test::Fail;

/// The nested regions of a graph.
fn regions_of(rt: &impl Abort, alloc: Global, targets: &[Vec<u32>]) -> Result<Regions, Fail> {
    match plain_program(alloc, targets)? {
        None => panic!(rt; "no program"),
        Some(p) => {
            assert!(rt; p.blocks.len() <= 400);
            Ok(nested(alloc, &p)?)
        }
    }
}

#[test]
fn small_graphs(rt: HostRuntime) -> Result<(), Fail> {
    let alloc = rt.alloc();
    let table: [(&[&[u32]], &str); 14] = [
        (&[&[]], "0"),
        (&[&[1, 2], &[], &[]], "{0|1 2}"),
        (&[&[1, 2], &[3], &[3], &[]], "({0|1 2}>3)"),
        (&[&[1, 2, 3], &[4], &[4], &[4], &[]], "({0|1 2 3}>4)"),
        (&[&[1], &[2], &[]], "{0|{1|2}}"),
        // blocks that branch to themselves, and a ring of two
        (&[&[1], &[1, 2], &[]], "(0>([1]>2))"),
        (&[&[1], &[1, 2], &[2, 3], &[]], "(0>([1]>([2]>3)))"),
        (&[&[1], &[2], &[1, 3], &[]], "(0>([{1|2}]>3))"),
        // a ring with two entrances, without and with an exit
        (&[&[1, 2], &[2], &[1]], "<0 1 2>"),
        (&[&[1, 2], &[2], &[1, 3], &[]], "<0 1 {2|3}>"),
        // two nested rings with an exit
        (
            &[&[1], &[2, 4], &[3], &[2, 1], &[]],
            "(0>([(1>[{2|3}])]>4))",
        ),
        // a ring of four blocks with exits
        (
            &[&[1], &[2, 5], &[3, 6], &[4, 1], &[1, 5], &[], &[]],
            "(0>(([{1|{2|{3|4}}}]>5)>6))",
        ),
        // a block that is not reached
        (&[&[2], &[2], &[]], "{0|2}"),
        // doubled edges count once
        (&[&[1, 1], &[2, 2], &[]], "{0|{1|2}}"),
    ];
    for (targets, want) in table {
        let regions = regions_of(&rt, alloc, &lists(alloc, targets)?)?;
        assert_eq!(rt; show(alloc, regions.list.as_slice())?.as_str(), want);
    }
    Ok(())
}

/// Checks one place: it fits, and each but the last is named once, by a later region.
fn check_place(
    rt: &impl Abort,
    alloc: Global,
    targets: &[Vec<u32>],
    marks: &[bool],
    list: &[Region],
    place: u32,
) -> Result<(), Fail> {
    assert!(rt; fits(targets, marks, list, place));
    let up = parents(alloc, list, place)?;
    if place as usize + 1 < list.len() {
        assert_eq!(rt; up.len(), 1);
        assert!(rt; up.first() > Some(&place));
    } else {
        assert!(rt; up.is_empty());
    }
    Ok(())
}

/// Checks one block: it is a leaf once if it is reached, and each of its branches leads to the leaf of its target.
fn check_block(
    rt: &impl Abort,
    alloc: Global,
    targets: &[u32],
    reached: bool,
    list: &[Region],
    block: u32,
) -> Result<(), Fail> {
    let leaves = leaf_of(alloc, list, block)?;
    assert_eq!(rt; leaves.len(), if reached { 1 } else { 0 });
    if let Some(leaf) = leaves.first() {
        for to in targets {
            let next = next_leaf(alloc, list, *leaf, *to)?;
            assert!(rt; next.is_some());
            assert_eq!(rt; next, leaf_of(alloc, list, *to)?.first().copied());
        }
    }
    Ok(())
}

/// Checks that regions are one tree over the reached blocks, and that each walk of the blocks is one of the regions.
fn check(
    rt: &impl Abort,
    alloc: Global,
    targets: &[Vec<u32>],
    list: &[Region],
) -> Result<(), Fail> {
    let marks = reached(alloc, targets)?;
    let mut place: u32 = 0;
    for _ in list {
        check_place(rt, alloc, targets, &marks, list, place)?;
        place = place.wrapping_add(1);
    }
    let mut b: u32 = 0;
    for to in targets {
        let mark = marks.get(b as usize) == Some(&true);
        check_block(rt, alloc, to.as_slice(), mark, list, b)?;
        b = b.wrapping_add(1);
    }
    let start = first_leaf(list, place.wrapping_sub(1));
    assert!(rt; start.is_some());
    assert_eq!(rt; start, leaf_of(alloc, list, 0)?.first().copied());
    Ok(())
}

#[test]
fn random_graphs(rt: HostRuntime) -> Result<(), Fail> {
    let alloc = rt.alloc();
    let mut state = 1;
    for _ in 0..1000 {
        let targets = random(alloc, &mut state)?;
        let regions = regions_of(&rt, alloc, &targets)?;
        check(&rt, alloc, &targets, regions.list.as_slice())?;
    }
    Ok(())
}

/// Blocks that each branch to the next one, and, if it is not 0, to one more; the last one returns.
fn chain(alloc: Global, count: u32, more: u32) -> Result<Vec<Vec<u32>>, Fail> {
    let mut targets = Vec::new(alloc);
    for b in 0..count {
        let mut list = Vec::new(alloc);
        if b.wrapping_add(1) < count {
            list.push(b.wrapping_add(1))?;
            if more > 0 {
                list.push(more)?;
            }
        }
        targets.push(list)?;
    }
    Ok(targets)
}

/// How many of the regions go on with a second part.
fn seconds(list: &[Region]) -> usize {
    let mut count: usize = 0;
    for region in list {
        if matches!(region, Region::Then { .. }) {
            count = count.saturating_add(1);
        }
    }
    count
}

#[test]
fn chains_of_400_blocks(rt: HostRuntime) -> Result<(), Fail> {
    let alloc = rt.alloc();
    // in the first no block has two edges into it, and in the second the last one alone
    for (more, want) in [(0, 0), (399, 1)] {
        let targets = chain(alloc, 400, more)?;
        let regions = regions_of(&rt, alloc, &targets)?;
        let list = regions.list.as_slice();
        check(&rt, alloc, &targets, list)?;
        assert_eq!(rt; seconds(list), want);
        for region in list {
            assert!(rt; !matches!(region, Region::Loop { .. } | Region::Dispatch { .. }));
        }
    }
    Ok(())
}

#[test]
fn one_dispatch_over_all_blocks(rt: HostRuntime) -> Result<(), Fail> {
    let alloc = rt.alloc();
    let table: [(&[&[u32]], &str); 3] = [
        (&[&[]], "0"),
        (&[&[1, 2], &[2], &[]], "<0 1 2>"),
        // a block that is not reached
        (&[&[2], &[2], &[]], "<0 2>"),
    ];
    for (targets, want) in table {
        match plain_program(alloc, &lists(alloc, targets)?)? {
            None => panic!(rt; "no program"),
            Some(p) => {
                let regions = all(alloc, &p)?;
                assert_eq!(rt; show(alloc, regions.list.as_slice())?.as_str(), want);
            }
        }
    }
    Ok(())
}
