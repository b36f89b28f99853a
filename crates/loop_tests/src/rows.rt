//! What stands in the words of branch graphs.

use crate::counts::{Counts, counts_of, depths_of};
use crate::found::{depth, entered, found, site};
use crate::graphs::{CROSSED, Lists, PLAIN};
use crate::sets::{has, is_crossed, one, reached, ring};
use dx_base::{Bytes, OutOfMemory, Words, bytes_of};
use plain_programs::plain_program;
use program_words::words_of;
use spirv_file::check_file;
use spirv_words::read_module;
use spv_form::{Module, Version};
use std::alloc::Global;
use std::process::Abort;
use std::test::Fail;

/// The most bytes that a file of the tests has.
const MOST: usize = 0x0040_0000;

fn lists(alloc: Global, targets: &[&[u32]]) -> Result<Vec<Vec<u32>>, Fail> {
    let mut all = Vec::new(alloc);
    for list in targets {
        let mut copy = Vec::new(alloc);
        for target in *list {
            copy.push(*target)?;
        }
        all.push(copy)?;
    }
    Ok(all)
}

/// The set of each block's targets.
fn sets(alloc: Global, targets: &[&[u32]]) -> Result<Vec<u32>, Fail> {
    let mut all = Vec::new(alloc);
    for list in targets {
        all.push(set_of(list))?;
    }
    Ok(all)
}

fn set_of(list: &[u32]) -> u32 {
    let mut set = 0;
    for target in list {
        set |= one(*target as usize);
    }
    set
}

fn file_of(alloc: Global, words: &Words) -> Result<Bytes, Fail> {
    match bytes_of(alloc, words) {
        Ok(bytes) => Ok(bytes),
        Err(OutOfMemory) => Err(Fail::from("no memory")),
    }
}

/// The words of a graph's program, as bytes.
fn words(alloc: Global, targets: &[Vec<u32>], version: Version) -> Result<Bytes, Fail> {
    match plain_program(alloc, targets)? {
        None => Err(Fail::from("no program")),
        Some(p) => {
            let words = words_of(alloc, &p, version)?;
            file_of(alloc, &words)
        }
    }
}

/// The module that the words read as, which `check` accepts.
fn module_of(alloc: Global, targets: &[Vec<u32>], version: Version) -> Result<Module, Fail> {
    let bytes = words(alloc, targets, version)?;
    if bytes.len() > MOST {
        return Err(Fail::from("too long"));
    }
    let Ok(module) = read_module(alloc, bytes.as_slice()) else {
        return Err(Fail::from("no module"));
    };
    match check_file(alloc, bytes) {
        Ok(()) => Ok(module),
        Err(_) => Err(Fail::from("refused by check")),
    }
}

/// Asks of each reached block for its one site in as many loops, and of each other block for none.
fn expect_depths(rt: &impl Abort, m: &Module, reached: u32, depths: &[u32]) {
    for (block, wanted) in depths.iter().enumerate() {
        let label = site(m, (block % 100) as u32);
        assert_eq!(rt; label.is_some(), has(reached, block), "{block}");
        if let Some(label) = label {
            assert_eq!(rt; depth(m, label), Some(*wanted), "{block}");
        }
    }
}

/// Asks for one loop header that branches to the site of each head, and for none that branches to another block's.
fn expect_heads(rt: &impl Abort, m: &Module, targets: &[u32]) {
    for block in 0..targets.len() {
        if let Some(label) = site(m, (block % 100) as u32) {
            let wanted = u32::from(ring(targets, block) != 0);
            assert_eq!(rt; entered(m, label), wanted, "{block}");
        }
    }
}

/// The counts of some graphs by hand: loops, switches, selections and variables, and how deep each block is.
const ROWS: [(Lists, [u32; 4], &'static [u32]); 10] = [
    (&[&[]], [0, 0, 0, 0], &[0]),
    (&[&[1, 2], &[], &[]], [0, 0, 1, 0], &[0, 0, 0]),
    (&[&[1, 1], &[]], [0, 0, 0, 0], &[0, 0]),
    (&[&[1, 2], &[3], &[3], &[]], [0, 0, 2, 1], &[0, 0, 0, 0]),
    (&[&[1, 2, 3], &[], &[], &[]], [0, 1, 1, 0], &[0, 0, 0, 0]),
    (
        &[&[1, 2, 3], &[4], &[4], &[4], &[]],
        [0, 1, 2, 1],
        &[0, 0, 0, 0, 0],
    ),
    (&[&[1], &[1, 2], &[]], [1, 0, 3, 1], &[0, 1, 0]),
    (&[&[1], &[2, 3], &[1], &[]], [1, 0, 3, 1], &[0, 1, 1, 0]),
    // two nested loops
    (
        &[&[1], &[2, 4], &[3], &[2, 1], &[]],
        [2, 0, 5, 1],
        &[0, 1, 2, 2, 0],
    ),
    // a loop of four blocks with two exits
    (
        &[&[1], &[2, 5], &[3, 6], &[4, 1], &[1, 5], &[], &[]],
        [1, 0, 7, 1],
        &[0, 1, 1, 1, 1, 0, 0],
    ),
];

#[test]
fn graphs_have_the_loops_that_are_counted_by_hand(rt: HostRuntime) -> Result<(), Fail> {
    let alloc = rt.alloc();
    for (graph, counts, depths) in ROWS {
        let targets = sets(alloc, graph)?;
        let lists = lists(alloc, graph)?;
        let [loops, switches, selections, variables] = counts;
        let wanted = Counts {
            loops,
            switches,
            selections,
            variables,
        };
        for version in [Version::V13, Version::V16] {
            let m = module_of(alloc, &lists, version)?;
            assert_eq!(rt; found(&m), wanted, "{graph:?}");
            expect_depths(&rt, &m, reached(&targets), depths);
        }
        assert_eq!(rt; counts_of(graph, &targets), wanted);
    }
    Ok(())
}

#[test]
fn graphs_have_the_loops_of_their_heads(rt: HostRuntime) -> Result<(), Fail> {
    let alloc = rt.alloc();
    for graph in PLAIN {
        let targets = sets(alloc, graph)?;
        let lists = lists(alloc, graph)?;
        assert!(rt; !is_crossed(alloc, &targets)?, "{graph:?}");
        let depths = depths_of(alloc, &targets)?;
        for version in [Version::V13, Version::V16] {
            let m = module_of(alloc, &lists, version)?;
            assert_eq!(rt; found(&m), counts_of(graph, &targets), "{graph:?}");
            expect_depths(&rt, &m, reached(&targets), &depths);
            expect_heads(&rt, &m, &targets);
        }
    }
    Ok(())
}

#[test]
fn crossed_graphs_are_accepted(rt: HostRuntime) -> Result<(), Fail> {
    let alloc = rt.alloc();
    for graph in CROSSED {
        let targets = sets(alloc, graph)?;
        let lists = lists(alloc, graph)?;
        assert!(rt; is_crossed(alloc, &targets)?, "{graph:?}");
        for version in [Version::V13, Version::V16] {
            let m = module_of(alloc, &lists, version)?;
            assert!(rt; found(&m).loops >= 1);
        }
    }
    Ok(())
}

/// So many blocks, of which each branches to the next one and to the last one, which returns.
fn ladder(alloc: Global, count: u32) -> Result<Vec<Vec<u32>>, Fail> {
    let mut all = Vec::new(alloc);
    let last = count.saturating_sub(1);
    for block in 0..last {
        all.push(vec![in alloc; block.saturating_add(1), last]?)?;
    }
    all.push(Vec::new(alloc))?;
    Ok(all)
}

#[test]
fn four_hundred_blocks_are_nested(rt: HostRuntime) -> Result<(), Fail> {
    let alloc = rt.alloc();
    for (blocks, loops, switches) in [(400, 0, 0), (401, 1, 1)] {
        let m = module_of(alloc, &ladder(alloc, blocks)?, Version::V16)?;
        let counts = found(&m);
        assert_eq!(rt; (counts.loops, counts.switches), (loops, switches));
    }
    Ok(())
}

/// A switch of so many cases to block 1, and one more to block 2, where that is asked for.
fn long_switch(alloc: Global, cases: u32, other: bool) -> Result<Vec<Vec<u32>>, Fail> {
    let mut list = Vec::new(alloc);
    for _ in 0..cases {
        list.push(1)?;
    }
    if other {
        list.push(2)?;
    }
    let mut all = Vec::new(alloc);
    all.push(list)?;
    all.push(Vec::new(alloc))?;
    all.push(Vec::new(alloc))?;
    Ok(all)
}

#[test]
fn a_long_switch_is_several(rt: HostRuntime) -> Result<(), Fail> {
    let alloc = rt.alloc();
    let table = [
        (32_767, false, 0),
        (16_382, true, 1),
        (16_383, true, 2),
        (32_765, true, 2),
        (32_766, true, 3),
    ];
    for (cases, other, wanted) in table {
        let m = module_of(alloc, &long_switch(alloc, cases, other)?, Version::V16)?;
        assert_eq!(rt; found(&m).switches, wanted, "{cases}");
    }
    Ok(())
}
