use crate::shader::{SHARED_MERGE, changed, file_of, spliced};
use spirv_words::read_module;
use spv_form::{CheckFault, WordRule};
use std::alloc::Global;
use std::process::Abort;
use std::test::Fail;
use structure_rules::check_module;

/// The rule V or S that the module of these words breaks, and its word; None where it breaks none.
pub fn answer(
    rt: &impl Abort,
    alloc: Global,
    words: &[u32],
) -> Result<Option<(WordRule, u32)>, Fail> {
    let file = file_of(rt, alloc, words)?;
    let module = read_module(alloc, file.as_slice())?;
    match check_module(alloc, &module) {
        Ok(()) => Ok(None),
        Err(CheckFault::Refused { rule, word }) => Ok(Some((rule, word))),
        Err(fault) => Err(fault.into()),
    }
}

/// The answer for the shader with these words changed.
fn answer_of(
    rt: &impl Abort,
    alloc: Global,
    changes: &[(usize, u32)],
) -> Result<Option<(WordRule, u32)>, Fail> {
    answer(
        rt,
        alloc,
        changed(rt, alloc, &SHARED_MERGE, changes)?.as_slice(),
    )
}

/// Words of the shader that are changed, and the rule that it then breaks with its word.
const CHANGES: [(&[(usize, u32)], WordRule, u32); 5] = [
    // as it stands
    (&[], WordRule::S(3), 47),
    // the merge block of label 7 made 8: the branch from 7 to 9 leaves its construct
    (&[(48, 8)], WordRule::S(10), 50),
    // the merge block of label 7 made label 7 itself
    (&[(48, 7)], WordRule::S(4), 47),
    // the rules V come first: a thread count of 0 stands before the shared merge block, and a label that is none behind it
    (&[(18, 0)], WordRule::V(12), 15),
    (&[(57, 5)], WordRule::V(6), 56),
];

#[test]
fn a_merge_block_is_of_one_header(rt: HostRuntime) -> Result<(), Fail> {
    let alloc = rt.alloc();
    for (changes, rule, word) in CHANGES {
        assert_eq!(rt;
            answer_of(&rt, alloc, changes)?,
            Some((rule, word)),
            "{changes:?}"
        );
    }
    // label 10 stands before label 8, to which both branches of label 7 come together
    let before = [0x0002_00F8, 10, 0x0002_00F9, 8];
    let changes = [(3, 11), (48, 8), (52, 10), (53, 8)];
    let shader = changed(&rt, alloc, &SHARED_MERGE, &changes)?;
    let shader = spliced(&rt, alloc, shader.as_slice(), 54, 0, &before)?;
    assert_eq!(rt; answer(&rt, alloc, shader.as_slice())?, None);
    Ok(())
}

/// A loop at label 7, which goes on at label 8 and is left for label 9, in place of the selections.
const LOOP: [u32; 21] = [
    // label 6 at word 36
    0x0002_00F8,
    6,
    0x0002_00F9,
    7,
    // label 7 at word 40: LoopMerge 9 8, then to 8 or 9
    0x0002_00F8,
    7,
    0x0004_00F6,
    9,
    8,
    0,
    0x0004_00FA,
    5,
    8,
    9,
    // label 8 at word 50, back to 7
    0x0002_00F8,
    8,
    0x0002_00F9,
    7,
    // label 9 at word 54
    0x0002_00F8,
    9,
    0x0001_00FD,
];

/// The answer for the shader with the loop in which one word is changed.
fn answer_for_loop(
    rt: &impl Abort,
    alloc: Global,
    word: usize,
    value: u32,
) -> Result<Option<(WordRule, u32)>, Fail> {
    let shader = spliced(rt, alloc, &SHARED_MERGE, 36, 25, &LOOP)?;
    let shader = changed(rt, alloc, shader.as_slice(), &[(word, value)])?;
    answer(rt, alloc, shader.as_slice())
}

#[test]
fn blocks_of_a_loop_are_named_by_their_labels(rt: HostRuntime) -> Result<(), Fail> {
    // the loop as it stands; its continue target made its merge block; its way back made a way out
    for (word, value, want) in [
        (44, 8, None),
        (44, 9, Some((WordRule::S(5), 42))),
        (53, 9, Some((WordRule::S(6), 42))),
    ] {
        let found = answer_for_loop(&rt, rt.alloc(), word, value)?;
        assert_eq!(rt; found, want, "{value} at word {word}");
    }
    Ok(())
}
