use dx_base::{List, bytes_of};
use spirv_file::check_file;
use spv_form::{CheckFault, WordRule};
use std::alloc::{AllocError, Global};
use std::process::Abort;
use std::test::Fail;

/// The words in front of the first block of a shader, which stands at word 44.
const FRONT: [u32; 44] = [
    // the header, Capability Shader, MemoryModel Logical GLSL450, EntryPoint GLCompute %1 "main", LocalSize 1 1 1
    0x0723_0203,
    0x0001_0600,
    0,
    20,
    0,
    0x0002_0011,
    1,
    0x0003_000E,
    0,
    1,
    0x0005_000F,
    5,
    1,
    0x6E69_616D,
    0,
    0x0006_0010,
    1,
    17,
    1,
    1,
    1,
    // %2 void, %3 its function, %4 bool, %5 true, %6 integer, %7 the number 1
    0x0002_0013,
    2,
    0x0003_0021,
    3,
    2,
    0x0002_0014,
    4,
    0x0003_0029,
    4,
    5,
    0x0004_0015,
    6,
    32,
    0,
    0x0004_002B,
    6,
    7,
    1,
    // the function
    0x0005_0036,
    2,
    1,
    0,
    3,
];

/// An instruction of the function. Block `b` has the label 10 + `b`.
#[derive(Clone, Copy, Debug)]
enum Step {
    /// The label of a block.
    Begin(u32),
    /// The merge block.
    Selection(u32),
    /// The merge block and the continue target.
    Loop(u32, u32),
    Branch(u32),
    Fork(u32, u32),
    /// The default and the blocks of two cases.
    Switch(u32, u32, u32),
    Return,
}

use Step::{Begin, Branch, Fork, Loop, Return, Selection, Switch};

fn label(block: u32) -> u32 {
    block.wrapping_add(10)
}

fn push_step(words: &mut Vec<u32>, step: Step) -> Result<(), AllocError> {
    match step {
        Begin(block) => words.extend_from_slice(&[0x0002_00F8, label(block)]),
        Selection(merge) => words.extend_from_slice(&[0x0003_00F7, label(merge), 0]),
        Loop(merge, again) => words.extend_from_slice(&[
            0x0004_00F6,
            label(merge),
            label(again),
            0,
        ]),
        Branch(target) => words.extend_from_slice(&[0x0002_00F9, label(target)]),
        Fork(yes, no) => words.extend_from_slice(&[0x0004_00FA, 5, label(yes), label(no)]),
        Switch(default, one, two) => {
            words.extend_from_slice(&[0x0007_00FB, 7, label(default), 1, label(one), 2, label(two)])
        }
        Return => words.push(0x0001_00FD).map_err(|_| AllocError),
    }
}

/// The rule that the file of these words breaks, and its word; None where it breaks none.
fn answer(rt: &impl Abort, alloc: Global, words: &[u32]) -> Result<Option<(WordRule, u32)>, Fail> {
    let mut list = List::new(alloc);
    for word in words {
        list.push(*word)?;
    }
    let bytes = bytes_of(alloc, &list)?;
    assert!(rt; bytes.len() <= 1 << 26);
    match check_file(alloc, bytes) {
        Ok(()) => Ok(None),
        Err(CheckFault::Refused { rule, word }) => Ok(Some((rule, word))),
        Err(fault) => Err(fault.into()),
    }
}

/// The rule S that the function breaks, and its word; None where it breaks none.
fn answer_of(
    rt: &impl Abort,
    alloc: Global,
    steps: &[Step],
) -> Result<Option<(WordRule, u32)>, Fail> {
    let mut words = FRONT.to_vec(alloc)?;
    for step in steps {
        push_step(&mut words, *step)?;
    }
    words.push(0x0001_0038)?;
    answer(rt, alloc, words.as_slice())
}

/// Functions in pairs: one that breaks a rule S, with its number and word, and a neighbour that breaks none.
const PAIRS: [(&[Step], u8, u32, &[Step]); 24] = [
    // a conditional branch without a merge instruction
    (
        &[Begin(0), Fork(1, 2), Begin(1), Return, Begin(2), Return],
        1,
        46,
        &[
            Begin(0),
            Selection(2),
            Fork(1, 2),
            Begin(1),
            Branch(2),
            Begin(2),
            Return,
        ],
    ),
    // both targets of a conditional branch one block
    (
        &[
            Begin(0),
            Selection(2),
            Fork(1, 1),
            Begin(1),
            Branch(2),
            Begin(2),
            Return,
        ],
        1,
        49,
        &[
            Begin(0),
            Selection(1),
            Fork(2, 1),
            Begin(2),
            Branch(1),
            Begin(1),
            Return,
        ],
    ),
    // a switch without a merge instruction
    (
        &[Begin(0), Switch(1, 1, 1), Begin(1), Return],
        1,
        46,
        &[Begin(0), Selection(1), Switch(1, 1, 1), Begin(1), Return],
    ),
    // a merge instruction in front of another one
    (
        &[
            Begin(0),
            Selection(1),
            Selection(2),
            Fork(1, 2),
            Begin(1),
            Branch(2),
            Begin(2),
            Return,
        ],
        2,
        46,
        &[
            Begin(0),
            Selection(2),
            Fork(1, 2),
            Begin(1),
            Branch(2),
            Begin(2),
            Return,
        ],
    ),
    // a selection of a branch
    (
        &[Begin(0), Selection(1), Branch(1), Begin(1), Return],
        2,
        46,
        &[Begin(0), Branch(1), Begin(1), Return],
    ),
    // one merge block of two selections
    (
        &[
            Begin(0),
            Selection(3),
            Fork(1, 3),
            Begin(1),
            Selection(3),
            Fork(2, 3),
            Begin(2),
            Branch(3),
            Begin(3),
            Return,
        ],
        3,
        55,
        &[
            Begin(0),
            Selection(4),
            Fork(1, 4),
            Begin(1),
            Selection(3),
            Fork(2, 3),
            Begin(2),
            Branch(3),
            Begin(3),
            Branch(4),
            Begin(4),
            Return,
        ],
    ),
    // a header that is its own merge block
    (
        &[
            Begin(0),
            Branch(1),
            Begin(1),
            Selection(1),
            Fork(2, 3),
            Begin(2),
            Return,
            Begin(3),
            Return,
        ],
        4,
        50,
        &[
            Begin(0),
            Branch(1),
            Begin(1),
            Selection(3),
            Fork(2, 3),
            Begin(2),
            Return,
            Begin(3),
            Return,
        ],
    ),
    // a continue target before its header
    (
        &[
            Begin(0),
            Branch(1),
            Begin(1),
            Branch(2),
            Begin(2),
            Loop(4, 1),
            Branch(3),
            Begin(3),
            Branch(2),
            Begin(4),
            Return,
        ],
        5,
        54,
        &[
            Begin(0),
            Branch(1),
            Begin(1),
            Branch(2),
            Begin(2),
            Loop(4, 3),
            Branch(3),
            Begin(3),
            Branch(2),
            Begin(4),
            Return,
        ],
    ),
    // a continue target that is the merge block, and a loop of one block whose continue target is its header
    (
        &[
            Begin(0),
            Branch(1),
            Begin(1),
            Loop(2, 2),
            Fork(1, 2),
            Begin(2),
            Return,
        ],
        5,
        50,
        &[
            Begin(0),
            Branch(1),
            Begin(1),
            Loop(2, 1),
            Fork(1, 2),
            Begin(2),
            Return,
        ],
    ),
    // a way back to a block that is no loop header
    (
        &[Begin(0), Branch(1), Begin(1), Branch(1)],
        6,
        50,
        &[
            Begin(0),
            Branch(1),
            Begin(1),
            Loop(3, 2),
            Fork(2, 3),
            Begin(2),
            Branch(1),
            Begin(3),
            Return,
        ],
    ),
    // no way back to a header
    (
        &[
            Begin(0),
            Branch(1),
            Begin(1),
            Loop(3, 2),
            Fork(2, 3),
            Begin(2),
            Branch(3),
            Begin(3),
            Return,
        ],
        6,
        50,
        &[
            Begin(0),
            Branch(1),
            Begin(1),
            Loop(3, 2),
            Fork(2, 3),
            Begin(2),
            Branch(1),
            Begin(3),
            Return,
        ],
    ),
    // a block that branches twice to the header is one, and the block behind it branches to itself
    (
        &[
            Begin(0),
            Branch(1),
            Begin(1),
            Loop(4, 2),
            Fork(2, 4),
            Begin(2),
            Selection(3),
            Switch(1, 1, 3),
            Begin(3),
            Branch(3),
            Begin(4),
            Return,
        ],
        6,
        72,
        &[
            Begin(0),
            Branch(1),
            Begin(1),
            Loop(4, 2),
            Fork(2, 4),
            Begin(2),
            Branch(3),
            Begin(3),
            Branch(1),
            Begin(4),
            Return,
        ],
    ),
    // two ways back to one header
    (
        &[
            Begin(0),
            Branch(1),
            Begin(1),
            Loop(4, 3),
            Fork(2, 4),
            Begin(2),
            Branch(1),
            Begin(3),
            Branch(1),
            Begin(4),
            Return,
        ],
        6,
        50,
        &[
            Begin(0),
            Branch(1),
            Begin(1),
            Loop(4, 3),
            Fork(2, 4),
            Begin(2),
            Branch(3),
            Begin(3),
            Branch(1),
            Begin(4),
            Return,
        ],
    ),
    // a ring with two entrances, and the same blocks with a way through
    (
        &[
            Begin(0),
            Selection(3),
            Fork(1, 2),
            Begin(1),
            Branch(2),
            Begin(2),
            Branch(1),
            Begin(3),
            Return,
        ],
        6,
        59,
        &[
            Begin(0),
            Selection(3),
            Fork(1, 2),
            Begin(1),
            Branch(2),
            Begin(2),
            Branch(3),
            Begin(3),
            Return,
        ],
    ),
    // a selection that reaches over the end of the loop construct around it
    (
        &[
            Begin(0),
            Branch(1),
            Begin(1),
            Loop(4, 3),
            Branch(2),
            Begin(2),
            Selection(5),
            Fork(3, 5),
            Begin(3),
            Branch(1),
            Begin(4),
            Branch(5),
            Begin(5),
            Return,
        ],
        7,
        58,
        &[
            Begin(0),
            Branch(1),
            Begin(1),
            Loop(6, 5),
            Branch(2),
            Begin(2),
            Selection(4),
            Fork(3, 4),
            Begin(3),
            Branch(4),
            Begin(4),
            Branch(5),
            Begin(5),
            Branch(1),
            Begin(6),
            Return,
        ],
    ),
    // a continue construct with a return
    (
        &[
            Begin(0),
            Branch(1),
            Begin(1),
            Loop(4, 2),
            Fork(2, 4),
            Begin(2),
            Selection(3),
            Fork(1, 3),
            Begin(3),
            Return,
            Begin(4),
            Return,
        ],
        8,
        50,
        &[
            Begin(0),
            Branch(1),
            Begin(1),
            Loop(4, 2),
            Fork(2, 4),
            Begin(2),
            Branch(3),
            Begin(3),
            Branch(1),
            Begin(4),
            Return,
        ],
    ),
    // a way back from outside the continue construct
    (
        &[
            Begin(0),
            Branch(1),
            Begin(1),
            Loop(4, 3),
            Fork(2, 4),
            Begin(2),
            Branch(1),
            Begin(3),
            Return,
            Begin(4),
            Return,
        ],
        8,
        50,
        &[
            Begin(0),
            Branch(1),
            Begin(1),
            Loop(4, 3),
            Fork(2, 4),
            Begin(2),
            Branch(3),
            Begin(3),
            Branch(1),
            Begin(4),
            Return,
        ],
    ),
    // a branch into the middle of a selection, and one to its header
    (
        &[
            Begin(0),
            Selection(4),
            Fork(1, 2),
            Begin(1),
            Selection(3),
            Fork(2, 3),
            Begin(2),
            Branch(3),
            Begin(3),
            Branch(4),
            Begin(4),
            Return,
        ],
        9,
        49,
        &[
            Begin(0),
            Selection(4),
            Fork(1, 3),
            Begin(1),
            Selection(3),
            Fork(2, 3),
            Begin(2),
            Branch(3),
            Begin(3),
            Branch(4),
            Begin(4),
            Return,
        ],
    ),
    // a branch out of two selections, and one out of a selection to the merge block of the switch around it
    (
        &[
            Begin(0),
            Selection(3),
            Fork(1, 3),
            Begin(1),
            Selection(2),
            Fork(2, 3),
            Begin(2),
            Branch(3),
            Begin(3),
            Return,
        ],
        10,
        58,
        &[
            Begin(0),
            Selection(4),
            Switch(4, 1, 4),
            Begin(1),
            Selection(3),
            Fork(2, 4),
            Begin(2),
            Branch(3),
            Begin(3),
            Branch(4),
            Begin(4),
            Return,
        ],
    ),
    // a branch out of the inner one of two switches, past its merge block
    (
        &[
            Begin(0),
            Selection(5),
            Switch(5, 1, 4),
            Begin(1),
            Selection(3),
            Switch(3, 2, 3),
            Begin(2),
            Branch(5),
            Begin(3),
            Branch(5),
            Begin(4),
            Branch(5),
            Begin(5),
            Return,
        ],
        10,
        70,
        &[
            Begin(0),
            Selection(5),
            Switch(5, 1, 4),
            Begin(1),
            Selection(3),
            Switch(3, 2, 3),
            Begin(2),
            Branch(3),
            Begin(3),
            Branch(5),
            Begin(4),
            Branch(5),
            Begin(5),
            Return,
        ],
    ),
    // a branch out of a loop to the merge block of the switch around it, and one out of a switch to that of the loop around it
    (
        &[
            Begin(0),
            Selection(6),
            Switch(6, 1, 6),
            Begin(1),
            Loop(5, 4),
            Fork(2, 5),
            Begin(2),
            Selection(3),
            Fork(3, 6),
            Begin(3),
            Branch(4),
            Begin(4),
            Branch(1),
            Begin(5),
            Branch(6),
            Begin(6),
            Return,
        ],
        10,
        71,
        &[
            Begin(0),
            Branch(1),
            Begin(1),
            Loop(6, 5),
            Branch(2),
            Begin(2),
            Selection(4),
            Switch(4, 3, 4),
            Begin(3),
            Branch(6),
            Begin(4),
            Branch(5),
            Begin(5),
            Branch(1),
            Begin(6),
            Return,
        ],
    ),
    // a case that falls through
    (
        &[
            Begin(0),
            Selection(3),
            Switch(3, 1, 2),
            Begin(1),
            Branch(2),
            Begin(2),
            Branch(3),
            Begin(3),
            Return,
        ],
        11,
        58,
        &[
            Begin(0),
            Selection(3),
            Switch(3, 1, 2),
            Begin(1),
            Branch(3),
            Begin(2),
            Branch(3),
            Begin(3),
            Return,
        ],
    ),
    // a loop at the first block
    (
        &[Begin(0), Loop(1, 0), Fork(0, 1), Begin(1), Return],
        12,
        44,
        &[
            Begin(0),
            Branch(1),
            Begin(1),
            Loop(2, 1),
            Fork(1, 2),
            Begin(2),
            Return,
        ],
    ),
    // a block that nothing branches to
    (
        &[Begin(0), Return, Begin(1), Return],
        12,
        47,
        &[Begin(0), Branch(1), Begin(1), Return],
    ),
];

#[test]
fn each_structure_rule_has_its_word_and_a_neighbour(rt: HostRuntime) -> Result<(), Fail> {
    for (broken, rule, word, sound) in PAIRS {
        assert_eq!(rt;
            answer_of(&rt, rt.alloc(), broken)?,
            Some((WordRule::S(rule), word)),
            "{broken:?}"
        );
        assert_eq!(rt; answer_of(&rt, rt.alloc(), sound)?, None, "{sound:?}");
    }
    Ok(())
}
