ghost use Rattle.std.specs.Prelude.{◌<◌, ◌^◌, length};
ghost use Rattle.spv_form.specs.Words.{start_of};

use dx_base::List;
use flow_blocks::blocks_of;
use flow_rules::{BasicBlock, Merge, MergeKind, Terminator};
use spv_form::{Inst, InstList, Operands, op};
use std::alloc::Global;
use std::process::Abort;
use std::test::Fail;

/// An instruction, by its opcode and its operand words.
type Row = (u16, &'static [u32]);

/// What is told of a block: the words of its label and of its terminator, this, the blocks to which it branches, and its merge instructions.
type Told = (
    u32,
    u32,
    Terminator,
    &'static [u32],
    Option<Merge>,
    &'static [Merge],
);

/// A function with the labels 6, 7 and 9, and none at 8, and its blocks.
const FUNCTION: [Row; 12] = [
    (op::FUNCTION, &[2, 4, 0, 3]),
    (op::LABEL, &[6]),
    (op::SELECTION_MERGE, &[9, 0]),
    (op::LOOP_MERGE, &[9, 8, 0]),
    (op::BRANCH_CONDITIONAL, &[5, 7, 9]),
    (op::LABEL, &[7]),
    (op::SELECTION_MERGE, &[9, 0]),
    (op::LOAD, &[1, 10, 11]),
    (op::SWITCH, &[10, 9, 30, 8, 31, 9]),
    (op::LABEL, &[9]),
    (op::RETURN, &[]),
    (op::FUNCTION_END, &[]),
];

const LOOP_AT_15: Merge = Merge {
    word: 15,
    kind: MergeKind::Loop { continue_target: 0 },
    merge_block: 2,
};

const SELECTION_AT_12: Merge = Merge {
    word: 12,
    kind: MergeKind::Selection,
    merge_block: 2,
};

const SELECTION_AT_25: Merge = Merge {
    word: 25,
    kind: MergeKind::Selection,
    merge_block: 2,
};

const OF_FUNCTION: [Told; 3] = [
    (
        10,
        19,
        Terminator::BranchConditional,
        &[1, 2],
        Some(LOOP_AT_15),
        &[SELECTION_AT_12],
    ),
    (
        23,
        32,
        Terminator::Switch,
        &[2, 0, 2],
        None,
        &[SELECTION_AT_25],
    ),
    (39, 41, Terminator::Return, &[], None, &[]),
];

/// Instructions in which label 5 has no terminator, a return stands in no block, and label 7 stands twice, and their blocks.
const LABELS: [Row; 9] = [
    (op::LABEL, &[6]),
    (op::SELECTION_MERGE, &[7, 0]),
    (op::BRANCH, &[7]),
    (op::LABEL, &[5]),
    (op::LABEL, &[7]),
    (op::RETURN, &[]),
    (op::RETURN, &[]),
    (op::LABEL, &[7]),
    (op::BRANCH, &[7]),
];

const SELECTION_AT_7: Merge = Merge {
    word: 7,
    kind: MergeKind::Selection,
    merge_block: 1,
};

const OF_LABELS: [Told; 3] = [
    (5, 10, Terminator::Branch, &[1], Some(SELECTION_AT_7), &[]),
    (14, 16, Terminator::Return, &[], None, &[]),
    (18, 20, Terminator::Branch, &[1], None, &[]),
];

/// The instructions of these rows.
fn listed(alloc: Global, rows: &[Row]) -> Result<InstList, Fail> {
    let mut insts = List::new(alloc);
    for (opcode, words) in rows {
        let mut operands = Operands::new(alloc);
        for word in *words {
            operands.push(*word)?;
        }
        insts.push(Inst {
            opcode: *opcode,
            operands,
        })?;
    }
    Ok(insts)
}

/// Stops where the instructions have too many words.
fn expect_short(rt: &impl Abort, insts: &InstList)
    ensures { start_of insts.now (length insts.now) < 2 ^ 32 }
{
    let insts = insts.as_slice();
    let mut word = 5u64;
    for at in 0..insts.len() {
        let size = insts[at].operands.len();
        assert!(rt; word < 0xffff_ffff && size < 0xffff_ffff);
        word += 1 + size as u64;
    }
    assert!(rt; word < 0x1_0000_0000);
}

fn expect_told(rt: &impl Abort, block: &BasicBlock, told: &Told) {
    let (word, end, terminator, targets, merge, strays) = *told;
    assert_eq!(rt; (block.word(), block.end_word()), (word, end));
    assert_eq!(rt; block.terminator(), terminator);
    assert_eq!(rt; block.targets(), targets);
    assert_eq!(rt; block.merge(), merge);
    assert_eq!(rt; block.strays(), strays);
}

/// Stops where the instructions have other blocks than these.
fn expect_blocks(rt: &impl Abort, alloc: Global, rows: &[Row], told: &[Told]) -> Result<(), Fail> {
    let insts = listed(alloc, rows)?;
    expect_short(rt, &insts);
    let blocks = blocks_of(alloc, &insts)?;
    assert_eq!(rt; blocks.len(), told.len());
    for (block, told) in blocks.as_slice().iter().zip(told) {
        expect_told(rt, block, told);
    }
    Ok(())
}

#[test]
fn a_block_has_its_words_merge_instructions_and_targets(rt: HostRuntime) -> Result<(), Fail> {
    expect_blocks(&rt, rt.alloc(), &FUNCTION, &OF_FUNCTION)?;
    expect_blocks(&rt, rt.alloc(), &LABELS, &OF_LABELS)
}
