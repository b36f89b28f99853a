//! The loops, selections and variables of a module, and where its sites stand.

use crate::counts::Counts;
use spv_form::{Inst, Module, op};

/// The storage class of the function's variables.
const FUNCTION: u32 = 7;

/// Whether an instruction has the opcode, and the operand at the place.
fn is(inst: &Inst, opcode: u16, place: usize, operand: u32) -> bool {
    inst.opcode == opcode && inst.operands.get(place) == Some(&operand)
}

/// How many instructions have the opcode.
pub fn how_many(m: &Module, opcode: u16) -> u32 {
    let mut count = 0u32;
    for inst in m.insts.as_slice() {
        if inst.opcode == opcode {
            count = count.saturating_add(1);
        }
    }
    count
}

fn variables(m: &Module) -> u32 {
    let mut count = 0u32;
    for inst in m.insts.as_slice() {
        if is(inst, op::VARIABLE, 2, FUNCTION) {
            count = count.saturating_add(1);
        }
    }
    count
}

pub fn found(m: &Module) -> Counts {
    Counts {
        loops: how_many(m, op::LOOP_MERGE),
        switches: how_many(m, op::SWITCH),
        selections: how_many(m, op::SELECTION_MERGE),
        variables: variables(m),
    }
}

/// The name of a block below 100: `b` and the number, as a word.
fn name(block: u32) -> u32 {
    if block < 10 {
        0x3062 + 0x100 * block
    } else {
        0x0030_3062 + 0x100 * (block / 10 % 10) + 0x0001_0000 * (block % 10)
    }
}

/// The label that an OpName calls as the block; None where none or several do.
pub fn site(m: &Module, block: u32) -> Option<u32> {
    let mut label = None;
    for inst in m.insts.as_slice() {
        if is(inst, op::NAME, 1, name(block)) {
            if label.is_some() {
                return None;
            }
            label = inst.operands.get(0).copied();
        }
    }
    label
}

/// The number of the block of a label, from 0 on; None where there is none or the label stands twice.
fn number(m: &Module, label: u32) -> Option<u32> {
    let mut labels = 0u32;
    let mut place = None;
    for inst in m.insts.as_slice() {
        if inst.opcode == op::LABEL {
            if inst.operands.get(0) == Some(&label) {
                if place.is_some() {
                    return None;
                }
                place = Some(labels);
            }
            labels = labels.saturating_add(1);
        }
    }
    place
}

/// Whether the loop whose header has this number and whose merge instruction this is has the block of the number in its loop construct.
fn holds(m: &Module, header: u32, merge: &Inst, block: u32) -> bool {
    match merge.operands.get(1) {
        Some(label) => match number(m, *label) {
            Some(end) => header <= block && block < end,
            None => false,
        },
        None => false,
    }
}

/// In how many loop constructs the block of a label stands.
pub fn depth(m: &Module, label: u32) -> Option<u32> {
    let block = number(m, label)?;
    let mut labels = 0u32;
    let mut count = 0u32;
    for inst in m.insts.as_slice() {
        if inst.opcode == op::LABEL {
            labels = labels.saturating_add(1);
        }
        if inst.opcode == op::LOOP_MERGE && holds(m, labels.saturating_sub(1), inst, block) {
            count = count.saturating_add(1);
        }
    }
    Some(count)
}

/// How many loop headers branch to the label and nowhere else.
pub fn entered(m: &Module, label: u32) -> u32 {
    let mut behind = false;
    let mut count = 0u32;
    for inst in m.insts.as_slice() {
        if behind && is(inst, op::BRANCH, 0, label) {
            count = count.saturating_add(1);
        }
        behind = inst.opcode == op::LOOP_MERGE;
    }
    count
}
