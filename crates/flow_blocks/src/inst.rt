//! What an instruction says of control flow (SPIR-V 1.6, "Control-Flow Instructions"). Blocks are named by the ids of their labels.

ghost use Rattle.std.specs.Prelude.{◌≡◌, ◌<◌, ◌^◌, ◌++◌, ◌∷◌, [], length, drop, map, IfOk, OnOk, IfSome};
ghost use Rattle.std.specs.Option.{option_map};
ghost use Rattle.flow_blocks.specs.Blocks.{operand as operand_of, terminator_of as terminator_named, merge_of as merge_named, targets_of as targets_named, every_second as second_ones};
ghost use Rattle.flow_blocks.specs.Passes.{number_in};
ghost use Rattle.flow_rules.specs.Kept.{targets_of as targets_kept, terminator_of as terminator_kept};

use crate::labels::Labels;
use dx_base::{List, Numbers, OutOfMemory};
use flow_rules::{Ending, Merge, MergeKind, Terminator};
use spv_form::{Inst, op};
use std::alloc::Global;

/// An operand word, or 0 where there is none.
pub(crate) fn operand(inst: &Inst, at: usize) -> u32
    ensures { result ≡ operand_of inst.now at }
{
    match inst.operands.get(at) {
        Some(word) => *word,
        None => 0,
    }
}

/// The kind of a terminator; None for any other instruction.
pub(crate) fn terminator_of(inst: &Inst) -> Option<Terminator>
    ensures { result ≡ terminator_named inst.now }
{
    match inst.opcode {
        op::BRANCH => Some(Terminator::Branch),
        op::BRANCH_CONDITIONAL => Some(Terminator::BranchConditional),
        op::SWITCH => Some(Terminator::Switch),
        op::RETURN => Some(Terminator::Return),
        _ => None,
    }
}

/// The merge instruction, at this word; None for any other instruction.
pub(crate) fn merge_of(inst: &Inst, word: u32) -> Option<Merge>
    ensures { result ≡ merge_named inst.now word }
{
    match inst.opcode {
        op::LOOP_MERGE => Some(Merge {
            word,
            kind: MergeKind::Loop {
                continue_target: operand(inst, 1),
            },
            merge_block: operand(inst, 0),
        }),
        op::SELECTION_MERGE => Some(Merge {
            word,
            kind: MergeKind::Selection,
            merge_block: operand(inst, 0),
        }),
        _ => None,
    }
}

fn push_number(numbers: &mut Numbers, number: u32) -> Result<(), OutOfMemory>
    ensures { OnOk result (numbers.new ≡ numbers.old ++ number ∷ []) }
{
    match numbers.push(number) {
        Ok(()) => Ok(()),
        Err(_) => Err(OutOfMemory),
    }
}

/// The number of the block that an operand names.
fn number_at(labels: &Labels, inst: &Inst, at: usize) -> u32
    ensures { result ≡ number_in labels.now (operand_of inst.now at) }
{
    labels.number(operand(inst, at))
}

/// How a terminator ends its block; None for any other instruction.
pub(crate) fn ending_of(
    alloc: Global,
    labels: &Labels,
    inst: &Inst,
) -> Result<Option<Ending>, OutOfMemory>
    ensures terminator { IfOk result (λ e. option_map terminator_kept e ≡ terminator_named inst.now) }
    ensures targets { IfOk result (λ e. IfSome e (λ ending. targets_kept ending ≡ map (number_in labels.now) (targets_named inst.now))) }
{
    Ok(match inst.opcode {
        op::BRANCH => Some(Ending::Branch([number_at(labels, inst, 0)])),
        op::BRANCH_CONDITIONAL => Some(Ending::BranchConditional([
            number_at(labels, inst, 1),
            number_at(labels, inst, 2),
        ])),
        op::SWITCH => {
            let targets = switch_targets(alloc, labels, inst)?;
            match Box::new(alloc, targets) {
                Ok(targets) => Some(Ending::Switch(targets)),
                Err(_) => return Err(OutOfMemory),
            }
        }
        op::RETURN => Some(Ending::Return),
        _ => None,
    })
}

/// The default of a switch, and then the blocks of its pairs.
fn switch_targets(alloc: Global, labels: &Labels, inst: &Inst) -> Result<Numbers, OutOfMemory>
    ensures { IfOk result (λ v. v ≡ map (number_in labels.now) (operand_of inst.now 1 ∷ second_ones (drop 2 inst.now.operands))) }
{
    let words = inst.operands.as_slice();
    let mut targets = List::new(alloc);
    push_number(&mut targets, number_at(labels, inst, 1))?;
    if words.len() > 2 {
        push_seconds(&mut targets, labels, &words[2..])?;
    }
    Ok(targets)
}

/// Adds the blocks that every second word names: those of a switch's pairs.
fn push_seconds(targets: &mut Numbers, labels: &Labels, words: &[u32]) -> Result<(), OutOfMemory>
    ensures { OnOk result (targets.new ≡ targets.old ++ map (number_in labels.now) (second_ones words.now)) }
{
    let mut at = 1;
    while at < words.len() {
        push_number(targets, labels.number(words[at]))?;
        at += 2;
    }
    Ok(())
}
