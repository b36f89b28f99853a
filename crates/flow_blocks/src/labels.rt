//! The numbers of blocks by the ids of their labels.

ghost use Rattle.std.specs.Prelude.{◌≡◌, ◌<◌, ◌^◌, ℕ, IfOk, OnOk, length};
ghost use Rattle.flow_blocks.specs.Blocks.{labeled_blocks};
ghost use Rattle.flow_blocks.specs.Numbered.{number_of, numbered_kind, numbered_merge};
ghost use Rattle.flow_blocks.specs.Passes.{number_in, with_block, label_after, label_ended};

use crate::inst::{operand, terminator_of};
use dx_base::OutOfMemory;
use flow_rules::{Merge, MergeKind};
use key_places::FirstPlaces;
use spv_form::{Inst, op};
use std::alloc::Global;

/// The number of the first block of each label, and how many blocks there are.
#[derive(Drop)]
pub(crate) struct Labels {
    first: FirstPlaces,
    count: usize,
}

/// Adds the label and the number of the block that is ended, where one is.
fn push_block(blocks: &mut Vec<(u32, u32)>, label: Option<u32>) -> Result<(), OutOfMemory>
    requires { length blocks.old.items < 2 ^ 32 }
    ensures { OnOk result (blocks.new.items ≡ with_block blocks.old.items label) }
{
    let Some(label) = label else {
        return Ok(());
    };
    let number = blocks.len() as u32;
    blocks.push((label, number)).map_err(|_| OutOfMemory)
}

/// The label of the block that has no terminator yet, behind one instruction more.
fn label_behind(current: Option<u32>, inst: &Inst) -> Option<u32>
    ensures { result ≡ label_after current inst.now }
{
    if inst.opcode == op::LABEL {
        return Some(operand(inst, 0));
    }
    if terminator_of(inst).is_some() {
        return None;
    }
    current
}

/// The label of the block that the instruction ends.
fn ended_label(current: Option<u32>, inst: &Inst) -> Option<u32>
    ensures { result ≡ label_ended current inst.now }
{
    if inst.opcode == op::LABEL || terminator_of(inst).is_none() {
        return None;
    }
    current
}

impl Labels {
    /// The labels of the blocks that these instructions make.
    pub(crate) fn of(alloc: Global, insts: &[Inst]) -> Result<Labels, OutOfMemory>
        requires { length insts.now < 2 ^ 32 }
        ensures numbers { IfOk result (λ labels. (id : ℕ) → number_in labels id ≡ number_of (labeled_blocks insts.now) id) }
        ensures count { IfOk result (λ labels. labels.count ≡ length (labeled_blocks insts.now)) }
    {
        let terminators = insts.iter().filter(|inst| terminator_of(inst).is_some());
        let mut blocks = Vec::with_capacity(alloc, terminators.count()).map_err(|_| OutOfMemory)?;
        let mut current = None;
        for inst in insts {
            push_block(&mut blocks, ended_label(current, inst))?;
            current = label_behind(current, inst);
        }
        let count = blocks.len();
        Ok(Labels {
            first: FirstPlaces::of(blocks),
            count,
        })
    }

    /// How many blocks there are.
    pub(crate) fn count(&self) -> usize
        ensures { result ≡ self.now.count }
    {
        self.count
    }

    /// The number of the first block with this label; 0 where there is none.
    pub(crate) fn number(&self, label: u32) -> u32
        ensures { result ≡ number_in self.now label }
    {
        match self.first.get(label) {
            Some(number) => number,
            None => 0,
        }
    }

    fn kind(&self, kind: MergeKind) -> MergeKind
        ensures { result ≡ numbered_kind (number_in self.now) kind }
    {
        match kind {
            MergeKind::Selection => MergeKind::Selection,
            MergeKind::Loop { continue_target } => MergeKind::Loop {
                continue_target: self.number(continue_target),
            },
        }
    }

    /// The merge instruction with numbers in place of labels.
    pub(crate) fn merge(&self, merge: Merge) -> Merge
        ensures { result ≡ numbered_merge (number_in self.now) merge }
    {
        Merge {
            word: merge.word,
            kind: self.kind(merge.kind),
            merge_block: self.number(merge.merge_block),
        }
    }
}
