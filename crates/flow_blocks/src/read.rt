ghost use Rattle.std.specs.Prelude.{◌≡◌, ◌+◌, ◌<◌, ◌^◌, ◌++◌, ◌∷◌, [], ℕ, length, map, Some, None, OnOk, IfOk};
ghost use Rattle.std.specs.Option.{option_map};
ghost use Rattle.flow_blocks.specs.Blocks.{merge_of as merge_named, terminator_of as terminator_named, targets_of as targets_named, labeled_blocks, with_merge};
ghost use Rattle.flow_blocks.specs.Numbered.{numbered_merge, each_numbered, blocks_of as blocks_named};
ghost use Rattle.flow_blocks.specs.Passes.{number_in, next_inner, block_ended, block_after, block_ended_at};
ghost use Rattle.flow_rules.specs.Kept.{targets_of as targets_kept, terminator_of as terminator_kept};
ghost use Rattle.flow_rules.specs.Rules.{IsNumbered, AreInOrder};
ghost use Rattle.spv_form.specs.Words.{start_of};

use crate::inst::{ending_of, merge_of};
use crate::labels::Labels;
use dx_base::{List, OutOfMemory};
use flow_rules::{BasicBlock, Ending, Merge, MergeList};
use spv_form::{Inst, InstList, op};
use std::alloc::Global;

/// A block whose terminator does not stand yet, with the merge instruction that stands last.
#[derive(Drop)]
struct OpenBlock {
    word: u32,
    strays: MergeList,
    merge: Option<Merge>,
}

impl OpenBlock {
    /// The block at a label.
    fn new(alloc: Global, word: u32) -> OpenBlock
        ensures { result ≡ record { word = word; strays = []; merge = None } }
    {
        OpenBlock {
            word,
            strays: List::new(alloc),
            merge: None,
        }
    }

    /// The block with one instruction more, which is no terminator.
    fn with_inst(self, merge: Option<Merge>) -> Result<OpenBlock, OutOfMemory>
        ensures { IfOk result (λ o. o ≡ record { word = self.word; strays = with_merge self.strays self.merge; merge = merge }) }
    {
        let mut strays = self.strays;
        match self.merge {
            Some(stray) => match strays.push(stray) {
                Ok(()) => {}
                Err(_) => return Err(OutOfMemory),
            },
            None => {}
        }
        Ok(OpenBlock {
            word: self.word,
            strays,
            merge,
        })
    }

    /// The block that is ended at a word.
    fn ended(self, alloc: Global, ending: Ending, word: u32) -> Result<BasicBlock, OutOfMemory>
        ensures { IfOk result (λ b. b ≡ record { word = self.word; strays = self.strays; merge = self.merge; terminator = terminator_kept ending; end_word = word; targets = targets_kept ending }) }
    {
        BasicBlock::new(alloc, self.word, self.strays, self.merge, ending, word)
    }
}

/// The merge instruction with numbers in place of labels.
fn numbered_merge_of(labels: &Labels, inst: &Inst, word: u32) -> Option<Merge>
    ensures { result ≡ option_map (numbered_merge (number_in labels.now)) (merge_named inst.now word) }
{
    match merge_of(inst, word) {
        Some(merge) => Some(labels.merge(merge)),
        None => None,
    }
}

/// Reads one instruction: it begins a block, stands in one or ends one.
fn step(
    alloc: Global,
    labels: &Labels,
    current: Option<OpenBlock>,
    blocks: &mut Vec<BasicBlock>,
    word: u32,
    inst: &Inst,
) -> Result<Option<OpenBlock>, OutOfMemory>
    ensures next { IfOk result (λ o. o ≡ block_after (number_in labels.now) current word inst.now) }
    ensures blocks { OnOk result (blocks.new.items ≡ blocks.old.items ++ block_ended_at (number_in labels.now) current word inst.now) }
{
    if inst.opcode == op::LABEL {
        return Ok(Some(OpenBlock::new(alloc, word)));
    }
    let Some(open) = current else {
        return Ok(None);
    };
    let Some(ending) = ending_of(alloc, labels, inst)? else {
        let next = open.with_inst(numbered_merge_of(labels, inst, word))?;
        return Ok(Some(next));
    };
    let block = open.ended(alloc, ending, word)?;
    match blocks.push(block) {
        Ok(()) => Ok(None),
        Err(_) => Err(OutOfMemory),
    }
}

fn numbered_blocks(
    alloc: Global,
    labels: &Labels,
    insts: &[Inst],
) -> Result<Vec<BasicBlock>, OutOfMemory>
    requires { start_of insts.now (length insts.now) < 2 ^ 32 }
    ensures { IfOk result (λ v. v.items ≡ each_numbered (number_in labels.now) (labeled_blocks insts.now)) }
{
    let mut blocks = Vec::with_capacity(alloc, labels.count()).map_err(|_| OutOfMemory)?;
    let mut current = None;
    let mut word = 5u32;
    for at in 0..insts.len() {
        let inst = &insts[at];
        current = step(alloc, labels, current, &mut blocks, word, inst)?;
        word += 1 + inst.operands.len() as u32;
    }
    Ok(blocks)
}

/// The blocks of a module's instructions, in word order. They name each other by their numbers.
pub fn blocks_of(alloc: Global, insts: &InstList) -> Result<Vec<BasicBlock>, OutOfMemory>
    requires { start_of insts.now (length insts.now) < 2 ^ 32 }
    ensures exact { IfOk result (λ blocks. blocks.items ≡ blocks_named insts.now) }
    ensures small { IfOk result (λ blocks. length blocks.items < 2 ^ 32) }
    ensures numbered { IfOk result (λ blocks. IsNumbered blocks.items) }
    ensures order { IfOk result (λ blocks. AreInOrder blocks.items) }
{
    let insts = insts.as_slice();
    let labels = Labels::of(alloc, insts)?;
    numbered_blocks(alloc, &labels, insts)
}
