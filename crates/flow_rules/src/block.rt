ghost use Rattle.std.specs.Prelude.{◌≡◌, IfOk};
ghost use Rattle.flow_rules.specs.Kept.{strays_of, merge_of, ending_of, terminator_of, targets_of};

use dx_base::{List, Numbers, OutOfMemory};
use std::alloc::Global;
use std::marker::Model;

/// Which merge instruction it is (SPIR-V 1.6, "Control-Flow Instructions": OpSelectionMerge, OpLoopMerge). Blocks are named by their numbers.
#[derive(Clone, Copy, Debug, PartialEq, Eq)]
pub enum MergeKind {
    Selection,
    Loop { continue_target: u32 },
}

/// A merge instruction, with the word at which it stands.
#[derive(Clone, Copy, Debug, PartialEq, Eq)]
pub struct Merge {
    pub word: u32,
    pub kind: MergeKind,
    pub merge_block: u32,
}

/// Merge instructions in word order.
pub type MergeList = List<Merge>;

/// How a block ends: OpBranch, OpBranchConditional, OpSwitch or OpReturn.
#[derive(Clone, Copy, Debug, PartialEq, Eq)]
pub enum Terminator {
    Branch,
    BranchConditional,
    Switch,
    Return,
}

/// How a block ends: by OpReturn, OpBranch, OpBranchConditional or OpSwitch. It holds the blocks to which the terminator branches, in the order of its
/// operands; those of a switch, of any number, stand apart.
#[derive(Debug, Drop)]
pub enum Ending {
    Return,
    Branch([u32; 1]),
    BranchConditional([u32; 2]),
    Switch(Box<Numbers>),
}

/// The end of a header, and its merge instruction.
#[derive(Debug, Drop)]
struct HeaderEnd {
    merge: Merge,
    ending: Ending,
}

/// The end of a block with merge instructions that do not stand directly before the terminator, and the one that does.
#[derive(Debug, Drop)]
struct StrayEnd {
    strays: MergeList,
    merge: Option<Merge>,
    ending: Ending,
}

/// The end of a block and its merge instructions. Most blocks have none, and take no memory for them.
#[derive(Debug, Drop)]
enum BlockEnd {
    Plain(Ending),
    Header(Box<HeaderEnd>),
    Strays(Box<StrayEnd>),
}

/// A basic block. The blocks of a function are numbered from 0 in word order.
#[derive(Debug, Drop)]
pub struct BasicBlock {
    word: u32,
    end_word: u32,
    end: BlockEnd,
}

const _: () = prove!(size_of::<BasicBlock>() == 32);

impl Model for BasicBlock {
    ghost use Rattle.flow_rules.specs.Blocks.{BasicBlock as Block};
    ghost use Rattle.flow_rules.specs.Kept.{strays_of, merge_of, ending_of, terminator_of, targets_of};

    ghost Value = { Block };

    ghost view = { λ b. record { word = b.word; strays = strays_of b.end; merge = merge_of b.end; terminator = terminator_of (ending_of b.end); end_word = b.end_word; targets = targets_of (ending_of b.end) } };
}

impl BlockEnd {
    fn new(
        alloc: Global,
        strays: MergeList,
        merge: Option<Merge>,
        ending: Ending,
    ) -> Result<BlockEnd, OutOfMemory>
        ensures strays { IfOk result (λ end. strays_of end ≡ strays) }
        ensures merge { IfOk result (λ end. merge_of end ≡ merge) }
        ensures ending { IfOk result (λ end. ending_of end ≡ ending) }
    {
        if strays.len() > 0 {
            let end = StrayEnd {
                strays,
                merge,
                ending,
            };
            return match Box::new(alloc, end) {
                Ok(end) => Ok(BlockEnd::Strays(end)),
                Err(_) => Err(OutOfMemory),
            };
        }
        let Some(merge) = merge else {
            return Ok(BlockEnd::Plain(ending));
        };
        match Box::new(alloc, HeaderEnd { merge, ending }) {
            Ok(end) => Ok(BlockEnd::Header(end)),
            Err(_) => Err(OutOfMemory),
        }
    }

    fn ending(&self) -> &Ending
        ensures { result.now ≡ ending_of self.now }
    {
        match self {
            BlockEnd::Plain(ending) => ending,
            BlockEnd::Header(end) => &end.ending,
            BlockEnd::Strays(end) => &end.ending,
        }
    }
}

impl BasicBlock {
    /// The block that begins at the word of its label and ends at that of its terminator. `merge` stands directly before the terminator, `strays` do not.
    pub fn new(
        alloc: Global,
        word: u32,
        strays: MergeList,
        merge: Option<Merge>,
        ending: Ending,
        end_word: u32,
    ) -> Result<BasicBlock, OutOfMemory>
        ensures { IfOk result (λ block. block ≡ record { word = word; strays = strays; merge = merge; terminator = terminator_of ending; end_word = end_word; targets = targets_of ending }) }
    {
        let end = BlockEnd::new(alloc, strays, merge, ending)?;
        Ok(BasicBlock {
            word,
            end_word,
            end,
        })
    }

    /// The word of its label.
    pub fn word(&self) -> u32
        ensures { result ≡ self.now.word }
    {
        self.word
    }

    /// The word of its terminator.
    pub fn end_word(&self) -> u32
        ensures { result ≡ self.now.end_word }
    {
        self.end_word
    }

    /// The merge instructions that do not stand directly before the terminator.
    pub fn strays(&self) -> &[Merge]
        ensures { result.now ≡ self.now.strays }
    {
        match &self.end {
            BlockEnd::Strays(end) => end.strays.as_slice(),
            _ => &[],
        }
    }

    /// The merge instruction that stands directly before the terminator, which makes the block a header.
    pub fn merge(&self) -> Option<Merge>
        ensures { result ≡ self.now.merge }
    {
        match &self.end {
            BlockEnd::Plain(_) => None,
            BlockEnd::Header(end) => Some(end.merge),
            BlockEnd::Strays(end) => end.merge,
        }
    }

    pub fn terminator(&self) -> Terminator
        ensures { result ≡ self.now.terminator }
    {
        match self.end.ending() {
            Ending::Return => Terminator::Return,
            Ending::Branch(_) => Terminator::Branch,
            Ending::BranchConditional(_) => Terminator::BranchConditional,
            Ending::Switch(_) => Terminator::Switch,
        }
    }

    /// The blocks to which the terminator branches, in the order of its operands.
    pub fn targets(&self) -> &[u32]
        ensures { result.now ≡ self.now.targets }
    {
        match self.end.ending() {
            Ending::Return => &[],
            Ending::Branch(target) => target,
            Ending::BranchConditional(targets) => targets,
            Ending::Switch(targets) => targets.as_slice(),
        }
    }
}
