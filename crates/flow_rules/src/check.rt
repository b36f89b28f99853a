//! The structure rules, asked block by block in word order.

ghost use Rattle.std.specs.Prelude.{◌≡◌, ◌≢◌, ◌+◌, ◌-◌, ◌<◌, ◌≤◌, ◌^◌, ◌↔◌, ◌⊎◌, ◌∷◌, [], ℕ, length, IsTrue, Some, None};
ghost use Rattle.flow_rules.specs.declared.block.Merge.{Merge as MergeAt};
ghost use Rattle.flow_rules.specs.declared.block.Terminator.TheVariants.{BranchConditional};
ghost use Rattle.flow_rules.specs.Flow.{At, Edge, Header, Loops, SoleBack, BackEdge};
ghost use Rattle.flow_rules.specs.Rules.{Suits, ClosesLoop, MayLeave, BreaksLabel, BreaksMerge, BreaksEdge, BreaksEnd, IsNumbered, AreInOrder, IsClear, IsMergeClear};
ghost use Rattle.flow_rules.specs.Lists.{AreTables};
ghost use Rattle.flow_rules.specs.Answers.{FlowAnswer, Tells, RuleAnswer, SoleAnswer, IsTidy, SomeEscapes, BlockAnswer, StrayAnswer, FaultAnswer, MergeAnswer, NoneBelow, lesser_of, BreaksSome, Closing, IsDoubled, EndsAt, LoopExit, SwitchExit};

use crate::block::{BasicBlock, Merge, MergeKind, Terminator};
use crate::lists::{body_of, loop_of, switch_of};
use crate::tables::Tables;
use flow_scans::Span;
use spv_form::{CheckFault, WordRule};
use std::alloc::Global;

/// A broken rule and its word.
#[derive(Clone, Copy)]
pub struct Fault {
    rule: u8,
    word: u32,
}

/// Whether S12 is broken at the label of a block.
fn breaks_label(tables: &Tables, blocks: &[BasicBlock], p: usize) -> bool
    requires small { length blocks.now < 2 ^ 32 }
    requires tables { AreTables blocks.now tables.now }
    requires within { p < length blocks.now }
    ensures { Tells result (BreaksLabel blocks.now p 12) }
{
    if p == 0 {
        tables.sources.at(p) < u32::MAX
    } else {
        p <= tables.sources.at(p) as usize
    }
}

/// Whether a merge instruction of this kind may stand before such a terminator.
fn suits(kind: MergeKind, terminator: Terminator) -> bool
    ensures { Tells result (Suits kind terminator) }
{
    match kind {
        MergeKind::Selection => match terminator {
            Terminator::BranchConditional => true,
            Terminator::Switch => true,
            _ => false,
        },
        MergeKind::Loop { .. } => match terminator {
            Terminator::Branch => true,
            Terminator::BranchConditional => true,
            _ => false,
        },
    }
}

/// Whether an earlier header has the same merge block.
fn is_shared(tables: &Tables, blocks: &[BasicBlock], p: usize, merge: Merge) -> bool
    requires small { length blocks.now < 2 ^ 32 }
    requires numbered { IsNumbered blocks.now }
    requires order { AreInOrder blocks.now }
    requires tables { AreTables blocks.now tables.now }
    requires header { Header blocks.now p merge }
    requires clear { IsClear blocks.now p }
    requires tidy { IsTidy blocks.now p }
    ensures { Tells result (BreaksMerge blocks.now p merge 3) }
{
    (tables.mergers.at(merge.merge_block as usize) as usize) < p
}

/// The block from which all back edges to a block come, where there is one.
fn sole_back(tables: &Tables, blocks: &[BasicBlock], p: usize) -> Option<u32>
    requires small { length blocks.now < 2 ^ 32 }
    requires tables { AreTables blocks.now tables.now }
    requires within { p < length blocks.now }
    ensures { SoleAnswer result blocks.now p }
{
    let first = tables.first_backs.at(p);
    let last = tables.last_backs.at(p);
    if first < u32::MAX && first == last {
        Some(first)
    } else {
        None
    }
}

/// Whether a row of the header crosses one of an earlier header.
fn crosses(tables: &Tables, blocks: &[BasicBlock], p: usize, merge: Merge) -> bool
    requires small { length blocks.now < 2 ^ 32 }
    requires numbered { IsNumbered blocks.now }
    requires tables { AreTables blocks.now tables.now }
    requires header { Header blocks.now p merge }
    requires clear { IsClear blocks.now p }
    requires ahead { BreaksMerge blocks.now p merge 4 → ⊥ }
    requires target { BreaksMerge blocks.now p merge 5 → ⊥ }
    ensures { Tells result (BreaksMerge blocks.now p merge 7) }
{
    tables.nested_ends.at(p) < merge.merge_block
}

/// Whether one of the blocks `from..to` returns or branches out of the row `first..end`.
fn escapes(
    tables: &Tables,
    blocks: &[BasicBlock],
    first: u32,
    end: u32,
    from: usize,
    to: usize,
) -> bool
    requires small { length blocks.now < 2 ^ 32 }
    requires numbered { IsNumbered blocks.now }
    requires tables { AreTables blocks.now tables.now }
    requires some { first < end }
    requires within { to ≤ length blocks.now }
    ensures { (of : ℕ) (by : MergeAt) → Tells result (SomeEscapes blocks.now (record { of = of; by = by; first = first; end = end }) from to) }
{
    if tables.lows.exceeds(from, to, u32::MAX - first) {
        return true;
    }
    tables.highs.exceeds(from, to, end - 1)
}

/// Whether S8 is broken at a loop header with this continue target and this one back-edge block.
fn leaves_continue(
    tables: &Tables,
    blocks: &[BasicBlock],
    p: usize,
    merge: Merge,
    continue_target: u32,
    back: u32,
) -> bool
    requires small { length blocks.now < 2 ^ 32 }
    requires numbered { IsNumbered blocks.now }
    requires tables { AreTables blocks.now tables.now }
    requires loops { Loops blocks.now p merge continue_target }
    requires some { continue_target < merge.merge_block }
    requires sole { SoleBack blocks.now p back }
    ensures { Tells result (BreaksMerge blocks.now p merge 8) }
{
    let end = merge.merge_block;
    if back < continue_target {
        return true;
    }
    if end <= back {
        return true;
    }
    let first = continue_target;
    if escapes(tables, blocks, first, end, first as usize, back as usize) {
        return true;
    }
    escapes(tables, blocks, first, end, back as usize + 1, end as usize)
}

/// The least rule that is broken at a loop header's merge instruction, where none below S5 is.
fn loop_rule(
    tables: &Tables,
    blocks: &[BasicBlock],
    p: usize,
    merge: Merge,
    continue_target: u32,
) -> Option<u8>
    requires small { length blocks.now < 2 ^ 32 }
    requires numbered { IsNumbered blocks.now }
    requires tables { AreTables blocks.now tables.now }
    requires loops { Loops blocks.now p merge continue_target }
    requires clear { IsClear blocks.now p }
    requires before { NoneBelow (BreaksMerge blocks.now p merge) 5 }
    ensures { RuleAnswer result (BreaksMerge blocks.now p merge) }
{
    if (continue_target as usize) < p {
        return Some(5);
    }
    if merge.merge_block <= continue_target {
        return Some(5);
    }
    let back = match sole_back(tables, blocks, p) {
        Some(back) => back,
        None => return Some(6),
    };
    if crosses(tables, blocks, p, merge) {
        return Some(7);
    }
    if leaves_continue(tables, blocks, p, merge, continue_target, back) {
        return Some(8);
    }
    None
}

/// The least rule that is broken at a header's merge instruction.
fn merge_rule(
    tables: &Tables,
    blocks: &[BasicBlock],
    p: usize,
    block: &BasicBlock,
    merge: Merge,
) -> Option<u8>
    requires small { length blocks.now < 2 ^ 32 }
    requires numbered { IsNumbered blocks.now }
    requires order { AreInOrder blocks.now }
    requires tables { AreTables blocks.now tables.now }
    requires at { At blocks.now p block.now }
    requires header { block.now.merge ≡ Some merge }
    requires clear { IsClear blocks.now p }
    requires tidy { IsTidy blocks.now p }
    ensures { RuleAnswer result (BreaksMerge blocks.now p merge) }
{
    if !suits(merge.kind, block.terminator()) {
        return Some(2);
    }
    if is_shared(tables, blocks, p, merge) {
        return Some(3);
    }
    if merge.merge_block as usize <= p {
        return Some(4);
    }
    match merge.kind {
        MergeKind::Loop { continue_target } => {
            loop_rule(tables, blocks, p, merge, continue_target)
        }
        MergeKind::Selection => {
            if crosses(tables, blocks, p, merge) {
                return Some(7);
            }
            None
        }
    }
}

/// Whether a branch back to a loop header whose merge block is `end` is made from block `p`.
fn closes(blocks: &[BasicBlock], p: usize, header: u32, end: u32) -> bool
    requires { header < length blocks.now }
    ensures { Tells result (Closing blocks.now p header end) }
{
    if p < header as usize {
        return false;
    }
    match loop_of(header, &blocks[header as usize]) {
        Some(span) => span.end == end,
        None => false,
    }
}

/// Whether a conditional branch makes a loop's back edge, with that loop's header and merge block as its targets.
fn closes_loop(blocks: &[BasicBlock], p: usize, block: &BasicBlock) -> bool
    requires numbered { IsNumbered blocks.now }
    requires at { At blocks.now p block.now }
    requires conditional { block.now.terminator ≡ BranchConditional }
    ensures { Tells result (ClosesLoop blocks.now p block.now) }
{
    let targets = block.targets();
    if targets.len() != 2 {
        return false;
    }
    if closes(blocks, p, targets[0], targets[1]) {
        return true;
    }
    closes(blocks, p, targets[1], targets[0])
}

/// Whether both targets of a conditional branch are one block.
fn is_doubled(block: &BasicBlock) -> bool
    ensures { Tells result (IsDoubled block.now) }
{
    let targets = block.targets();
    if targets.len() != 2 {
        return false;
    }
    targets[0] == targets[1]
}

/// Whether no merge instruction stands directly before the terminator of a block.
fn has_no_merge(block: &BasicBlock) -> bool
    ensures { Tells result (block.now.merge ≡ None) }
{
    match block.merge() {
        Some(_) => false,
        None => true,
    }
}

/// Whether S1 is broken at the terminator of a block.
fn breaks_fork(blocks: &[BasicBlock], p: usize, block: &BasicBlock) -> bool
    requires numbered { IsNumbered blocks.now }
    requires at { At blocks.now p block.now }
    ensures { Tells result (BreaksEnd blocks.now p block.now 1) }
{
    match block.terminator() {
        Terminator::Branch => false,
        Terminator::Return => false,
        Terminator::Switch => has_no_merge(block),
        Terminator::BranchConditional => {
            if is_doubled(block) {
                return true;
            }
            if !has_no_merge(block) {
                return false;
            }
            !closes_loop(blocks, p, block)
        }
    }
}

/// Whether there is a span and it has this end.
fn ends_at(span: Option<Span>, end: u32) -> bool
    ensures { Tells result (EndsAt span end) }
{
    match span {
        Some(span) => span.end == end,
        None => false,
    }
}

/// Whether a block is the merge block or the continue target of a loop, which is told by one more than its header.
fn leaves_loop(blocks: &[BasicBlock], inner: u32, q: u32) -> bool
    requires { inner ≤ length blocks.now }
    ensures { Tells result (LoopExit blocks.now inner q) }
{
    if inner == 0 {
        return false;
    }
    let header = inner - 1;
    let block = &blocks[header as usize];
    if ends_at(loop_of(header, block), q) {
        return true;
    }
    ends_at(body_of(header, block), q)
}

/// Whether a block is the merge block of a switch, which is told by one more than its header.
fn leaves_switch(blocks: &[BasicBlock], switch: u32, q: u32) -> bool
    requires { switch ≤ length blocks.now }
    ensures { Tells result (SwitchExit blocks.now switch q) }
{
    if switch == 0 {
        return false;
    }
    let header = switch - 1;
    ends_at(switch_of(header, &blocks[header as usize]), q)
}

/// Whether a branch edge that goes ahead may leave a construct whose merge block is another than its target.
fn may_leave(tables: &Tables, blocks: &[BasicBlock], p: usize, q: u32) -> bool
    requires tables { AreTables blocks.now tables.now }
    requires within { p < length blocks.now }
    requires ahead { p < q }
    ensures { Tells result (MayLeave blocks.now p q) }
{
    let inner = tables.loops.at(p);
    if leaves_loop(blocks, inner, q) {
        return true;
    }
    let switch = tables.switches.at(p);
    if switch < inner {
        return false;
    }
    leaves_switch(blocks, switch, q)
}

/// The least rule that is broken at a branch edge back from `p` to `q`.
fn back_rule(tables: &Tables, blocks: &[BasicBlock], p: usize, q: u32) -> Option<u8>
    requires small { length blocks.now < 2 ^ 32 }
    requires tables { AreTables blocks.now tables.now }
    requires edge { Edge blocks.now p q }
    requires back { q ≤ p }
    requires clear { IsClear blocks.now p }
    requires merges { IsMergeClear blocks.now p }
    ensures { RuleAnswer result (BreaksEdge blocks.now p q) }
{
    match loop_of(q, &blocks[q as usize]) {
        Some(_) => {}
        None => return Some(6),
    }
    if tables.row_ends.at(q as usize) as usize <= p {
        return Some(9);
    }
    if tables.loops.at(p) as usize != q as usize + 1 {
        return Some(10);
    }
    None
}

/// Whether a branch edge ahead from `p` to `q` leaves a construct to a block to which it may not go.
fn breaks_out(tables: &Tables, blocks: &[BasicBlock], p: usize, q: u32) -> bool
    requires small { length blocks.now < 2 ^ 32 }
    requires tables { AreTables blocks.now tables.now }
    requires edge { Edge blocks.now p q }
    requires ahead { p < q }
    requires below { q < length blocks.now }
    requires clear { IsClear blocks.now p }
    requires merges { IsMergeClear blocks.now p }
    ensures { Tells result (BreaksEdge blocks.now p q 10) }
{
    if may_leave(tables, blocks, p, q) {
        return false;
    }
    if tables.left_ends.at(p) < q {
        return true;
    }
    tables.body_ends.at(p) <= q
}

/// The least rule that is broken at a branch edge ahead from `p` to `q`.
fn forward_rule(tables: &Tables, blocks: &[BasicBlock], p: usize, q: u32) -> Option<u8>
    requires small { length blocks.now < 2 ^ 32 }
    requires tables { AreTables blocks.now tables.now }
    requires edge { Edge blocks.now p q }
    requires ahead { p < q }
    requires below { q < length blocks.now }
    requires clear { IsClear blocks.now p }
    requires merges { IsMergeClear blocks.now p }
    ensures { RuleAnswer result (BreaksEdge blocks.now p q) }
{
    if p + 1 < tables.row_overs.at(q as usize) as usize {
        return Some(9);
    }
    if breaks_out(tables, blocks, p, q) {
        return Some(10);
    }
    if tables.case_froms.at(q as usize) as usize <= p {
        return Some(11);
    }
    None
}

/// The least rule that is broken at a branch edge.
fn edge_rule(tables: &Tables, blocks: &[BasicBlock], p: usize, q: u32) -> Option<u8>
    requires small { length blocks.now < 2 ^ 32 }
    requires numbered { IsNumbered blocks.now }
    requires tables { AreTables blocks.now tables.now }
    requires edge { Edge blocks.now p q }
    requires clear { IsClear blocks.now p }
    requires merges { IsMergeClear blocks.now p }
    ensures { RuleAnswer result (BreaksEdge blocks.now p q) }
{
    if q as usize <= p {
        back_rule(tables, blocks, p, q)
    } else {
        forward_rule(tables, blocks, p, q)
    }
}

fn lesser(left: Option<u8>, right: Option<u8>) -> Option<u8>
    ensures { result ≡ lesser_of left right }
{
    match left {
        None => right,
        Some(a) => match right {
            None => Some(a),
            Some(b) => Some(if a < b { a } else { b }),
        },
    }
}

/// The least rule that is broken at a branch edge from a block.
fn edges_rule(tables: &Tables, blocks: &[BasicBlock], p: usize, block: &BasicBlock) -> Option<u8>
    requires small { length blocks.now < 2 ^ 32 }
    requires numbered { IsNumbered blocks.now }
    requires tables { AreTables blocks.now tables.now }
    requires at { At blocks.now p block.now }
    requires clear { IsClear blocks.now p }
    requires merges { IsMergeClear blocks.now p }
    ensures { RuleAnswer result (BreaksSome blocks.now p block.now.targets) }
{
    let mut least = None;
    for target in block.targets() {
        least = lesser(least, edge_rule(tables, blocks, p, *target));
    }
    least
}

/// The least rule that is broken at the terminator of a block.
fn end_rule(tables: &Tables, blocks: &[BasicBlock], p: usize, block: &BasicBlock) -> Option<u8>
    requires small { length blocks.now < 2 ^ 32 }
    requires numbered { IsNumbered blocks.now }
    requires tables { AreTables blocks.now tables.now }
    requires at { At blocks.now p block.now }
    requires clear { IsClear blocks.now p }
    requires merges { IsMergeClear blocks.now p }
    ensures { RuleAnswer result (BreaksEnd blocks.now p block.now) }
{
    if breaks_fork(blocks, p, block) {
        return Some(1);
    }
    edges_rule(tables, blocks, p, block)
}

/// The first broken rule at the merge instruction of a header, where the block has no other merge instruction.
fn merge_fault(
    tables: &Tables,
    blocks: &[BasicBlock],
    p: usize,
    block: &BasicBlock,
) -> Option<Fault>
    requires small { length blocks.now < 2 ^ 32 }
    requires numbered { IsNumbered blocks.now }
    requires order { AreInOrder blocks.now }
    requires tables { AreTables blocks.now tables.now }
    requires at { At blocks.now p block.now }
    requires clear { IsClear blocks.now p }
    requires tidy { IsTidy blocks.now p }
    ensures { MergeAnswer result blocks.now p block.now }
{
    match block.merge() {
        Some(merge) => match merge_rule(tables, blocks, p, block, merge) {
            Some(rule) => Some(Fault {
                rule,
                word: merge.word,
            }),
            None => None,
        },
        None => None,
    }
}

/// The word of the first merge instruction that does not stand directly before the terminator.
fn first_stray(block: &BasicBlock) -> Option<u32>
    ensures { StrayAnswer result block.now }
{
    let strays = block.strays();
    if strays.len() == 0 {
        return None;
    }
    Some(strays[0].word)
}

/// The first broken rule of a block, where nothing is broken before it.
fn block_fault(tables: &Tables, blocks: &[BasicBlock], p: usize) -> Option<Fault>
    requires small { length blocks.now < 2 ^ 32 }
    requires numbered { IsNumbered blocks.now }
    requires order { AreInOrder blocks.now }
    requires tables { AreTables blocks.now tables.now }
    requires within { p < length blocks.now }
    requires clear { IsClear blocks.now p }
    ensures { BlockAnswer result blocks.now p }
{
    let block = &blocks[p];
    if breaks_label(tables, blocks, p) {
        return Some(Fault {
            rule: 12,
            word: block.word(),
        });
    }
    match first_stray(block) {
        Some(word) => return Some(Fault { rule: 2, word }),
        None => {}
    }
    match merge_fault(tables, blocks, p, block) {
        Some(fault) => return Some(fault),
        None => {}
    }
    match end_rule(tables, blocks, p, block) {
        Some(rule) => Some(Fault {
            rule,
            word: block.end_word(),
        }),
        None => None,
    }
}

/// The first broken rule of all.
fn flow_fault(tables: &Tables, blocks: &[BasicBlock]) -> Option<Fault>
    requires small { length blocks.now < 2 ^ 32 }
    requires numbered { IsNumbered blocks.now }
    requires order { AreInOrder blocks.now }
    requires tables { AreTables blocks.now tables.now }
    ensures { FaultAnswer result blocks.now }
{
    for p in 0..blocks.len() {
        match block_fault(tables, blocks, p) {
            Some(fault) => return Some(fault),
            None => {}
        }
    }
    None
}

/// Checks the blocks of a function against the structure rules (SPIR-V 1.6, sections 2.11 and 2.16.1).
///
/// The blocks name each other by their numbers, and their words rise.
/// The answer is the broken rule of the least word, and there of the least number.
pub fn check_flow(alloc: Global, blocks: &[BasicBlock]) -> Result<(), CheckFault>
    requires small { length blocks.now < 2 ^ 32 }
    requires numbered { IsNumbered blocks.now }
    requires order { AreInOrder blocks.now }
    ensures { FlowAnswer result blocks.now }
{
    let tables = match Tables::new(alloc, blocks) {
        Ok(tables) => tables,
        Err(_) => return Err(CheckFault::OutOfMemory),
    };
    match flow_fault(&tables, blocks) {
        Some(fault) => Err(CheckFault::Refused {
            rule: WordRule::S(fault.rule),
            word: fault.word,
        }),
        None => Ok(()),
    }
}
