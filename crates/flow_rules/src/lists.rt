//! The lists of spans from which the tables of the structure rules are made.

ghost use Rattle.std.specs.Prelude.{◌≡◌, ◌∷◌, ◌++◌, [], ◌<◌, ◌≤◌, ◌^◌, ℕ, List as Seq, length, slice_index, Contains, OnOk, IfOk, None, Some};
ghost use Rattle.flow_rules.specs.Blocks.{BasicBlock as Block};
ghost use Rattle.flow_rules.specs.Flow.{At};
ghost use Rattle.flow_rules.specs.Rules.{IsNumbered};
ghost use Rattle.flow_rules.specs.Lists.{EdgeOf, NestedOf, RowOf, LeftOf, CaseFrom, BackOf, BackTo, HeaderOf, BodyOf, ContinueOf, LoopOf, SelectionOf, SwitchOf, IsSpanOf, with_span, TargetOf, BackTarget, BackSource, Extends, Between, BetweenStep, CaseAt, CasesTo, FromSpan, Starts, OfFamily, Lists, SpanOf};

use crate::block::{BasicBlock, MergeKind, Terminator};
use dx_base::OutOfMemory;
use flow_scans::Span;
use std::alloc::Global;

/// Which spans are listed: edges, or rows of blocks.
#[derive(Clone, Copy)]
pub enum Family {
    /// Structural edges.
    Edges,
    /// From each header to its merge block.
    Headers,
    /// Back edges.
    Backs,
    /// Back edges the other way round.
    Returns,
    /// Rows that begin at their header or behind it: those of a header up to its merge block, loop constructs and case constructs.
    Nested,
    /// All rows.
    Rows,
    /// The constructs that end at their merge block: selection constructs and continue constructs.
    Lefts,
    /// Loop constructs.
    Bodies,
    Loops,
    /// The selection constructs of switches.
    Switches,
    /// From the first case construct of a switch to each of them.
    CaseFroms,
}

/// From a header to its merge block.
pub(crate) fn header_of(p: u32, block: &BasicBlock) -> Option<Span>
    ensures { (bs : Seq Block) → At bs p block.now → IsSpanOf result (HeaderOf bs p) }
{
    let merge = block.merge()?;
    Some(Span {
        first: p,
        end: merge.merge_block,
    })
}

/// From a loop header to its continue target.
pub(crate) fn body_of(p: u32, block: &BasicBlock) -> Option<Span>
    ensures { (bs : Seq Block) → At bs p block.now → IsSpanOf result (BodyOf bs p) }
{
    let merge = block.merge()?;
    match merge.kind {
        MergeKind::Loop { continue_target } => Some(Span {
            first: p,
            end: continue_target,
        }),
        MergeKind::Selection => None,
    }
}

/// From a loop's continue target to its merge block.
pub(crate) fn continue_of(p: u32, block: &BasicBlock) -> Option<Span>
    ensures { (bs : Seq Block) → At bs p block.now → IsSpanOf result (ContinueOf bs p) }
{
    let merge = block.merge()?;
    match merge.kind {
        MergeKind::Loop { continue_target } => Some(Span {
            first: continue_target,
            end: merge.merge_block,
        }),
        MergeKind::Selection => None,
    }
}

/// From a loop header to its merge block.
pub(crate) fn loop_of(p: u32, block: &BasicBlock) -> Option<Span>
    ensures { (bs : Seq Block) → At bs p block.now → IsSpanOf result (LoopOf bs p) }
{
    let merge = block.merge()?;
    match merge.kind {
        MergeKind::Loop { .. } => Some(Span {
            first: p,
            end: merge.merge_block,
        }),
        MergeKind::Selection => None,
    }
}

/// From a header with a SelectionMerge to its merge block.
pub(crate) fn selection_of(p: u32, block: &BasicBlock) -> Option<Span>
    ensures { (bs : Seq Block) → At bs p block.now → IsSpanOf result (SelectionOf bs p) }
{
    let merge = block.merge()?;
    match merge.kind {
        MergeKind::Selection => Some(Span {
            first: p,
            end: merge.merge_block,
        }),
        MergeKind::Loop { .. } => None,
    }
}

/// From the header of a switch to its merge block.
pub(crate) fn switch_of(p: u32, block: &BasicBlock) -> Option<Span>
    ensures { (bs : Seq Block) → At bs p block.now → IsSpanOf result (SwitchOf bs p) }
{
    match block.terminator() {
        Terminator::Switch => selection_of(p, block),
        _ => None,
    }
}

fn push_one(spans: &mut Vec<Span>, first: u32, end: u32) -> Result<(), OutOfMemory>
    ensures { OnOk result (spans.new.items ≡ spans.old.items ++ record { first = first; end = end } ∷ []) }
{
    match spans.push(Span { first, end }) {
        Ok(()) => Ok(()),
        Err(_) => Err(OutOfMemory),
    }
}

fn push_span(spans: &mut Vec<Span>, span: Option<Span>) -> Result<(), OutOfMemory>
    ensures { OnOk result (spans.new.items ≡ with_span spans.old.items span) }
{
    match span {
        Some(span) => push_one(spans, span.first, span.end),
        None => Ok(()),
    }
}

fn push_targets(spans: &mut Vec<Span>, p: u32, targets: &[u32]) -> Result<(), OutOfMemory>
    ensures { OnOk result (Extends (TargetOf p targets.now) spans.old.items spans.new.items) }
{
    for target in targets {
        push_one(spans, p, *target)?;
    }
    Ok(())
}

fn push_backs(spans: &mut Vec<Span>, p: u32, targets: &[u32]) -> Result<(), OutOfMemory>
    ensures { OnOk result (Extends (BackTarget p targets.now) spans.old.items spans.new.items) }
{
    for target in targets {
        if *target <= p {
            push_one(spans, p, *target)?;
        }
    }
    Ok(())
}

fn push_returns(spans: &mut Vec<Span>, p: u32, targets: &[u32]) -> Result<(), OutOfMemory>
    ensures { OnOk result (Extends (BackSource p targets.now) spans.old.items spans.new.items) }
{
    for target in targets {
        if *target <= p {
            push_one(spans, *target, p)?;
        }
    }
    Ok(())
}

fn push_between(found: &mut Vec<u32>, target: u32, low: u32, high: u32) -> Result<(), OutOfMemory>
    ensures { OnOk result (BetweenStep low high target found.old.items found.new.items) }
{
    if target <= low || target >= high {
        return Ok(());
    }
    match found.push(target) {
        Ok(()) => Ok(()),
        Err(_) => Err(OutOfMemory),
    }
}

/// The numbers between two others, in order.
fn between(alloc: Global, targets: &[u32], low: u32, high: u32) -> Result<Vec<u32>, OutOfMemory>
    ensures { IfOk result (λ v. Between targets.now low high v.items) }
{
    let mut found = Vec::with_capacity(alloc, targets.len()).map_err(|_| OutOfMemory)?;
    for target in targets {
        push_between(&mut found, *target, low, high)?;
    }
    match found.sort() {
        Ok(()) => Ok(found),
        Err(_) => Err(OutOfMemory),
    }
}

/// The first blocks of the case constructs of a switch, in order, and the end of the last one.
#[derive(Drop)]
pub(crate) struct CaseStarts {
    starts: Vec<u32>,
    last: u32,
}

fn case_starts(alloc: Global, p: u32, block: &BasicBlock) -> Result<CaseStarts, OutOfMemory>
    ensures { IfOk result (λ v. (bs : Seq Block) → At bs p block.now → Starts bs p v.starts.items v.last) }
{
    match switch_of(p, block) {
        Some(span) => {
            let starts = between(alloc, block.targets(), p, span.end)?;
            Ok(CaseStarts {
                starts,
                last: span.end,
            })
        }
        None => Ok(CaseStarts {
            starts: Vec::new(alloc),
            last: 0,
        }),
    }
}

/// The case construct that begins at one of the starts.
fn case_at(starts: &[u32], i: usize, last: u32) -> Option<Span>
    requires { i < length starts.now }
    ensures { IsSpanOf result (CaseAt starts.now last i) }
{
    let first = starts[i];
    let end = match starts.get(i + 1) {
        Some(next) => *next,
        None => last,
    };
    if first < end {
        Some(Span { first, end })
    } else {
        None
    }
}

/// Puts a case construct for each of its starts.
fn push_cases(spans: &mut Vec<Span>, starts: &[u32], last: u32) -> Result<(), OutOfMemory>
    ensures { OnOk result (Extends (CasesTo starts.now last (length starts.now)) spans.old.items spans.new.items) }
{
    for i in 0..starts.len() {
        push_span(spans, case_at(starts, i, last))?;
    }
    Ok(())
}

/// Puts the ways from the first of the starts to each.
fn push_froms(spans: &mut Vec<Span>, starts: &[u32]) -> Result<(), OutOfMemory>
    ensures { OnOk result (Extends (FromSpan starts.now) spans.old.items spans.new.items) }
{
    if starts.is_empty() {
        return Ok(());
    }
    push_targets(spans, starts[0], starts)?;
    Ok(())
}

/// Puts the structural edges of a block.
fn push_edges(spans: &mut Vec<Span>, p: u32, block: &BasicBlock) -> Result<(), OutOfMemory>
    ensures { OnOk result ((bs : Seq Block) → At bs p block.now → Extends (EdgeOf bs p) spans.old.items spans.new.items) }
{
    push_targets(spans, p, block.targets())?;
    push_span(spans, header_of(p, block))?;
    push_span(spans, body_of(p, block))?;
    Ok(())
}

/// Puts the rows of a header that begin at it or behind it.
fn push_nested(
    alloc: Global,
    spans: &mut Vec<Span>,
    p: u32,
    block: &BasicBlock,
) -> Result<(), OutOfMemory>
    ensures { OnOk result ((bs : Seq Block) → At bs p block.now → Extends (NestedOf bs p) spans.old.items spans.new.items) }
{
    push_span(spans, header_of(p, block))?;
    push_span(spans, body_of(p, block))?;
    let cases = case_starts(alloc, p, block)?;
    push_cases(spans, &cases.starts, cases.last)?;
    Ok(())
}

/// Puts the rows of a header.
fn push_rows(
    alloc: Global,
    spans: &mut Vec<Span>,
    p: u32,
    block: &BasicBlock,
) -> Result<(), OutOfMemory>
    ensures { OnOk result ((bs : Seq Block) → At bs p block.now → Extends (RowOf bs p) spans.old.items spans.new.items) }
{
    push_nested(alloc, spans, p, block)?;
    push_span(spans, continue_of(p, block))?;
    Ok(())
}

/// Puts the constructs of a header that end at their merge block.
fn push_lefts(spans: &mut Vec<Span>, p: u32, block: &BasicBlock) -> Result<(), OutOfMemory>
    ensures { OnOk result ((bs : Seq Block) → At bs p block.now → Extends (LeftOf bs p) spans.old.items spans.new.items) }
{
    push_span(spans, selection_of(p, block))?;
    push_span(spans, continue_of(p, block))?;
    Ok(())
}

/// Puts the ways from the first case construct of a switch to each.
fn push_case_froms(
    alloc: Global,
    spans: &mut Vec<Span>,
    p: u32,
    block: &BasicBlock,
) -> Result<(), OutOfMemory>
    ensures { OnOk result ((bs : Seq Block) → At bs p block.now → Extends (CaseFrom bs p) spans.old.items spans.new.items) }
{
    let cases = case_starts(alloc, p, block)?;
    push_froms(spans, &cases.starts)?;
    Ok(())
}

/// Puts the spans of a block in a family.
fn push_family(
    alloc: Global,
    family: Family,
    spans: &mut Vec<Span>,
    p: u32,
    block: &BasicBlock,
) -> Result<(), OutOfMemory>
    ensures { OnOk result ((bs : Seq Block) → At bs p block.now → Extends (OfFamily bs family p) spans.old.items spans.new.items) }
{
    match family {
        Family::Edges => push_edges(spans, p, block)?,
        Family::Headers => push_span(spans, header_of(p, block))?,
        Family::Backs => push_backs(spans, p, block.targets())?,
        Family::Returns => push_returns(spans, p, block.targets())?,
        Family::Nested => push_nested(alloc, spans, p, block)?,
        Family::Rows => push_rows(alloc, spans, p, block)?,
        Family::Lefts => push_lefts(spans, p, block)?,
        Family::Bodies => push_span(spans, body_of(p, block))?,
        Family::Loops => push_span(spans, loop_of(p, block))?,
        Family::Switches => push_span(spans, switch_of(p, block))?,
        Family::CaseFroms => push_case_froms(alloc, spans, p, block)?,
    }
    Ok(())
}

/// How many spans a block has at most in one family: one for each target, and three more where it is a header.
fn most_spans(block: &BasicBlock) -> usize {
    let rows = if block.merge().is_some() { 3 } else { 0 };
    block.targets().len().saturating_add(rows)
}

/// All spans of a family.
pub(crate) fn spans_of(
    alloc: Global,
    family: Family,
    blocks: &[BasicBlock],
) -> Result<Vec<Span>, OutOfMemory>
    requires { length blocks.now < 2 ^ 32 }
    ensures { IfOk result (λ v. Lists (SpanOf (OfFamily blocks.now family)) v.items) }
{
    let most = blocks.iter().fold(0usize, |most, block| {
        most.saturating_add(most_spans(block))
    });
    let mut spans = Vec::with_capacity(alloc, most).map_err(|_| OutOfMemory)?;
    for p in 0..blocks.len() {
        push_family(alloc, family, &mut spans, p as u32, &blocks[p])?;
    }
    Ok(spans)
}
