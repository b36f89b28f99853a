//! The tables from which the structure rules are answered, each of one number a block.

ghost use Rattle.std.specs.Prelude.{◌≡◌, ◌+◌, ◌-◌, ◌<◌, ◌≤◌, ◌^◌, ℕ, length, slice_index, IfOk};
ghost use Rattle.flow_rules.specs.Flow.{At};
ghost use Rattle.flow_rules.specs.Rules.{IsNumbered};
ghost use Rattle.flow_rules.specs.Lists.{OfFamily, SpanOf, LeastTable, GreatestTable, EndTable, OverTable, AreHighs, AreLows, IsHigh, IsLow, IsLowTo, HighTo, AreEdgeTables, AreRowTables, AreConstructTables, AreTables};

use crate::block::{BasicBlock, Terminator};
use crate::lists::{Family, spans_of};
use dx_base::OutOfMemory;
use flow_scans::{
    RangeMax, Runs, first_ends, greatest_ends, last_holders, last_overs, least_firsts,
};
use std::alloc::Global;

/// Numbers for each block.
#[derive(Drop)]
pub struct Tables {
    /// The first block with a structural edge to it.
    pub(crate) sources: Runs,
    /// The first header whose merge block it is.
    pub(crate) mergers: Runs,
    /// The first block with a back edge to it.
    pub(crate) first_backs: Runs,
    /// The last block with a back edge to it.
    pub(crate) last_backs: Runs,
    /// The first end of a row around it that begins at or behind its header.
    pub(crate) nested_ends: Runs,
    /// The first end of a row around it.
    pub(crate) row_ends: Runs,
    /// The last row around it.
    pub(crate) row_overs: Runs,
    /// The first end of a selection or continue construct that holds it.
    pub(crate) left_ends: Runs,
    /// The first end of a loop construct that holds it.
    pub(crate) body_ends: Runs,
    /// The last loop that holds it.
    pub(crate) loops: Runs,
    /// The last switch whose selection construct holds it.
    pub(crate) switches: Runs,
    /// The first case construct of a switch that has one which begins at it.
    pub(crate) case_froms: Runs,
    /// How far its least target lies below the greatest number.
    pub(crate) lows: RangeMax,
    /// Its greatest target.
    pub(crate) highs: RangeMax,
}

/// The tables of edges.
#[derive(Drop)]
struct EdgeTables {
    pub(crate) sources: Runs,
    pub(crate) first_backs: Runs,
    pub(crate) last_backs: Runs,
    pub(crate) lows: RangeMax,
    pub(crate) highs: RangeMax,
}

/// The tables of headers and of their rows.
#[derive(Drop)]
struct RowTables {
    pub(crate) mergers: Runs,
    pub(crate) nested_ends: Runs,
    pub(crate) row_ends: Runs,
    pub(crate) row_overs: Runs,
    pub(crate) case_froms: Runs,
}

/// The tables of the constructs and loops that hold a block.
#[derive(Drop)]
struct ConstructTables {
    pub(crate) left_ends: Runs,
    pub(crate) body_ends: Runs,
    pub(crate) loops: Runs,
    pub(crate) switches: Runs,
}

/// The table as runs, since most of its numbers are those of the block before.
fn kept(alloc: Global, table: Vec<u32>) -> Result<Runs, OutOfMemory>
    requires { length table.items < 2 ^ 32 }
    ensures { IfOk result (λ runs. runs ≡ table.items) }
{
    Runs::of(alloc, table.as_slice())
}

fn least_table(alloc: Global, family: Family, blocks: &[BasicBlock]) -> Result<Runs, OutOfMemory>
    requires small { length blocks.now < 2 ^ 32 }
    requires numbered { IsNumbered blocks.now }
    ensures { IfOk result (λ v. LeastTable (SpanOf (OfFamily blocks.now family)) (length blocks.now) v) }
{
    let spans = spans_of(alloc, family, blocks)?;
    let table = least_firsts(alloc, &spans, blocks.len())?;
    let runs = kept(alloc, table)?;
    Ok(runs)
}

fn greatest_table(alloc: Global, family: Family, blocks: &[BasicBlock]) -> Result<Runs, OutOfMemory>
    requires small { length blocks.now < 2 ^ 32 }
    requires numbered { IsNumbered blocks.now }
    ensures { IfOk result (λ v. GreatestTable (SpanOf (OfFamily blocks.now family)) (length blocks.now) v) }
{
    let spans = spans_of(alloc, family, blocks)?;
    let table = greatest_ends(alloc, &spans, blocks.len())?;
    let runs = kept(alloc, table)?;
    Ok(runs)
}

fn end_table(
    alloc: Global,
    family: Family,
    blocks: &[BasicBlock],
    gap: u32,
) -> Result<Runs, OutOfMemory>
    requires small { length blocks.now < 2 ^ 32 }
    requires numbered { IsNumbered blocks.now }
    ensures { IfOk result (λ v. EndTable (SpanOf (OfFamily blocks.now family)) gap (length blocks.now) v) }
{
    let spans = spans_of(alloc, family, blocks)?;
    let table = first_ends(alloc, &spans, blocks.len(), gap)?;
    let runs = kept(alloc, table)?;
    Ok(runs)
}

fn over_table(alloc: Global, family: Family, blocks: &[BasicBlock]) -> Result<Runs, OutOfMemory>
    requires small { length blocks.now < 2 ^ 32 }
    requires numbered { IsNumbered blocks.now }
    ensures { IfOk result (λ v. OverTable (SpanOf (OfFamily blocks.now family)) 1 (length blocks.now) v) }
{
    let spans = spans_of(alloc, family, blocks)?;
    let table = last_overs(alloc, &spans, blocks.len())?;
    let runs = kept(alloc, table)?;
    Ok(runs)
}

fn holder_table(alloc: Global, family: Family, blocks: &[BasicBlock]) -> Result<Runs, OutOfMemory>
    requires small { length blocks.now < 2 ^ 32 }
    requires numbered { IsNumbered blocks.now }
    ensures { IfOk result (λ v. OverTable (SpanOf (OfFamily blocks.now family)) 0 (length blocks.now) v) }
{
    let spans = spans_of(alloc, family, blocks)?;
    let table = last_holders(alloc, &spans, blocks.len())?;
    let runs = kept(alloc, table)?;
    Ok(runs)
}

/// The greatest of some targets, or 0 where there is none.
fn greatest_of(targets: &[u32]) -> u32
    ensures { HighTo targets.now result }
{
    let mut high = 0;
    for target in targets {
        high = high.max(*target);
    }
    high
}

/// How far the least of some targets lies below `u32::MAX`, or 0 where there is none.
fn depth_of(targets: &[u32]) -> u32
    ensures { IsLowTo targets.now result }
{
    let mut low = 0;
    for target in targets {
        low = low.max(u32::MAX - *target);
    }
    low
}

/// The greatest target of a block, or `u32::MAX` where it returns.
fn high_of(block: &BasicBlock) -> u32
    ensures { IsHigh block.now result }
{
    match block.terminator() {
        Terminator::Return => u32::MAX,
        _ => greatest_of(block.targets()),
    }
}

/// How far the least target of a block lies below `u32::MAX`, or 0 where there is none.
fn low_of(block: &BasicBlock) -> u32
    ensures { IsLow block.now result }
{
    depth_of(block.targets())
}

fn highs(alloc: Global, blocks: &[BasicBlock]) -> Result<RangeMax, OutOfMemory>
    requires { length blocks.now < 2 ^ 32 }
    ensures { IfOk result (λ v. AreHighs blocks.now v) }
{
    let mut values = match Vec::with_capacity(alloc, blocks.len()) {
        Ok(values) => values,
        Err(_) => return Err(OutOfMemory),
    };
    for p in 0..blocks.len() {
        match values.push(high_of(&blocks[p])) {
            Ok(()) => {}
            Err(_) => return Err(OutOfMemory),
        }
    }
    let table = RangeMax::new(alloc, values)?;
    Ok(table)
}

fn lows(alloc: Global, blocks: &[BasicBlock]) -> Result<RangeMax, OutOfMemory>
    requires { length blocks.now < 2 ^ 32 }
    ensures { IfOk result (λ v. AreLows blocks.now v) }
{
    let mut values = match Vec::with_capacity(alloc, blocks.len()) {
        Ok(values) => values,
        Err(_) => return Err(OutOfMemory),
    };
    for p in 0..blocks.len() {
        match values.push(low_of(&blocks[p])) {
            Ok(()) => {}
            Err(_) => return Err(OutOfMemory),
        }
    }
    let table = RangeMax::new(alloc, values)?;
    Ok(table)
}

fn edge_tables(alloc: Global, blocks: &[BasicBlock]) -> Result<EdgeTables, OutOfMemory>
    requires small { length blocks.now < 2 ^ 32 }
    requires numbered { IsNumbered blocks.now }
    ensures { IfOk result (λ t. AreEdgeTables blocks.now t) }
{
    let sources = least_table(alloc, Family::Edges, blocks)?;
    let first_backs = least_table(alloc, Family::Backs, blocks)?;
    let last_backs = greatest_table(alloc, Family::Returns, blocks)?;
    let lows = lows(alloc, blocks)?;
    let highs = highs(alloc, blocks)?;
    Ok(EdgeTables {
        sources,
        first_backs,
        last_backs,
        lows,
        highs,
    })
}

fn row_tables(alloc: Global, blocks: &[BasicBlock]) -> Result<RowTables, OutOfMemory>
    requires small { length blocks.now < 2 ^ 32 }
    requires numbered { IsNumbered blocks.now }
    ensures { IfOk result (λ t. AreRowTables blocks.now t) }
{
    let mergers = least_table(alloc, Family::Headers, blocks)?;
    let nested_ends = end_table(alloc, Family::Nested, blocks, 1)?;
    let row_ends = end_table(alloc, Family::Rows, blocks, 1)?;
    let row_overs = over_table(alloc, Family::Rows, blocks)?;
    let case_froms = least_table(alloc, Family::CaseFroms, blocks)?;
    Ok(RowTables {
        mergers,
        nested_ends,
        row_ends,
        row_overs,
        case_froms,
    })
}

fn construct_tables(alloc: Global, blocks: &[BasicBlock]) -> Result<ConstructTables, OutOfMemory>
    requires small { length blocks.now < 2 ^ 32 }
    requires numbered { IsNumbered blocks.now }
    ensures { IfOk result (λ t. AreConstructTables blocks.now t) }
{
    let left_ends = end_table(alloc, Family::Lefts, blocks, 0)?;
    let body_ends = end_table(alloc, Family::Bodies, blocks, 0)?;
    let loops = holder_table(alloc, Family::Loops, blocks)?;
    let switches = holder_table(alloc, Family::Switches, blocks)?;
    Ok(ConstructTables {
        left_ends,
        body_ends,
        loops,
        switches,
    })
}

impl Tables {
    /// Makes the tables of these blocks.
    pub fn new(alloc: Global, blocks: &[BasicBlock]) -> Result<Tables, OutOfMemory>
        requires small { length blocks.now < 2 ^ 32 }
        requires numbered { IsNumbered blocks.now }
        ensures { IfOk result (λ t. AreTables blocks.now t) }
    {
        let edges = edge_tables(alloc, blocks)?;
        let rows = row_tables(alloc, blocks)?;
        let constructs = construct_tables(alloc, blocks)?;
        Ok(Tables {
            sources: edges.sources,
            mergers: rows.mergers,
            first_backs: edges.first_backs,
            last_backs: edges.last_backs,
            nested_ends: rows.nested_ends,
            row_ends: rows.row_ends,
            row_overs: rows.row_overs,
            left_ends: constructs.left_ends,
            body_ends: constructs.body_ends,
            loops: constructs.loops,
            switches: constructs.switches,
            case_froms: rows.case_froms,
            lows: edges.lows,
            highs: edges.highs,
        })
    }
}
