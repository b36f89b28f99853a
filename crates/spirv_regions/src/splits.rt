ghost use Rattle.std.specs.Prelude.{◌≡◌, ◌++◌, ◌∷◌, ◌+◌, ◌≤◌, take, drop, OnOk, length};
ghost use Rattle.spirv_code.specs.Exits as exits;
ghost use Rattle.spirv_code.specs.Exits.{case_targets, chunk_code, chunks_code, chunk_meet, split_code};
ghost use Rattle.spirv_table.specs.Tables.{AreFew};
ghost use Rattle.spirv_emit.specs.Scenes.{context_in};

use crate::choices::{Ways, setters, switch_to, want};
use crate::ways::{MOST_PAIRS, case_blocks};
use dx_base::OutOfMemory;
use dxil_form::Term;
use indexmap::{IndexMap, IndexSet};
use spirv_code::Slot;
use spirv_emit::{Code, Scene};
use spv_form::op;
use std::alloc::Global;

/// Writes the selection by some cases. It tests what the variable `Pick` holds, and its ways meet at this label.
#[tactic(auto, using(crate::proofs::Selections::plain_switch))]
fn chunk_head(
    alloc: Global,
    code: &mut Code,
    s: &Scene,
    meet: u32,
    blocks: &IndexSet<u32>,
    cases: &[(u32, u32)],
) -> Result<(), OutOfMemory>
    requires few { AreFew s.now.tables.now }
    requires blocks { length blocks.now.keys ≤ 0x0001_0000 }
    requires meet { meet ≡ chunk_meet (context_in s.now) (length code.old) blocks.now.keys }
    ensures code { OnOk result (code.new ≡ code.old ++ exits.chunk_head (context_in s.now) (length code.old) cases.now blocks.now.keys) }
    ensures size { OnOk result (length code.new ≡ length code.old + 3) }
{
    let labels = IndexMap::new(alloc);
    let value = s.next(code);
    let ways = Ways {
        labels: &labels,
        loose: blocks,
        first: value + 3,
    };
    code.push(op::LOAD, &[s.int(), value, s.variable(Slot::Pick)])?;
    code.push(op::SELECTION_MERGE, &[meet, 0])?;
    let inst = switch_to(alloc, value, meet, &ways, cases)?;
    code.push_inst(inst)
}

/// Writes the selection by some cases, and its setters.
fn chunk(alloc: Global, code: &mut Code, s: &Scene, cases: &[(u32, u32)]) -> Result<(), OutOfMemory>
    requires few { AreFew s.now.tables.now }
    requires cases { length cases.now ≤ 16383 }
    ensures { OnOk result (code.new ≡ code.old ++ chunk_code (context_in s.now) (length code.old) cases.now (case_targets cases.now)) }
{
    let blocks = case_blocks(alloc, cases)?;
    let meet = s.next(code) + (3 + 3 * blocks.len() as u32);
    chunk_head(alloc, code, s, meet, &blocks, cases)?;
    setters(code, s, meet, blocks.as_slice())?;
    code.push(op::LABEL, &[meet])
}

/// The cases that one selection takes, and those behind them.
fn split_front(cases: &[(u32, u32)]) -> (&[(u32, u32)], &[(u32, u32)])
    ensures front { result.0.now ≡ take 16383 cases.now }
    ensures rest { result.1.now ≡ drop 16383 cases.now }
    ensures few { length result.0.now ≤ 16383 }
{
    if cases.len() <= MOST_PAIRS {
        cases.split_at(cases.len())
    } else {
        cases.split_at(MOST_PAIRS)
    }
}

/// Writes so many chunks of cases.
fn chunks(
    alloc: Global,
    code: &mut Code,
    s: &Scene,
    n: usize,
    cases: &[(u32, u32)],
) -> Result<(), OutOfMemory>
    requires few { AreFew s.now.tables.now }
    ensures { OnOk result (code.new ≡ code.old ++ chunks_code (context_in s.now) (length code.old) n cases.now) }
{
    if n == 0 {
        return Ok(());
    }
    let (front, rest) = split_front(cases);
    chunk(alloc, code, s, front)?;
    chunks(alloc, code, s, n - 1, rest)
}

/// How many selections so many cases take.
fn chunk_count(cases: usize) -> usize
    ensures { result ≡ exits.chunk_count cases }
{
    let whole = cases / MOST_PAIRS;
    if cases % MOST_PAIRS == 0 {
        whole
    } else {
        whole + 1
    }
}

/// Stores the value to pick by, which has this id, and the default, which is wanted unless a case is the value.
fn split_head(code: &mut Code, s: &Scene, id: u32, default: u32) -> Result<(), OutOfMemory>
    requires few { AreFew s.now.tables.now }
    ensures code { OnOk result (code.new ≡ code.old ++ exits.split_head (context_in s.now) id default) }
    ensures size { OnOk result (length code.new ≡ length code.old + 2) }
{
    code.push(op::STORE, &[s.variable(Slot::Pick), id])?;
    want(code, s, default)
}

/// Writes a switch of many cases: `id` is that of the value that it tests.
pub fn split(
    alloc: Global,
    code: &mut Code,
    s: &Scene,
    id: u32,
    term: &Term,
) -> Result<(), OutOfMemory>
    requires few { AreFew s.now.tables.now }
    ensures { OnOk result (code.new ≡ code.old ++ split_code (context_in s.now) (length code.old) id term.now) }
{
    match term {
        Term::Switch { default, cases, .. } => {
            split_head(code, s, id, *default)?;
            chunks(alloc, code, s, chunk_count(cases.len()), cases.as_slice())
        }
        Term::Ret | Term::Unreachable | Term::Go(_) | Term::If { .. } => Ok(()),
    }
}
