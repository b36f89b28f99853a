ghost use Rattle.std.specs.Prelude.{ℕ, ◌≡◌, ◌<◌, ◌||◌, ◌==◌, map, IfOk, OnOk};
ghost use Rattle.std.specs.List.{list_any};
ghost use Rattle.std.specs.Ordering.{nat_cmp};
ghost use Rattle.std.specs.BTreeMap as tree;
ghost use Rattle.profile_rules.specs.Rules as is;
ghost use Rattle.profile_rules.specs.Helping.{agrees_with, first_kept};

use crate::kinds::phi_kind;
use crate::sets::is_any_missing;
use dx_base::{List, Numbers, OutOfMemory};
use dxil_form::Operand;
use llvm_bodies::Line;
use llvm_layout::code::PHI;
use profile_tables::{Scope, entries_of, is_plain, is_same, operand_of};
use std::alloc::Global;
use std::collections::BTreeMap;

/// The blocks of some entries.
fn blocks_of(alloc: Global, entries: &[(u32, u32)]) -> Result<Numbers, OutOfMemory>
    ensures { IfOk result (λ blocks. blocks ≡ map (λ e. e.1) entries.now) }
{
    let mut blocks = List::new(alloc);
    for entry in entries {
        if blocks.push(entry.1).is_err() {
            return Err(OutOfMemory);
        }
    }
    Ok(blocks)
}

/// Whether an operand is that of the entries of its block before; the first one is kept.
fn agrees(
    firsts: &mut BTreeMap<u32, Operand>,
    block: u32,
    operand: Operand,
) -> Result<bool, OutOfMemory>
    ensures good { IfOk result (λ good. good ≡ agrees_with (tree.get nat_cmp firsts.old block) operand) }
    ensures keeps { OnOk result ((q : ℕ) → tree.get nat_cmp firsts.new q ≡ first_kept (tree.get nat_cmp firsts.old q) (block == q) operand) }
{
    if let Some(first) = firsts.get(&block).copied() {
        return Ok(is_same(first, operand));
    }
    match firsts.insert(block, operand) {
        Ok(_) => Ok(true),
        Err(_) => Err(OutOfMemory),
    }
}

/// Whether two entries of one block differ as operands.
fn are_at_odds(alloc: Global, scope: &Scope, entries: &[(u32, u32)]) -> Result<bool, OutOfMemory>
    ensures { IfOk result (λ odds. odds ≡ list_any (λ e. list_any (is.differ scope.now e) entries.now) entries.now) }
{
    let mut firsts = BTreeMap::new(alloc);
    for entry in entries {
        if !agrees(&mut firsts, entry.1, operand_of(scope, entry.0))? {
            return Ok(true);
        }
    }
    Ok(false)
}

/// Whether the entries do not name exactly the predecessors, or two of one block differ.
fn are_bad_entries(alloc: Global, scope: &Scope, line: &Line) -> Result<bool, OutOfMemory>
    requires { line.now.block < scope.now.blocks }
    ensures { IfOk result (λ bad. bad ≡ (is.has_stranger scope.now line.now || is.lacks_entry scope.now line.now || is.are_at_odds scope.now line.now)) }
{
    let entries = entries_of(alloc, line)?;
    let blocks = blocks_of(alloc, entries.as_slice())?;
    let froms = scope.froms(line.block);
    if is_any_missing(alloc, froms, blocks.as_slice())? {
        return Ok(true);
    }
    if is_any_missing(alloc, blocks.as_slice(), froms)? {
        return Ok(true);
    }
    are_at_odds(alloc, scope, entries.as_slice())
}

/// Whether a line breaks P5.
pub fn p5(alloc: Global, scope: &Scope, line: &Line) -> Result<bool, OutOfMemory>
    requires { line.now.block < scope.now.blocks }
    ensures { IfOk result (λ broken. broken ≡ is.p5 scope.now line.now) }
{
    if line.code as u64 != PHI {
        return Ok(false);
    }
    if !is_plain(phi_kind(scope, line)) {
        return Ok(true);
    }
    are_bad_entries(alloc, scope, line)
}
