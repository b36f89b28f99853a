ghost use Rattle.std.specs.Prelude.{◌≡◌, IfOk, OnOk, map};
ghost use Rattle.dxil_form.specs.Branches.{targets};
ghost use Rattle.spirv_code.specs.Exits as exits;
ghost use Rattle.spirv_code.specs.Needed as needed;
ghost use Rattle.spirv_code.specs.Needed.{AreWords, add_all, block_keys, entries_keys, numbers_keys, phi_keys, phis_keys, region_keys, regions_keys, slots_keys, tested_keys, want_keys};

use crate::lines::add_lines;
use crate::operands::add_operand;
use crate::table::{add, add_keys};
use dx_base::OutOfMemory;
use dxil_form::{Block, Entry, Phi, Program, Region, Term};
use indexmap::IndexSet;
use spirv_code::{Global, Slot, Sort, Storage, sort_of};
use std::alloc::Global as Alloc;

/// Notes what the entries of a phi name.
#[tactic(auto, using(crate::proofs::Adding::add_all_more))]
fn add_entries(
    table: &mut IndexSet<Global>,
    p: &Program,
    entries: &[Entry],
) -> Result<(), OutOfMemory>
    requires { AreWords p.now }
    ensures { OnOk result (table.new.keys ≡ add_all p.now table.old.keys (entries_keys entries.now)) }
{
    for entry in entries {
        add_operand(table, p, entry.value)?;
    }
    Ok(())
}

/// Notes what a phi names.
fn add_phi(table: &mut IndexSet<Global>, p: &Program, phi: &Phi) -> Result<(), OutOfMemory>
    requires { AreWords p.now }
    ensures { OnOk result (table.new.keys ≡ add_all p.now table.old.keys (phi_keys phi.now)) }
{
    add(table, p, Global::Plain(sort_of(phi.ty)))?;
    add_entries(table, p, phi.entries.as_slice())
}

/// Notes what phis name.
#[tactic(auto, using(crate::proofs::Adding::add_all_more))]
fn add_phis(table: &mut IndexSet<Global>, p: &Program, phis: &[Phi]) -> Result<(), OutOfMemory>
    requires { AreWords p.now }
    ensures { OnOk result (table.new.keys ≡ add_all p.now table.old.keys (phis_keys phis.now)) }
{
    for phi in phis {
        add_phi(table, p, phi)?;
    }
    Ok(())
}

/// Notes what a terminator tests.
fn add_tested(table: &mut IndexSet<Global>, p: &Program, term: &Term) -> Result<(), OutOfMemory>
    requires { AreWords p.now }
    ensures { OnOk result (table.new.keys ≡ add_all p.now table.old.keys (tested_keys (exits.tested term.now))) }
{
    match term {
        Term::If { cond, .. } => add_operand(table, p, *cond),
        Term::Switch { value, .. } => add_operand(table, p, *value),
        Term::Ret | Term::Unreachable | Term::Go(_) => Ok(()),
    }
}

/// Notes the numbers of the blocks that cases go to.
#[tactic(auto, using(crate::proofs::Adding::add_all_more))]
fn add_cases(
    table: &mut IndexSet<Global>,
    p: &Program,
    cases: &[(u32, u32)],
) -> Result<(), OutOfMemory>
    requires { AreWords p.now }
    ensures { OnOk result (table.new.keys ≡ add_all p.now table.old.keys (numbers_keys (map (λ c. c.1) cases.now))) }
{
    for case in cases {
        add(table, p, Global::Number(case.1))?;
    }
    Ok(())
}

/// Notes the numbers of the blocks that a terminator may go to.
fn add_targets(table: &mut IndexSet<Global>, p: &Program, term: &Term) -> Result<(), OutOfMemory>
    requires { AreWords p.now }
    ensures { OnOk result (table.new.keys ≡ add_all p.now table.old.keys (numbers_keys (targets term.now))) }
{
    match term {
        Term::Ret | Term::Unreachable => Ok(()),
        Term::Go(k) => add(table, p, Global::Number(*k)),
        Term::If { yes, no, .. } => {
            add_keys(table, p, &[Global::Number(*yes), Global::Number(*no)])
        }
        Term::Switch { default, cases, .. } => {
            add(table, p, Global::Number(*default))?;
            add_cases(table, p, cases.as_slice())
        }
    }
}

/// Notes how a block is left.
#[tactic(auto, using(crate::proofs::Adding::add_all_more))]
fn add_end(
    table: &mut IndexSet<Global>,
    p: &Program,
    wants: bool,
    term: &Term,
) -> Result<(), OutOfMemory>
    requires { AreWords p.now }
    ensures { OnOk result (table.new.keys ≡ add_all p.now table.old.keys (needed.end_keys wants term.now)) }
{
    add_tested(table, p, term)?;
    if wants {
        add_targets(table, p, term)
    } else {
        Ok(())
    }
}

/// Notes what a block names.
#[tactic(auto, using(crate::proofs::Adding::add_all_more))]
fn add_block(
    table: &mut IndexSet<Global>,
    p: &Program,
    wants: bool,
    block: &Block,
) -> Result<(), OutOfMemory>
    requires { AreWords p.now }
    ensures { OnOk result (table.new.keys ≡ add_all p.now table.old.keys (block_keys p.now wants block.now)) }
{
    add_phis(table, p, block.phis.as_slice())?;
    add_lines(table, p, block.instrs.as_slice())?;
    add_end(table, p, wants, &block.term)
}

/// Notes what a region names, without its parts.
fn add_region(
    table: &mut IndexSet<Global>,
    p: &Program,
    wants: bool,
    region: &Region,
) -> Result<(), OutOfMemory>
    requires { AreWords p.now }
    ensures { OnOk result (table.new.keys ≡ add_all p.now table.old.keys (region_keys p.now wants region.now)) }
{
    match region {
        Region::Leaf { block } => match p.blocks.get(*block as usize) {
            Some(block) => add_block(table, p, wants, block),
            None => Ok(()),
        },
        Region::Then { target, .. } => add(table, p, Global::Number(*target)),
        Region::Loop { head, .. } => add(table, p, Global::Number(*head)),
        Region::Dispatch { .. } | Region::Arms { .. } => Ok(()),
    }
}

/// Notes what regions name.
#[tactic(auto, using(crate::proofs::Adding::add_all_more))]
fn add_regions(
    table: &mut IndexSet<Global>,
    p: &Program,
    wants: bool,
    list: &[Region],
) -> Result<(), OutOfMemory>
    requires { AreWords p.now }
    ensures { OnOk result (table.new.keys ≡ add_all p.now table.old.keys (regions_keys p.now wants list.now)) }
{
    for region in list {
        add_region(table, p, wants, region)?;
    }
    Ok(())
}

/// Notes what a test names whether a block is wanted, and the number for no block.
fn add_want(table: &mut IndexSet<Global>, p: &Program, wants: bool) -> Result<(), OutOfMemory>
    requires { AreWords p.now }
    ensures { OnOk result (table.new.keys ≡ add_all p.now table.old.keys (want_keys p.now wants)) }
{
    if !wants {
        return Ok(());
    }
    let none = Global::Number(p.blocks.len() as u32);
    add_keys(
        table,
        p,
        &[Global::Plain(Sort::Int), Global::Plain(Sort::Bool), none],
    )
}

/// Notes what a variable names: the type of a pointer to it, and its first value.
fn add_slot(table: &mut IndexSet<Global>, p: &Program, slot: Slot) -> Result<(), OutOfMemory>
    requires { AreWords p.now }
    ensures { OnOk result (table.new.keys ≡ add_all p.now table.old.keys (needed.slot_keys slot)) }
{
    let storage = Storage::Function;
    let (to, start) = match slot {
        Slot::Next { truth: true, .. } | Slot::Kept { truth: true, .. } => {
            (Sort::Bool, Global::Truth(false))
        }
        _ => (Sort::Int, Global::Number(0)),
    };
    add_keys(table, p, &[Global::Pointer { storage, to }, start])
}

/// Notes what variables name.
#[tactic(auto, using(crate::proofs::Adding::add_all_more))]
fn add_slots(table: &mut IndexSet<Global>, p: &Program, slots: &[Slot]) -> Result<(), OutOfMemory>
    requires { AreWords p.now }
    ensures { OnOk result (table.new.keys ≡ add_all p.now table.old.keys (slots_keys slots.now)) }
{
    for slot in slots {
        add_slot(table, p, *slot)?;
    }
    Ok(())
}

/// What the module of a program declares, with its regions and these variables of the function; `wants` tells whether any block is ever wanted.
#[tactic(auto, using(crate::proofs::Adding::add_all_more))]
pub fn table_of(
    alloc: Alloc,
    p: &Program,
    list: &[Region],
    wants: bool,
    slots: &[Slot],
) -> Result<IndexSet<Global>, OutOfMemory>
    requires { AreWords p.now }
    ensures { IfOk result (λ table. table.keys ≡ needed.table_of p.now list.now wants slots.now) }
{
    let mut table = IndexSet::new(alloc);
    add_slots(&mut table, p, slots)?;
    add_want(&mut table, p, wants)?;
    add_regions(&mut table, p, wants, list)?;
    Ok(table)
}
