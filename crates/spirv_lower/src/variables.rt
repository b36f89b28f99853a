ghost use Rattle.std.specs.Prelude.{◌≡◌, ◌∷◌, ◌||◌, [], map, false, IfOk, OnOk};
ghost use Rattle.std.specs.List.{flat_map};
ghost use Rattle.dxil_form.specs.Registers.{part_of, parts_of, reads};
ghost use Rattle.dxil_form.specs.declared.value.Ty.TheVariants as types;
ghost use Rattle.spirv_code.specs.Plans.{kept};
ghost use Rattle.spirv_code.specs.Further as further;
ghost use Rattle.spirv_code.specs.Further.{add_slots, access_sets, behind_lines, block_slots, end_slots, further_slots, line_slots, lines_slots, named_all, want_slots};
ghost use Rattle.chosen_plan.specs.Chosen as chosen;
ghost use Rattle.chosen_plan.specs.Chosen.{cross_variable, phi_variables, register_variables};

use crate::passing::{picks, wants};
use dx_base::{List, OutOfMemory};
use dxil_form::{Block, Instr, Operand, Program, Reg, Region, Term, Ty};
use indexmap::IndexSet;
use phi_demotion::{CrossSlot, OperandList, PhiSlot, Slots, keep_end, keep_line};
use spirv_code::{PARTS, Slot, has_part};
use spirv_emit::{coming_slot, kept_slot};
use std::alloc::Global;

/// Notes a variable, unless it stands already.
#[tactic(auto, using(crate::proofs::Adding::add_same))]
fn add(slots: &mut IndexSet<Slot>, slot: Slot) -> Result<(), OutOfMemory>
    ensures { OnOk result (slots.new.keys ≡ add_slots slots.old.keys (slot ∷ [])) }
{
    match slots.insert(slot) {
        Ok(_) => Ok(()),
        Err(_) => Err(OutOfMemory),
    }
}

/// Notes the variables of registers that operands name.
#[tactic(auto, using(crate::proofs::Adding::add_slots_more))]
fn add_named(slots: &mut IndexSet<Slot>, operands: &[Operand]) -> Result<(), OutOfMemory>
    ensures { OnOk result (slots.new.keys ≡ add_slots slots.old.keys (named_all operands.now)) }
{
    for operand in operands {
        if let Operand::Reg { reg, ty } = *operand {
            add(slots, kept_slot(reg, ty))?;
        }
    }
    Ok(())
}

/// Notes the variables of the registers that an instruction reads.
fn add_reads(alloc: Global, slots: &mut IndexSet<Slot>, line: &Instr) -> Result<(), OutOfMemory>
    ensures { OnOk result (slots.new.keys ≡ add_slots slots.old.keys (named_all (reads line.now))) }
{
    let mut operands: OperandList = List::new(alloc);
    keep_line(&mut operands, line)?;
    add_named(slots, operands.as_slice())
}

/// Notes the variables of the parts of a load.
#[tactic(auto, using(crate::proofs::Adding::add_slots_more))]
fn add_parts(slots: &mut IndexSet<Slot>, value: u32, mask: u8) -> Result<(), OutOfMemory>
    ensures { OnOk result (slots.new.keys ≡ add_slots slots.old.keys (map (λ c. kept (part_of value c) types.Int) (parts_of mask))) }
{
    for c in PARTS.as_slice() {
        if has_part(mask, *c) {
            add(slots, kept_slot(Reg { value, part: *c }, Ty::Int))?;
        }
    }
    Ok(())
}

/// Notes the variables of the registers that an access sets.
#[tactic(auto, using(crate::proofs::Adding::add_slots_more))]
fn add_sets(slots: &mut IndexSet<Slot>, line: &Instr) -> Result<(), OutOfMemory>
    ensures { OnOk result (slots.new.keys ≡ add_slots slots.old.keys (access_sets line.now)) }
{
    match *line {
        Instr::Load { to, mask, .. } => add_parts(slots, to, mask),
        Instr::Atomic { to, .. } => add(slots, kept_slot(to, Ty::Int)),
        Instr::Swap { to, .. } => {
            add(slots, kept_slot(Reg { value: to, part: 0 }, Ty::Int))?;
            add(slots, kept_slot(Reg { value: to, part: 1 }, Ty::Bool))
        }
        _ => Ok(()),
    }
}

/// Whether an instruction accesses memory.
fn is_access(line: &Instr) -> bool
    ensures { result ≡ further.is_access line.now }
{
    match line {
        Instr::Load { .. } | Instr::Store { .. } | Instr::Atomic { .. } | Instr::Swap { .. } =>
            true,
        _ => false,
    }
}

/// Whether an access stands before what follows an instruction, which stands behind one or not.
fn is_behind(line: &Instr, behind: bool) -> bool
    ensures { result ≡ (further.is_access line.now || behind) }
{
    is_access(line) || behind
}

/// Notes the variables that an instruction asks for, which stands behind an access or not.
#[tactic(auto, using(crate::proofs::Adding::add_slots_more))]
fn add_line(
    alloc: Global,
    slots: &mut IndexSet<Slot>,
    behind: bool,
    line: &Instr,
) -> Result<(), OutOfMemory>
    ensures { OnOk result (slots.new.keys ≡ add_slots slots.old.keys (line_slots behind line.now)) }
{
    add_sets(slots, line)?;
    if is_access(line) || behind {
        add_reads(alloc, slots, line)
    } else {
        Ok(())
    }
}

/// Notes the variables that the instructions of a block ask for, and tells whether an access is among them.
#[tactic(auto, using(crate::proofs::Adding::add_slots_more))]
fn add_lines(
    alloc: Global,
    slots: &mut IndexSet<Slot>,
    lines: &[Instr],
) -> Result<bool, OutOfMemory>
    ensures slots { OnOk result (slots.new.keys ≡ add_slots slots.old.keys (lines_slots false lines.now)) }
    ensures behind { IfOk result (λ behind. behind ≡ behind_lines false lines.now) }
{
    let mut behind = false;
    for line in lines {
        add_line(alloc, slots, behind, line)?;
        behind = is_behind(line, behind);
    }
    Ok(behind)
}

/// Notes the variables that the end of a block asks for.
fn add_end(
    alloc: Global,
    slots: &mut IndexSet<Slot>,
    behind: bool,
    term: &Term,
) -> Result<(), OutOfMemory>
    ensures { OnOk result (slots.new.keys ≡ add_slots slots.old.keys (end_slots behind term.now)) }
{
    if !behind {
        return Ok(());
    }
    let mut operands: OperandList = List::new(alloc);
    keep_end(&mut operands, term)?;
    add_named(slots, operands.as_slice())
}

/// Notes the variables that a block asks for.
#[tactic(auto, using(crate::proofs::Adding::add_slots_more))]
fn add_block(alloc: Global, slots: &mut IndexSet<Slot>, block: &Block) -> Result<(), OutOfMemory>
    ensures { OnOk result (slots.new.keys ≡ add_slots slots.old.keys (block_slots block.now)) }
{
    let behind = add_lines(alloc, slots, block.instrs.as_slice())?;
    add_end(alloc, slots, behind, &block.term)
}

/// Notes the variables that range tests ask for.
#[tactic(auto, using(crate::proofs::Adding::add_slots_more))]
fn add_further(
    alloc: Global,
    slots: &mut IndexSet<Slot>,
    blocks: &[Block],
) -> Result<(), OutOfMemory>
    ensures { OnOk result (slots.new.keys ≡ add_slots slots.old.keys (further_slots blocks.now)) }
{
    for block in blocks {
        add_block(alloc, slots, block)?;
    }
    Ok(())
}

/// Notes the variables of phis.
#[tactic(auto, using(crate::proofs::Adding::add_slots_more))]
fn add_phis(slots: &mut IndexSet<Slot>, phis: &[PhiSlot]) -> Result<(), OutOfMemory>
    ensures { OnOk result (slots.new.keys ≡ add_slots slots.old.keys (flat_map phi_variables phis.now)) }
{
    for phi in phis {
        add(slots, coming_slot(phi.reg, phi.ty))?;
        add(slots, kept_slot(phi.reg, phi.ty))?;
    }
    Ok(())
}

/// Notes the variables of registers that cross.
#[tactic(auto, using(crate::proofs::Adding::add_slots_more))]
fn add_crossing(slots: &mut IndexSet<Slot>, crossing: &[CrossSlot]) -> Result<(), OutOfMemory>
    ensures { OnOk result (slots.new.keys ≡ add_slots slots.old.keys (map cross_variable crossing.now)) }
{
    for cross in crossing {
        add(slots, kept_slot(cross.reg, cross.ty))?;
    }
    Ok(())
}

/// Notes the variables of registers.
#[tactic(auto, using(crate::proofs::Adding::add_slots_more))]
fn add_registers(
    alloc: Global,
    found: &mut IndexSet<Slot>,
    p: &Program,
    slots: &Slots,
) -> Result<(), OutOfMemory>
    ensures { OnOk result (found.new.keys ≡ add_slots found.old.keys (register_variables p.now slots.now)) }
{
    add_phis(found, slots.phis.as_slice())?;
    add_crossing(found, slots.crossing.as_slice())?;
    add_further(alloc, found, p.blocks.as_slice())
}

/// Notes the variables for the block that is wanted, and for the value of a switch of many cases.
#[tactic(auto, using(crate::proofs::Adding::add_slots_more))]
fn add_wants(found: &mut IndexSet<Slot>, p: &Program, list: &[Region]) -> Result<(), OutOfMemory>
    ensures { OnOk result (found.new.keys ≡ add_slots found.old.keys (want_slots p.now list.now)) }
{
    if wants(p, list) {
        add(found, Slot::Want)?;
    }
    if picks(p, list) {
        add(found, Slot::Pick)?;
    }
    Ok(())
}

/// The variables of the function.
#[tactic(auto, using(crate::proofs::Adding::add_slots_more))]
pub fn find_variables(
    alloc: Global,
    p: &Program,
    list: &[Region],
    slots: &Slots,
) -> Result<IndexSet<Slot>, OutOfMemory>
    ensures { IfOk result (λ found. found.keys ≡ chosen.variables p.now list.now slots.now) }
{
    let mut found = IndexSet::new(alloc);
    add_registers(alloc, &mut found, p, slots)?;
    add_wants(&mut found, p, list)?;
    Ok(found)
}
