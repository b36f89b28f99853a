ghost use Rattle.std.specs.Prelude.{◌≡◌, ◌≤◌, ◌<◌, ◌+◌, ◌*◌, ◌^◌, ◌++◌, ◌∷◌, [], ◌||◌, if◌then◌else◌, ℕ, IfOk, OnOk, length, map};
ghost use Rattle.std.specs.List.{flat_map, list_any};
ghost use Rattle.std.specs.BTreeSet as tree;
ghost use Rattle.phi_demotion.specs.Reads as stated;
ghost use Rattle.phi_demotion.specs.Reads.{key_of, key_cmp, is_key, has_key};

use crate::reads::{OperandList, keep_end, keep_line};
use crate::settled::{RegSet, is_settled, settle, settle_line};
use crate::slots::{CrossSlot, CrossSlotList, PhiSlotList};
use dx_base::{List, OutOfMemory};
use dxil_form::{Block, BlockList, EntryList, InstrList, Operand, PhiList, Reg, Ty};
use std::alloc::Global;
use std::collections::BTreeSet;

/// Registers that are read, each with its type.
pub(crate) type ReadList = List<(Reg, Ty)>;

fn push(reads: &mut ReadList, reg: Reg, ty: Ty) -> Result<(), OutOfMemory>
    ensures { OnOk result (reads.new ≡ reads.old ++ (reg, ty) ∷ []) }
{
    match reads.push((reg, ty)) {
        Ok(()) => Ok(()),
        Err(_) => Err(OutOfMemory),
    }
}

/// Adds the register that an operand names.
fn keep_named(reads: &mut ReadList, operand: Operand) -> Result<(), OutOfMemory>
    ensures { OnOk result (reads.new ≡ reads.old ++ stated.named operand) }
{
    match operand {
        Operand::Reg { reg, ty } => push(reads, reg, ty),
        Operand::Int(_) => Ok(()),
        Operand::Bool(_) => Ok(()),
        Operand::Undef(_) => Ok(()),
    }
}

/// Adds the register that an operand names, unless the set has it.
fn keep_unset(reads: &mut ReadList, settled: &RegSet, operand: Operand) -> Result<(), OutOfMemory>
    ensures { OnOk result (reads.new ≡ reads.old ++ stated.unset (λ q. tree.contains key_cmp settled.now q) operand) }
{
    match operand {
        Operand::Reg { reg, ty } => {
            if is_settled(settled, reg) {
                Ok(())
            } else {
                push(reads, reg, ty)
            }
        }
        Operand::Int(_) => Ok(()),
        Operand::Bool(_) => Ok(()),
        Operand::Undef(_) => Ok(()),
    }
}

/// Adds the registers that operands name and that the set has not.
fn keep_operands(
    reads: &mut ReadList,
    settled: &RegSet,
    operands: &OperandList,
) -> Result<(), OutOfMemory>
    ensures { OnOk result (reads.new ≡ reads.old ++ flat_map (stated.unset (λ q. tree.contains key_cmp settled.now q)) operands.now) }
{
    for operand in operands.as_slice() {
        keep_unset(reads, settled, *operand)?;
    }
    Ok(())
}

/// Adds the registers that the entries of a phi name.
fn keep_entries(reads: &mut ReadList, entries: &EntryList) -> Result<(), OutOfMemory>
    ensures { OnOk result (reads.new ≡ reads.old ++ stated.entry_reads entries.now) }
{
    for entry in entries.as_slice() {
        keep_named(reads, entry.value)?;
    }
    Ok(())
}

/// Adds the registers that the entries of phis name.
fn keep_phis(reads: &mut ReadList, phis: &PhiList) -> Result<(), OutOfMemory>
    ensures { OnOk result (reads.new ≡ reads.old ++ stated.phi_reads phis.now) }
{
    for phi in phis.as_slice() {
        keep_entries(reads, &phi.entries)?;
    }
    Ok(())
}

/// Adds the registers that instructions read and that no earlier one of them sets; the set has all that they set.
fn keep_lines(
    alloc: Global,
    reads: &mut ReadList,
    settled: &mut RegSet,
    instrs: &InstrList,
) -> Result<(), OutOfMemory>
    requires { (q : ℕ × ℕ) → tree.contains key_cmp settled.old q ≡ has_key [] q }
    ensures reads { OnOk result (reads.new ≡ reads.old ++ stated.line_reads [] instrs.now) }
    ensures settled { OnOk result ((q : ℕ × ℕ) → tree.contains key_cmp settled.new q ≡ has_key (stated.settled instrs.now) q) }
{
    for instr in instrs.as_slice() {
        let mut operands = List::new(alloc);
        keep_line(&mut operands, instr)?;
        keep_operands(reads, settled, &operands)?;
        settle_line(settled, instr)?;
    }
    Ok(())
}

/// Adds the registers that a block reads and need not have set before.
fn keep_block(alloc: Global, reads: &mut ReadList, block: &Block) -> Result<(), OutOfMemory>
    ensures { OnOk result (reads.new ≡ reads.old ++ stated.block_reads block.now) }
{
    keep_phis(reads, &block.phis)?;
    let mut settled = BTreeSet::new(alloc);
    keep_lines(alloc, reads, &mut settled, &block.instrs)?;
    let mut operands = List::new(alloc);
    keep_end(&mut operands, &block.term)?;
    keep_operands(reads, &settled, &operands)
}

/// The registers that blocks read and need not have set before, in the order of reading.
pub(crate) fn reads_of(alloc: Global, blocks: &BlockList) -> Result<ReadList, OutOfMemory>
    ensures { IfOk result (λ reads. reads ≡ stated.program_reads blocks.now) }
{
    let mut reads = List::new(alloc);
    for block in blocks.as_slice() {
        keep_block(alloc, &mut reads, block)?;
    }
    Ok(reads)
}

/// A set of the registers of phis.
fn phi_regs(alloc: Global, phis: &PhiSlotList) -> Result<RegSet, OutOfMemory>
    ensures { IfOk result (λ regs. (q : ℕ × ℕ) → tree.contains key_cmp regs q ≡ stated.is_phi phis.now q) }
{
    let mut regs = BTreeSet::new(alloc);
    for slot in phis.as_slice() {
        settle(&mut regs, slot.reg)?;
    }
    Ok(regs)
}

/// Adds a slot for a register that has none yet.
fn add_read(
    taken: &mut RegSet,
    slots: &mut CrossSlotList,
    first: u32,
    reg: Reg,
    ty: Ty,
) -> Result<(), OutOfMemory>
    requires { first + length slots.old < 2 ^ 32 }
    ensures slots { OnOk result (slots.new ≡ (if tree.contains key_cmp taken.old (key_of reg) then slots.old else slots.old ++ (record { reg = reg; ty = ty; slot = first + length slots.old }) ∷ [])) }
    ensures taken { OnOk result ((q : ℕ × ℕ) → tree.contains key_cmp taken.new q ≡ (tree.contains key_cmp taken.old q || is_key (key_of reg) q)) }
{
    if !is_settled(taken, reg) {
        let slot = CrossSlot {
            reg,
            ty,
            slot: first + slots.len() as u32,
        };
        if slots.push(slot).is_err() {
            return Err(OutOfMemory);
        }
    }
    settle(taken, reg)
}

/// A slot for each of these registers that is no phi's, in the order of the first reading; the first number is `first`.
pub(crate) fn crossing_slots(
    alloc: Global,
    phis: &PhiSlotList,
    first: u32,
    reads: &ReadList,
) -> Result<CrossSlotList, OutOfMemory>
    requires { first + length reads.now < 2 ^ 32 }
    ensures { IfOk result (λ slots. slots ≡ stated.slots_of_reads (stated.is_phi phis.now) first reads.now) }
{
    let mut taken = phi_regs(alloc, phis)?;
    let mut slots = List::new(alloc);
    for read in reads.as_slice() {
        add_read(&mut taken, &mut slots, first, read.0, read.1)?;
    }
    Ok(slots)
}
