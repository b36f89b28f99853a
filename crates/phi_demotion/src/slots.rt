ghost use Rattle.std.specs.Prelude.{◌≡◌, ◌<◌, ◌≤◌, ◌+◌, ◌*◌, ◌^◌, [], IfOk, OnOk, length};
ghost use Rattle.dxil_form.specs.Sound.{Sound};
ghost use Rattle.phi_demotion.specs.Slots.{AreSlots, slots_of_phis, phis_of};

use crate::crossing::{crossing_slots, reads_of};
use dx_base::{List, OutOfMemory};
use dxil_form::{Block, BlockList, Program, Reg, Ty};
use std::alloc::Global;

/// The slots of a phi's register: entries are read into `next`, and the register stands in `now`.
#[derive(Clone, Copy, Debug, PartialEq, Eq)]
pub struct PhiSlot {
    pub reg: Reg,
    pub ty: Ty,
    pub next: u32,
    pub now: u32,
}

/// Slots of phis, in the order of the blocks and of their phis.
pub type PhiSlotList = List<PhiSlot>;

/// The slot of a register that crosses.
#[derive(Clone, Copy, Debug, PartialEq, Eq)]
pub struct CrossSlot {
    pub reg: Reg,
    pub ty: Ty,
    pub slot: u32,
}

/// Slots of registers that cross.
pub type CrossSlotList = List<CrossSlot>;

/// The slots of a program, by numbers below `count`.
#[derive(Clone, Debug, Drop)]
pub struct Slots {
    pub phis: PhiSlotList,
    pub crossing: CrossSlotList,
    pub count: u32,
}

/// Adds the slots of a block's phis.
fn add_phis(slots: &mut PhiSlotList, block: &Block) -> Result<(), OutOfMemory>
    requires { 2 * (length slots.old + length block.now.phis) < 2 ^ 32 }
    ensures { OnOk result (slots.new ≡ slots_of_phis slots.old block.now.phis) }
{
    for phi in block.phis.as_slice() {
        let next = 2 * slots.len() as u32;
        let slot = PhiSlot {
            reg: phi.to,
            ty: phi.ty,
            next,
            now: next + 1,
        };
        if slots.push(slot).is_err() {
            return Err(OutOfMemory);
        }
    }
    Ok(())
}

/// The slots of the phis of blocks.
fn phi_slots(alloc: Global, blocks: &BlockList) -> Result<PhiSlotList, OutOfMemory>
    requires { 2 * length (phis_of blocks.now) < 2 ^ 32 }
    ensures { IfOk result (λ slots. slots ≡ slots_of_phis [] (phis_of blocks.now)) }
{
    let mut slots = List::new(alloc);
    for block in blocks.as_slice() {
        add_phis(&mut slots, block)?;
    }
    Ok(slots)
}

/// The slots of a program: two for each phi, and one for each other register that a phi's entry names, or that is read where its own block need not have set it.
pub fn demote(alloc: Global, p: &Program) -> Result<Slots, OutOfMemory>
    requires { Sound p.now }
    ensures { IfOk result (AreSlots p.now) }
{
    let phis = phi_slots(alloc, &p.blocks)?;
    let reads = reads_of(alloc, &p.blocks)?;
    let first = 2 * phis.len() as u32;
    let crossing = crossing_slots(alloc, &phis, first, &reads)?;
    let count = first + crossing.len() as u32;
    Ok(Slots {
        phis,
        crossing,
        count,
    })
}
