ghost use Rattle.std.specs.Prelude.{◌≤◌};

use crate::random::Random;
use dx_base::{List, OutOfMemory};
use dxil_form::{Operand, Reg, Ty};
use phi_demotion::{CrossSlot, CrossSlotList};
use std::alloc::Global;

/// A register that is set, and the number of the block that sets it.
#[derive(Clone, Copy, Debug)]
struct Set {
    reg: Reg,
    ty: Ty,
    block: u32,
}

/// Makes instructions that read what was set before them.
#[derive(Drop)]
pub struct Maker {
    random: Random,
    sets: Vec<Set>,
    next: u32,
    /// The registers that are read in another block than the one that sets them.
    crossing: CrossSlotList,
}

impl Maker {
    pub fn new(alloc: Global, seed: u32) -> Maker {
        Maker {
            random: Random::new(seed),
            sets: Vec::new(alloc),
            next: 100,
            crossing: List::new(alloc),
        }
    }

    pub fn into_crossing(self) -> CrossSlotList {
        self.crossing
    }

    /// A number below this one, or 0.
    pub fn below(&mut self, most: u32) -> u32
        ensures { result ≤ most }
    {
        self.random.below(most)
    }

    /// True as often as this many times in ten.
    pub fn often(&mut self, times: u32) -> bool {
        self.random.often(times)
    }

    /// A register of a value of its own.
    pub fn fresh(&mut self) -> Reg {
        self.next = self.next.wrapping_add(1);
        Reg {
            value: self.next,
            part: 0,
        }
    }

    /// Notes that a register is set in this block.
    pub fn note(&mut self, block: u32, reg: Reg, ty: Ty) -> Result<(), OutOfMemory> {
        match self.sets.push(Set { reg, ty, block }) {
            Ok(()) => Ok(()),
            Err(_) => Err(OutOfMemory),
        }
    }

    /// A register that is set in this block.
    pub fn set(&mut self, block: u32, ty: Ty) -> Result<Reg, OutOfMemory> {
        let reg = self.fresh();
        self.note(block, reg, ty)?;
        Ok(reg)
    }

    /// Any of the registers that were set, if it has this type.
    fn pick(&mut self, ty: Ty) -> Option<Set> {
        let count = self.sets.len().min(0xFFFF) as u32;
        let at = self.random.below(count) as usize;
        let found = *self.sets.get(at)?;
        if found.ty == ty { Some(found) } else { None }
    }

    fn constant(&mut self, ty: Ty) -> Operand {
        if self.random.below(8) == 0 {
            return Operand::Undef(ty);
        }
        match ty {
            Ty::Bool => Operand::Bool(self.random.often(5)),
            Ty::Int => Operand::Int(match self.random.below(5) {
                0 => 0,
                1 => 1,
                2 => 7,
                3 => 0xFFFF_FFFF,
                _ => self.random.below(64),
            }),
        }
    }

    /// An operand of an instruction of this block.
    pub fn operand(&mut self, block: u32, ty: Ty) -> Result<Operand, OutOfMemory> {
        if self.random.below(8) == 0 {
            return Ok(self.constant(ty));
        }
        match self.pick(ty) {
            Some(found) => {
                if found.block != block {
                    let slot = CrossSlot {
                        reg: found.reg,
                        ty,
                        slot: 0,
                    };
                    if self.crossing.push(slot).is_err() {
                        return Err(OutOfMemory);
                    }
                }
                Ok(Operand::Reg { reg: found.reg, ty })
            }
            None => Ok(self.constant(ty)),
        }
    }

    pub fn int(&mut self, block: u32) -> Result<Operand, OutOfMemory> {
        self.operand(block, Ty::Int)
    }

    pub fn truth(&mut self, block: u32) -> Result<Operand, OutOfMemory> {
        self.operand(block, Ty::Bool)
    }

    pub fn ty(&mut self) -> Ty {
        if self.random.often(5) {
            Ty::Int
        } else {
            Ty::Bool
        }
    }
}
