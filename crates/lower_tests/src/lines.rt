use crate::lists::push_instr;
use crate::maker::Maker;
use crate::ops::{atomic_op, bin_op, cmp_op};
use dx_base::{List, OutOfMemory};
use dxil_form::{Addr, CastOp, IdOp, Instr, InstrList, OneOp, Reg, Scope, Target, TwoOp, Ty};
use std::alloc::Global;

impl Maker {
    fn bin(&mut self, block: u32) -> Result<Instr, OutOfMemory> {
        let ty = self.ty();
        let a = self.operand(block, ty)?;
        let b = self.operand(block, ty)?;
        let op = match ty {
            Ty::Int => bin_op(self.below(13)),
            Ty::Bool => bin_op(self.below(3).wrapping_add(10)),
        };
        let to = self.set(block, ty)?;
        Ok(Instr::Bin { to, op, ty, a, b })
    }

    fn cmp(&mut self, block: u32) -> Result<Instr, OutOfMemory> {
        let ty = self.ty();
        let a = self.operand(block, ty)?;
        let b = self.operand(block, ty)?;
        let op = match ty {
            Ty::Int => cmp_op(self.below(10)),
            Ty::Bool => cmp_op(self.below(2)),
        };
        let to = self.set(block, Ty::Bool)?;
        Ok(Instr::Cmp { to, op, ty, a, b })
    }

    fn cast(&mut self, block: u32) -> Result<Instr, OutOfMemory> {
        let (op, from, ty) = match self.below(3) {
            0 => (CastOp::Trunc, Ty::Int, Ty::Bool),
            1 => (CastOp::Zext, Ty::Bool, Ty::Int),
            _ => (CastOp::Sext, Ty::Bool, Ty::Int),
        };
        let a = self.operand(block, from)?;
        let to = self.set(block, ty)?;
        Ok(Instr::Cast { to, op, a })
    }

    fn select(&mut self, block: u32) -> Result<Instr, OutOfMemory> {
        let ty = self.ty();
        let cond = self.truth(block)?;
        let a = self.operand(block, ty)?;
        let b = self.operand(block, ty)?;
        let to = self.set(block, ty)?;
        Ok(Instr::Select { to, ty, cond, a, b })
    }

    fn copy(&mut self, block: u32) -> Result<Instr, OutOfMemory> {
        let ty = self.ty();
        let a = self.operand(block, ty)?;
        let to = self.set(block, ty)?;
        Ok(Instr::Copy { to, ty, a })
    }

    /// An operation on integers alone.
    fn number(&mut self, block: u32) -> Result<Instr, OutOfMemory> {
        let a = self.int(block)?;
        let b = self.int(block)?;
        let c = self.int(block)?;
        let to = self.set(block, Ty::Int)?;
        Ok(match self.below(7) {
            0 => Instr::One {
                to,
                op: OneOp::Bfrev,
                a,
            },
            1 => Instr::One {
                to,
                op: OneOp::Countbits,
                a,
            },
            2 => Instr::Two {
                to,
                op: TwoOp::IMax,
                a,
                b,
            },
            3 => Instr::Two {
                to,
                op: TwoOp::IMin,
                a,
                b,
            },
            4 => Instr::Two {
                to,
                op: TwoOp::UMax,
                a,
                b,
            },
            5 => Instr::Two {
                to,
                op: TwoOp::UMin,
                a,
                b,
            },
            _ => Instr::Mad { to, a, b, c },
        })
    }

    fn id(&mut self, block: u32) -> Result<Instr, OutOfMemory> {
        let to = self.set(block, Ty::Int)?;
        let part = self.below(3) as u8;
        Ok(match self.below(5) {
            0 => Instr::Id {
                to,
                op: IdOp::Flat,
                part: 0,
            },
            1 => Instr::Id {
                to,
                op: IdOp::Thread,
                part,
            },
            2 => Instr::Id {
                to,
                op: IdOp::Group,
                part,
            },
            3 => Instr::Id {
                to,
                op: IdOp::InGroup,
                part,
            },
            _ => Instr::Size {
                to,
                buffer: self.below(2),
            },
        })
    }

    /// A place that may be written.
    fn place(&mut self, block: u32) -> Result<(Target, Addr), OutOfMemory> {
        let at = self.int(block)?;
        let index = self.int(block)?;
        Ok(match self.below(3) {
            0 => (Target::Buffer(0), Addr::Byte { at }),
            1 => (
                Target::Buffer(3),
                Addr::Element {
                    index,
                    at,
                    stride: 4,
                },
            ),
            _ => (Target::Shared(self.below(2)), Addr::Index { index }),
        })
    }

    /// A place that may be read alone.
    fn source(&mut self, block: u32) -> Result<(Target, Addr), OutOfMemory> {
        let at = self.int(block)?;
        let index = self.int(block)?;
        Ok(if self.often(5) {
            (
                Target::Buffer(1),
                Addr::Element {
                    index,
                    at,
                    stride: 12,
                },
            )
        } else {
            (Target::Buffer(2), Addr::Row { index })
        })
    }

    /// The parts that an access of a target may have.
    fn mask(&mut self, target: Target) -> u8 {
        match target {
            Target::Buffer(_) => self.below(16) as u8,
            Target::Shared(_) => 1,
        }
    }

    fn load(&mut self, block: u32) -> Result<Instr, OutOfMemory> {
        let (target, addr) = if self.often(5) {
            self.place(block)?
        } else {
            self.source(block)?
        };
        let mask = self.mask(target);
        let to = self.fresh().value;
        for part in 0..4u8 {
            if mask >> part & 1 == 1 {
                self.note(block, Reg { value: to, part }, Ty::Int)?;
            }
        }
        Ok(Instr::Load {
            to,
            mask,
            target,
            addr,
        })
    }

    fn store(&mut self, block: u32) -> Result<Instr, OutOfMemory> {
        let (target, addr) = self.place(block)?;
        let mask = self.mask(target) | 1;
        let x = self.int(block)?;
        let y = self.int(block)?;
        let z = self.int(block)?;
        let w = self.int(block)?;
        Ok(Instr::Store {
            mask,
            target,
            addr,
            x,
            y,
            z,
            w,
        })
    }

    fn atomic(&mut self, block: u32) -> Result<Instr, OutOfMemory> {
        let (target, addr) = self.place(block)?;
        let value = self.int(block)?;
        let op = atomic_op(self.below(10));
        let to = self.set(block, Ty::Int)?;
        Ok(Instr::Atomic {
            to,
            op,
            target,
            addr,
            value,
        })
    }

    fn swap(&mut self, block: u32) -> Result<Instr, OutOfMemory> {
        let (target, addr) = self.place(block)?;
        let compare = self.int(block)?;
        let value = self.int(block)?;
        let to = self.fresh().value;
        self.note(block, Reg { value: to, part: 0 }, Ty::Int)?;
        self.note(block, Reg { value: to, part: 1 }, Ty::Bool)?;
        Ok(Instr::Swap {
            to,
            target,
            addr,
            compare,
            value,
        })
    }

    /// A barrier by a mode from 1 to 15: bit 1 syncs the group, 2 and 4 order buffers, and 8 orders groupshared memory.
    fn barrier(&mut self) -> Instr {
        let mode = self.below(15).wrapping_add(1);
        let scope = match mode & 14 {
            0 => Scope::Nobody,
            4 | 8 | 12 => Scope::Group,
            _ => Scope::Device,
        };
        Instr::Barrier {
            sync: mode & 1 != 0,
            scope,
            uav: mode & 6 != 0,
            shared: mode & 8 != 0,
        }
    }

    /// An instruction of a block.
    fn line(&mut self, block: u32) -> Result<Instr, OutOfMemory> {
        match self.below(14) {
            0 => self.bin(block),
            1 => self.cmp(block),
            2 => self.cast(block),
            3 => self.select(block),
            4 => self.copy(block),
            5 | 6 => self.number(block),
            7 => self.id(block),
            8 => self.load(block),
            9 => self.store(block),
            10 => self.atomic(block),
            11 => self.swap(block),
            12 => Ok(self.barrier()),
            _ => Ok(Instr::Nothing),
        }
    }

    /// At most this many instructions of a block.
    pub fn lines(
        &mut self,
        alloc: Global,
        block: u32,
        most: u32,
    ) -> Result<InstrList, OutOfMemory> {
        let mut lines: InstrList = List::new(alloc);
        let count = self.below(most);
        for _ in 0..count {
            let line = self.line(block)?;
            push_instr(&mut lines, line)?;
        }
        Ok(lines)
    }
}
