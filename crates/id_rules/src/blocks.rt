ghost use Rattle.std.specs.Prelude.{◌≡◌, ◌==◌, ◌+◌, ◌<◌, ◌^◌, length, IfOk, if◌then◌else◌};
ghost use Rattle.spv_ids.specs.Places as places;
ghost use Rattle.id_rules.specs.Uses.{AreBlocks};

use dx_base::OutOfMemory;
use spv_form::{Inst, op};
use std::alloc::Global;
use std::marker::Model;

/// The instructions of a module, with how many labels stand before each. Contracts see the instructions.
#[derive(Drop)]
pub struct Blocks<'a> {
    insts: &'a [Inst],
    before: Vec<u32>,
}

impl<'a> Model for Blocks<'a> {
    ghost use Rattle.std.specs.Prelude.{List as Seq};
    ghost use Rattle.spv_form.specs.declared.module.Inst.{Inst as Instruction};
    ghost use Rattle.id_rules.specs.Uses.{AreBlocks};

    ghost Value = { Seq Instruction };

    ghost view = { λ s. s.insts.now };

    ghost invariant = { λ s. AreBlocks s.insts.now s.before.items };
}

impl<'a> Blocks<'a> {
    /// The blocks of these instructions.
    pub fn of(alloc: Global, insts: &'a [Inst]) -> Result<Blocks<'a>, OutOfMemory>
        requires { length insts.now < 2 ^ 32 }
        ensures { IfOk result (λ blocks. blocks ≡ insts.now) }
    {
        let before = labels_before(alloc, insts)?;
        Ok(Blocks { insts, before })
    }

    /// How many labels stand before a place.
    pub fn block_of(&self, at: usize) -> u32
        requires { at < length self.now }
        ensures { result ≡ places.block_of self.now at }
    {
        self.before[at]
    }
}

/// The count, one more where the instruction is a label.
fn counted(labels: u32, inst: &Inst) -> u32
    requires { labels + 1 < 2 ^ 32 }
    ensures { result ≡ (if inst.now.opcode == 248 then labels + 1 else labels) }
{
    if inst.opcode == op::LABEL {
        labels + 1
    } else {
        labels
    }
}

/// How many labels stand before each instruction.
fn labels_before(alloc: Global, insts: &[Inst]) -> Result<Vec<u32>, OutOfMemory>
    requires { length insts.now < 2 ^ 32 }
    ensures { IfOk result (λ before. AreBlocks insts.now before.items) }
{
    let mut before = match Vec::with_capacity(alloc, insts.len()) {
        Ok(before) => before,
        Err(_) => return Err(OutOfMemory),
    };
    let mut labels = 0u32;
    for inst in insts {
        if before.push(labels).is_err() {
            return Err(OutOfMemory);
        }
        labels = counted(labels, inst);
    }
    Ok(before)
}
