ghost use Rattle.std.specs.Prelude.{◌≡◌, ◌∷◌, ◌++◌, ◌≤◌, ◌<◌, ◌^◌, [], IfOk, OnOk, length};
ghost use Rattle.spirv_code.specs.Plans.{inst};

use dx_base::OutOfMemory;
use spv_form::{Inst, InstList, Operands};
use std::alloc::Global;
use std::marker::Model;

/// The instructions of a module that is being written, fewer than 2^30: more take over 24 GiB, and are refused as want of memory.
#[derive(Drop)]
pub struct Code {
    alloc: Global,
    insts: InstList,
}

impl Model for Code {
    ghost use Rattle.std.specs.Prelude.{List, length, ◌≤◌};
    ghost use Rattle.std.specs.Coded.{coded_list};
    ghost use Rattle.spv_form.specs.declared.module.Inst.{Inst};
    ghost use Rattle.spirv_emit.specs.InstCode.{inst_code};

    ghost Value = { List Inst };

    ghost coded = { coded_list inst_code };

    ghost view = { λ c. c.insts };

    ghost invariant = { λ c. length c.insts ≤ 0x4000_0000 };
}

impl Code {
    /// No instructions, which takes no memory.
    pub fn new(alloc: Global) -> Self
        ensures { result ≡ [] }
    {
        Code {
            alloc,
            insts: InstList::new(alloc),
        }
    }

    /// How many instructions there are, which is the place of the next one.
    pub fn len(&self) -> usize
        ensures len { result ≡ length self.now }
        ensures few { result ≤ 0x4000_0000 }
    {
        self.insts.len()
    }

    /// Appends an instruction.
    pub fn push(&mut self, opcode: u16, operands: &[u32]) -> Result<(), OutOfMemory>
        ensures { OnOk result (self.new ≡ self.old ++ inst opcode operands.now ∷ []) }
    {
        let operands = operands_of(self.alloc, operands)?;
        self.push_inst(Inst { opcode, operands })
    }

    /// Appends an instruction that was made.
    pub fn push_inst(&mut self, inst: Inst) -> Result<(), OutOfMemory>
        ensures { OnOk result (self.new ≡ self.old ++ inst ∷ []) }
    {
        if self.insts.len() >= 0x4000_0000 {
            return Err(OutOfMemory);
        }
        match self.insts.push(inst) {
            Ok(()) => Ok(()),
            Err(_) => Err(OutOfMemory),
        }
    }

    /// All instructions.
    pub fn into_list(self) -> InstList
        ensures { result ≡ self }
    {
        self.insts
    }
}

/// The words as operands.
pub fn operands_of(alloc: Global, words: &[u32]) -> Result<Operands, OutOfMemory>
    ensures { IfOk result (λ operands. operands ≡ words.now) }
{
    let mut operands = Operands::new(alloc);
    for word in words {
        match operands.push(*word) {
            Ok(()) => {}
            Err(_) => return Err(OutOfMemory),
        }
    }
    Ok(operands)
}
