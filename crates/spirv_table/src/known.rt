ghost use Rattle.std.specs.Prelude.{◌≡◌, OnOk};
ghost use Rattle.spirv_code.specs.Reads.{no_register, with_id};
ghost use Rattle.spirv_table.specs.Known.{env_of, name_for};

use dx_base::OutOfMemory;
use dxil_form::Reg;
use indexmap::IndexMap;
use std::alloc::Global;

/// A register, as a key.
#[derive(Clone, Copy, Debug, PartialEq, Eq, Hash)]
pub struct Named {
    pub value: u32,
    pub part: u8,
}

/// The registers that were set since the label of the open block, with the ids of their values.
#[derive(Drop)]
pub struct Known {
    pub ids: IndexMap<Named, u32>,
}

impl Known {
    /// No register.
    #[tactic(auto, using(crate::proofs::Rows::no_row))]
    pub fn new(alloc: Global) -> Self
        ensures { env_of result ≡ no_register }
    {
        Known {
            ids: IndexMap::new(alloc),
        }
    }

    /// The id of a register, if it was set.
    pub fn get(&self, reg: Reg) -> Option<u32>
        ensures { result ≡ env_of self.now reg }
    {
        self.ids.get(&name_of(reg)).copied()
    }

    /// The register has this id from now on.
    pub fn set(&mut self, reg: Reg, id: u32) -> Result<(), OutOfMemory>
        ensures { OnOk result (env_of self.new ≡ with_id reg id (env_of self.old)) }
    {
        match self.ids.insert(name_of(reg), id) {
            Ok(_) => Ok(()),
            Err(_) => Err(OutOfMemory),
        }
    }

    /// At a label no register is known.
    #[tactic(auto, using(crate::proofs::Rows::no_row))]
    pub fn clear(&mut self)
        ensures { env_of self.new ≡ no_register }
    {
        self.ids.clear();
    }
}

fn name_of(reg: Reg) -> Named
    ensures { result ≡ name_for reg }
{
    Named {
        value: reg.value,
        part: reg.part,
    }
}
