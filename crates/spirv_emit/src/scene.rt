ghost use Rattle.std.specs.Prelude.{◌≡◌, ◌≤◌, length};
ghost use Rattle.spirv_code.specs.Plans as plans;
ghost use Rattle.spirv_code.specs.Plans.{bool_id, coming, int_id, kept, number, result as id_at, type_id, variable, zero_id};
ghost use Rattle.spirv_table.specs.Tables.{AreFew};
ghost use Rattle.spirv_emit.specs.Scenes.{context_in};

use crate::code::Code;
use dxil_form::{Program, Reg, Target, Ty};
use phi_entries::Entries;
use spirv_code::{Global, Slot, Sort, limit_of};
use spirv_table::Tables;

/// The program that is lowered, what its phis take, and what its module declares.
#[derive(Clone, Copy)]
pub struct Scene<'a> {
    pub program: &'a Program,
    pub entries: &'a Entries,
    pub tables: &'a Tables,
}

impl Scene<'_> {
    /// The id of what is declared.
    pub fn key(&self, key: Global) -> u32
        requires { AreFew self.now.tables.now }
        ensures { result ≡ (context_in self.now).key key }
    {
        self.tables.global_id(key)
    }

    /// The id of the integer type.
    pub fn int(&self) -> u32
        requires { AreFew self.now.tables.now }
        ensures { result ≡ int_id (context_in self.now) }
    {
        self.key(Global::Plain(Sort::Int))
    }

    /// The id of the type of truth values.
    pub fn truth_type(&self) -> u32
        requires { AreFew self.now.tables.now }
        ensures { result ≡ bool_id (context_in self.now) }
    {
        self.key(Global::Plain(Sort::Bool))
    }

    /// The id of a type.
    pub fn type_of(&self, ty: Ty) -> u32
        requires { AreFew self.now.tables.now }
        ensures { result ≡ type_id (context_in self.now) ty }
    {
        match ty {
            Ty::Bool => self.truth_type(),
            Ty::Int => self.int(),
        }
    }

    /// The id of a number.
    pub fn number(&self, n: u32) -> u32
        requires { AreFew self.now.tables.now }
        ensures { result ≡ number (context_in self.now) n }
    {
        self.key(Global::Number(n))
    }

    /// The id of the zero of a type.
    pub fn zero(&self, ty: Ty) -> u32
        requires { AreFew self.now.tables.now }
        ensures { result ≡ zero_id (context_in self.now) ty }
    {
        match ty {
            Ty::Bool => self.key(Global::Truth(false)),
            Ty::Int => self.number(0),
        }
    }

    /// The id of a variable of the function, if it is there.
    pub fn slot(&self, slot: Slot) -> Option<u32>
        requires { AreFew self.now.tables.now }
        ensures { result ≡ (context_in self.now).slot slot }
    {
        self.tables.slot_id(slot)
    }

    /// The id of a variable of the function, or 0 where it is not there.
    pub fn variable(&self, slot: Slot) -> u32
        requires { AreFew self.now.tables.now }
        ensures { result ≡ variable (context_in self.now) slot }
    {
        match self.slot(slot) {
            Some(id) => id,
            None => 0,
        }
    }

    /// The id of the result of the next instruction.
    pub fn next(&self, code: &Code) -> u32
        requires { AreFew self.now.tables.now }
        ensures id { result ≡ id_at (context_in self.now) (length code.now) }
        ensures few { result ≤ 0x4300_0000 }
    {
        self.tables.results_from() + code.len() as u32
    }

    /// The rows of a constant buffer, or the words of a groupshared array.
    pub fn limit(&self, target: Target) -> u32
        ensures { result ≡ (context_in self.now).limit target }
    {
        limit_of(self.program, target)
    }
}

/// The variable that holds a register.
pub fn kept_slot(reg: Reg, ty: Ty) -> Slot
    ensures { result ≡ kept reg ty }
{
    Slot::Kept {
        value: reg.value,
        part: reg.part,
        truth: is_truth(ty),
    }
}

/// The variable of what a register takes at the next block's head.
pub fn coming_slot(reg: Reg, ty: Ty) -> Slot
    ensures { result ≡ coming reg ty }
{
    Slot::Next {
        value: reg.value,
        part: reg.part,
        truth: is_truth(ty),
    }
}

fn is_truth(ty: Ty) -> bool
    ensures { result ≡ plans.is_truth ty }
{
    match ty {
        Ty::Bool => true,
        Ty::Int => false,
    }
}
