ghost use Rattle.std.specs.Prelude.{◌≡◌, ◌<◌, ◌++◌, ◌^◌, count_by, is_some, length, IfOk, OnOk};
ghost use Rattle.std.specs.Option.{option_copied};
ghost use Rattle.spv_ids.specs.Ids.{definer as definer_of, definition as definition_of, defined_at, AreDefinitions};
ghost use Rattle.spv_ids.specs.Roles.{result_of as result_id};

use crate::roles::result_of;
use dx_base::OutOfMemory;
use key_places::FirstPlaces;
use spv_form::Inst;
use std::alloc::Global;
use std::marker::Model;

/// The instructions of a module, with the place at which each id is first defined. Contracts see the instructions.
#[derive(Drop)]
pub struct Ids<'a> {
    insts: &'a [Inst],
    first: FirstPlaces,
}

impl<'a> Model for Ids<'a> {
    ghost use Rattle.std.specs.Prelude.{List, ℕ, ◌≡◌};
    ghost use Rattle.std.specs.FinMap as map;
    ghost use Rattle.spv_form.specs.declared.module.Inst.{Inst as Instruction};
    ghost use Rattle.spv_ids.specs.Ids.{definer};

    ghost Value = { List Instruction };

    ghost view = { λ s. s.insts.now };

    ghost invariant = { λ s. (id : ℕ) → map.get s.first id ≡ definer s.insts.now id };
}

impl<'a> Ids<'a> {
    /// The ids of these instructions.
    pub fn of(alloc: Global, insts: &'a [Inst]) -> Result<Ids<'a>, OutOfMemory>
        requires { length insts.now < 2 ^ 32 }
        ensures { IfOk result (λ ids. ids ≡ insts.now) }
    {
        let first = FirstPlaces::of(definitions(alloc, insts)?);
        Ok(Ids { insts, first })
    }

    /// The instructions.
    pub fn insts(&self) -> &'a [Inst]
        ensures { result.now ≡ self.now }
    {
        self.insts
    }

    /// The place of the first instruction that defines the id.
    pub fn definer(&self, id: u32) -> Option<usize>
        ensures { result ≡ definer_of self.now id }
    {
        match self.first.get(id) {
            Some(at) => Some(at as usize),
            None => None,
        }
    }

    /// The first instruction that defines the id.
    #[tactic(auto, unfolding(crate::specs::Ids::definition))]
    pub fn definition(&self, id: u32) -> Option<&'a Inst>
        ensures { option_copied result ≡ definition_of self.now id }
    {
        match self.definer(id) {
            Some(at) => self.insts.get(at),
            None => None,
        }
    }
}

/// How many instructions define an id.
fn definition_count(insts: &[Inst]) -> usize
    ensures { result ≡ count_by (λ inst. is_some (result_id inst)) insts.now }
{
    insts
        .iter()
        .filter(|inst| result_of(inst).is_some())
        .count()
}

/// Puts the id that an instruction defines, with the instruction's place.
fn push_definition(pairs: &mut Vec<(u32, u32)>, inst: &Inst, at: u32) -> Result<(), OutOfMemory>
    ensures { OnOk result (pairs.new.items ≡ pairs.old.items ++ defined_at at inst.now) }
{
    let Some(id) = result_of(inst) else {
        return Ok(());
    };
    match pairs.push((id, at)) {
        Ok(()) => Ok(()),
        Err(_) => Err(OutOfMemory),
    }
}

/// The ids that the instructions define, each with the place of its instruction.
fn definitions(alloc: Global, insts: &[Inst]) -> Result<Vec<(u32, u32)>, OutOfMemory>
    requires { length insts.now < 2 ^ 32 }
    ensures { IfOk result (λ pairs. AreDefinitions insts.now pairs.items) }
{
    let mut pairs = match Vec::with_capacity(alloc, definition_count(insts)) {
        Ok(pairs) => pairs,
        Err(_) => return Err(OutOfMemory),
    };
    for (at, inst) in insts.iter().enumerate() {
        push_definition(&mut pairs, inst, at as u32)?;
    }
    Ok(pairs)
}
