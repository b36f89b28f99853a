ghost use Rattle.std.specs.Prelude.{◌≡◌, ◌<◌, ◌^◌, length, IfOk, OnOk};
ghost use Rattle.std.specs.BTreeMap as tree;
ghost use Rattle.decoration_rules.specs.Variables as asked;
ghost use Rattle.decoration_rules.specs.Decorations as said;

use crate::marks::{Decorations, Marks};
use dx_base::OutOfMemory;
use spv_form::{Inst, op};
use spv_ids::{Ids, operand};
use std::alloc::Global;
use std::collections::BTreeMap;
use std::marker::Model;
use type_rules::pointer_type;

/// How many buffer variables have each set and binding.
pub type Crowds = BTreeMap<(u32, u32), u32>;

/// The instructions of a module, with their decorations and with how many buffer variables share a set and a binding. Contracts see the instructions.
#[derive(Drop)]
pub struct Resources<'a> {
    decorations: Decorations<'a>,
    crowds: Crowds,
}

impl<'a> Model for Resources<'a> {
    ghost use Rattle.std.specs.Prelude.{List};
    ghost use Rattle.std.specs.BTreeMap as tree;
    ghost use Rattle.spv_form.specs.declared.module.Inst.{Inst as Instruction};
    ghost use Rattle.decoration_rules.specs.Variables.{AreCrowds, pair_cmp};

    ghost Value = { List Instruction };

    ghost view = { λ s. s.decorations };

    ghost invariant = { λ s. AreCrowds (tree.get pair_cmp s.crowds) s.decorations s.decorations };
}

impl<'a> Resources<'a> {
    /// The resources among these instructions.
    pub fn of(alloc: Global, insts: &'a [Inst]) -> Result<Resources<'a>, OutOfMemory>
        requires { length insts.now < 2 ^ 32 }
        ensures { IfOk result (λ resources. resources ≡ insts.now) }
    {
        let decorations = Decorations::of(alloc, insts)?;
        let mut crowds = BTreeMap::new(alloc);
        for inst in insts {
            seat(&mut crowds, seat_of(&decorations, inst))?;
        }
        Ok(Resources {
            decorations,
            crowds,
        })
    }

    /// What the decorations say of an id.
    pub fn marks(&self, id: u32) -> Marks
        ensures { result ≡ said.marks_of self.now id }
    {
        self.decorations.marks(id)
    }

    /// How many buffer variables have this set and binding.
    #[tactic(auto, unfolding(crate::specs::Variables::crowd))]
    fn crowd(&self, set: u32, binding: u32) -> u32
        ensures { result ≡ asked.crowd self.now (set, binding) }
    {
        self.crowds.get(&(set, binding)).copied().unwrap_or(0)
    }
}

/// Counts a buffer variable of this set and binding.
fn seat(crowds: &mut Crowds, seat: Option<(u32, u32)>) -> Result<(), OutOfMemory>
    requires { asked.HasRoom (tree.get asked.pair_cmp crowds.old) seat }
    ensures { OnOk result (asked.IsSeated (tree.get asked.pair_cmp crowds.old) (tree.get asked.pair_cmp crowds.new) seat) }
{
    let Some(seat) = seat else {
        return Ok(());
    };
    let before = crowds.get(&seat).copied().unwrap_or(0);
    match crowds.insert(seat, before + 1) {
        Ok(_) => Ok(()),
        Err(_) => Err(OutOfMemory),
    }
}

/// Whether the instruction is a variable of class Uniform or StorageBuffer.
#[tactic(auto, unfolding(crate::specs::Variables::is_buffer))]
fn is_buffer(inst: &Inst) -> bool
    ensures { result ≡ asked.is_buffer inst.now }
{
    inst.opcode == op::VARIABLE && (operand(inst, 2) == 2 || operand(inst, 2) == 12)
}

/// The set and the binding of a buffer variable.
#[tactic(auto, unfolding(crate::specs::Variables::seat_of))]
fn seat_of(decorations: &Decorations, inst: &Inst) -> Option<(u32, u32)>
    ensures { result ≡ asked.seat_of decorations.now inst.now }
{
    if !is_buffer(inst) {
        return None;
    }
    let Marks { set, binding, .. } = decorations.marks(operand(inst, 1));
    match (set, binding) {
        (Some(set), Some(binding)) => Some((set, binding)),
        _ => None,
    }
}

/// Whether the type is a pointer to a structure that has Block and Offset 0, and whose array has ArrayStride 4 or 16.
#[tactic(auto, unfolding(crate::specs::Variables::is_block_of_array))]
fn is_block_of_array(ids: &Ids, resources: &Resources, ty: u32) -> bool
    requires { resources.now ≡ ids.now }
    ensures { result ≡ asked.is_block_of_array ids.now ty }
{
    let Some(pointer) = pointer_type(ids, ty) else {
        return false;
    };
    let pointee = operand(pointer, 2);
    match ids.definition(pointee) {
        Some(inst) => {
            inst.opcode == op::TYPE_STRUCT
                && resources.marks(pointee).block
                && resources.marks(pointee).first_offset
                && resources.marks(operand(inst, 1)).stride
        }
        None => false,
    }
}

/// Whether a buffer variable has its decorations, and shares its set and binding with no other.
fn is_sound_buffer(ids: &Ids, resources: &Resources, inst: &Inst) -> bool
    requires { resources.now ≡ ids.now }
    ensures { result ≡ asked.is_sound_buffer ids.now inst.now }
{
    match seat_of(&resources.decorations, inst) {
        Some((set, binding)) => {
            resources.crowd(set, binding) < 2 && is_block_of_array(ids, resources, operand(inst, 0))
        }
        None => false,
    }
}

/// Whether the instruction is no variable, or its decorations are as rule V8 asks.
#[tactic(auto, unfolding(crate::specs::Variables::is_sound))]
pub fn is_sound_variable(ids: &Ids, resources: &Resources, inst: &Inst) -> bool
    requires { resources.now ≡ ids.now }
    ensures { result ≡ asked.is_sound ids.now inst.now }
{
    if is_buffer(inst) {
        is_sound_buffer(ids, resources, inst)
    } else if inst.opcode == op::VARIABLE && operand(inst, 2) == 1 {
        resources.marks(operand(inst, 1)).built_in
    } else {
        true
    }
}
