ghost use Rattle.std.specs.Prelude.{◌≡◌, ◌<◌, ◌^◌, ◌↔◌, IsTrue, true, Some, slice_get, length, IfOk, OnOk};
ghost use Rattle.std.specs.BTreeMap as tree;
ghost use Rattle.type_rules.specs.Types.{is_listed};
ghost use Rattle.id_rules.specs.Again as declared;

use dx_base::OutOfMemory;
use spv_form::{Inst, op};
use spv_ids::{is_before, operand};
use std::alloc::Global;
use std::collections::BTreeMap;
use std::marker::Model;

/// The opcode of a type, and its first two operands behind the result.
type Key = (u32, u32, u32);

/// The instructions of a module, with the first declaration of each type. Contracts see the instructions.
#[derive(Drop)]
pub struct Declared<'a> {
    insts: &'a [Inst],
    first: BTreeMap<Key, u32>,
}

impl<'a> Model for Declared<'a> {
    ghost use Rattle.std.specs.Prelude.{List};
    ghost use Rattle.std.specs.BTreeMap as tree;
    ghost use Rattle.spv_form.specs.declared.module.Inst.{Inst as Instruction};
    ghost use Rattle.id_rules.specs.Again.{AreFirst, key_cmp};

    ghost Value = { List Instruction };

    ghost view = { λ s. s.insts.now };

    ghost invariant = { λ s. AreFirst (tree.get key_cmp s.first) s.insts.now };
}

/// Whether an opcode declares a type other than an array or a structure.
fn is_single(opcode: u16) -> bool
    ensures { result ≡ declared.is_single opcode }
{
    match opcode {
        op::TYPE_VOID | op::TYPE_BOOL | op::TYPE_INT => true,
        op::TYPE_VECTOR | op::TYPE_POINTER | op::TYPE_FUNCTION => true,
        _ => false,
    }
}

fn key_of(inst: &Inst) -> Key
    ensures { result ≡ declared.key_of inst.now }
{
    (inst.opcode as u32, operand(inst, 1), operand(inst, 2))
}

/// Keeps the place of a type by its key, unless there is one.
fn keep_first(first: &mut BTreeMap<Key, u32>, inst: &Inst, at: u32) -> Result<(), OutOfMemory>
    ensures { OnOk result (declared.IsKept (tree.get declared.key_cmp first.old) (tree.get declared.key_cmp first.new) inst.now at) }
{
    if !is_single(inst.opcode) {
        return Ok(());
    }
    let key = key_of(inst);
    if first.contains_key(&key) {
        return Ok(());
    }
    match first.insert(key, at) {
        Ok(_) => Ok(()),
        Err(_) => Err(OutOfMemory),
    }
}

impl<'a> Declared<'a> {
    /// The types that these instructions declare.
    pub fn of(alloc: Global, insts: &'a [Inst]) -> Result<Declared<'a>, OutOfMemory>
        requires { length insts.now < 2 ^ 32 }
        ensures { IfOk result (λ declared. declared ≡ insts.now) }
    {
        let mut first = BTreeMap::new(alloc);
        for (at, inst) in insts.iter().enumerate() {
            keep_first(&mut first, inst, at as u32)?;
        }
        Ok(Declared { insts, first })
    }

    /// The place of the first type with a key.
    fn first(&self, key: Key) -> Option<usize>
        ensures { result ≡ declared.first_key self.now key }
    {
        match self.first.get(&key) {
            Some(at) => Some(*at as usize),
            None => None,
        }
    }

    /// Whether a type with the key of this one stands before the place.
    #[tactic(auto, using(spv_ids::proofs::PlaceLaws::any_before), unfolding(crate::specs::Again::is_key_before))]
    fn is_key_before(&self, at: usize, inst: &Inst) -> bool
        ensures { result ≡ declared.is_key_before self.now at inst.now }
    {
        is_single(inst.opcode) && is_before(at, self.first(key_of(inst)))
    }

    /// Whether an instruction declares a type other than an array or a structure, and another before the place does so with the same operands (rule V7).
    ///
    /// The instruction is one that breaks no rule V5.
    pub fn is_declared_again(&self, at: usize, inst: &Inst) -> bool
        requires formed { declared.AreFormed self.now }
        requires there { slice_get self.now at ≡ Some inst.now }
        requires listed { is_listed self.now inst.now ≡ true }
        ensures { IsTrue result ↔ declared.IsDeclaredAgain self.now at inst.now }
    {
        self.is_key_before(at, inst)
    }
}
