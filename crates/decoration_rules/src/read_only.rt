ghost use Rattle.std.specs.Prelude.{◌≡◌, ◌<◌, ◌^◌, ◌&&◌, ◌↔◌, IsTrue, length, IfOk, OnOk};
ghost use Rattle.std.specs.Ordering.{nat_cmp};
ghost use Rattle.std.specs.BTreeSet as tree;
ghost use Rattle.decoration_rules.specs.ReadOnly as memory;

use crate::resources::Resources;
use dx_base::OutOfMemory;
use spv_form::{Inst, op};
use spv_ids::{Ids, is_before, is_there, operand, result_of};
use std::alloc::Global;
use std::collections::BTreeSet;
use std::marker::Model;

/// The instructions of a module, with the pointers into memory that may not be written. Contracts see the instructions.
#[derive(Drop)]
pub struct ReadOnly<'a> {
    insts: &'a [Inst],
    ids: BTreeSet<u32>,
}

impl<'a> Model for ReadOnly<'a> {
    ghost use Rattle.std.specs.Prelude.{List};
    ghost use Rattle.std.specs.Ordering.{nat_cmp};
    ghost use Rattle.std.specs.BTreeSet as tree;
    ghost use Rattle.spv_form.specs.declared.module.Inst.{Inst as Instruction};
    ghost use Rattle.decoration_rules.specs.ReadOnly.{IsSetOf};

    ghost Value = { List Instruction };

    ghost view = { λ s. s.insts.now };

    ghost invariant = { λ s. IsSetOf (tree.contains nat_cmp s.ids) s.insts.now };
}

impl<'a> ReadOnly<'a> {
    /// The pointers of these ids and resources.
    pub fn of(
        alloc: Global,
        ids: &Ids<'a>,
        resources: &Resources<'a>,
    ) -> Result<ReadOnly<'a>, OutOfMemory>
        requires { resources.now ≡ ids.now }
        ensures { IfOk result (λ read_only. read_only ≡ ids.now) }
    {
        let insts = ids.insts();
        let mut set = BTreeSet::new(alloc);
        for (at, inst) in insts.iter().enumerate() {
            keep(&mut set, ids, resources, at, inst)?;
        }
        Ok(ReadOnly { insts, ids: set })
    }

    /// Whether the id is a pointer into memory that may not be written.
    pub fn has(&self, id: u32) -> bool
        ensures { IsTrue result ↔ memory.IsReadOnly self.now id }
    {
        self.ids.contains(&id)
    }
}

/// Whether the instruction at a place makes its result read-only.
fn makes(
    set: &BTreeSet<u32>,
    ids: &Ids,
    resources: &Resources,
    at: usize,
    inst: &Inst,
    id: u32,
) -> bool
    requires { resources.now ≡ ids.now }
    ensures { result ≡ memory.makes ids.now (tree.contains nat_cmp set.now) at inst.now id }
{
    match inst.opcode {
        op::VARIABLE => resources.marks(id).non_writable,
        op::ACCESS_CHAIN => {
            let base = operand(inst, 2);
            is_before(at, ids.definer(base)) && set.contains(&base)
        }
        _ => false,
    }
}

/// Whether the instruction at a place makes the id read-only, and is the first that defines it.
fn adds(
    set: &BTreeSet<u32>,
    ids: &Ids,
    resources: &Resources,
    at: usize,
    inst: &Inst,
    id: u32,
) -> bool
    requires { resources.now ≡ ids.now }
    ensures { result ≡ memory.adds ids.now (tree.contains nat_cmp set.now) at inst.now id }
{
    is_there(at, ids.definer(id)) && makes(set, ids, resources, at, inst, id)
}

/// Keeps the result of the instruction at a place, where it is read-only and is first defined there.
fn keep(
    set: &mut BTreeSet<u32>,
    ids: &Ids,
    resources: &Resources,
    at: usize,
    inst: &Inst,
) -> Result<(), OutOfMemory>
    requires { resources.now ≡ ids.now }
    ensures { OnOk result (memory.IsNext (tree.contains nat_cmp set.old) (tree.contains nat_cmp set.new) ids.now at inst.now) }
{
    let Some(id) = result_of(inst) else {
        return Ok(());
    };
    if !adds(set, ids, resources, at, inst, id) {
        return Ok(());
    }
    match set.insert(id) {
        Ok(_) => Ok(()),
        Err(_) => Err(OutOfMemory),
    }
}

/// The pointer that an instruction writes through.
pub fn written_by(inst: &Inst) -> Option<u32>
    ensures { result ≡ memory.written_by inst.now }
{
    match inst.opcode {
        op::STORE => Some(operand(inst, 0)),
        op::ATOMIC_EXCHANGE | op::ATOMIC_COMPARE_EXCHANGE => Some(operand(inst, 2)),
        op::ATOMIC_I_ADD..=op::ATOMIC_XOR => Some(operand(inst, 2)),
        _ => None,
    }
}
