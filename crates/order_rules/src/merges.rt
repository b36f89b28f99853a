ghost use Rattle.std.specs.Prelude.{◌≡◌, ◌+◌, ◌<◌, ◌≤◌, ◌^◌, length, IfOk, OnOk};
ghost use Rattle.std.specs.Ordering.{nat_cmp};
ghost use Rattle.std.specs.BTreeMap as tree;
ghost use Rattle.order_rules.specs.Order.{IsThePlace};
ghost use Rattle.order_rules.specs.Merges as merges;

use dx_base::OutOfMemory;
use spv_form::{Inst, op};
use spv_ids::operand;
use std::alloc::Global;
use std::collections::BTreeMap;

/// How many merge instructions may wait for their merge label.
const MOST: u32 = 1023;

/// What the instructions so far say of a label.
#[derive(Clone, Copy, Debug)]
pub struct Named {
    /// How many merge instructions name it.
    pub merges: u32,
    /// Whether it has stood.
    pub stood: bool,
}

const UNNAMED: Named = Named {
    merges: 0,
    stood: false,
};

/// The merge instructions so far.
#[derive(Drop)]
pub struct Merges {
    /// How many wait for their merge label.
    pub waiting: u32,
    /// What is said of each label that a merge instruction of the module names.
    pub named: BTreeMap<u32, Named>,
}

fn is_merge(inst: &Inst) -> bool
    ensures { result ≡ merges.is_merge inst.now }
{
    matches!(inst.opcode, op::LOOP_MERGE | op::SELECTION_MERGE)
}

/// Puts the label that a merge instruction names.
fn put_label(named: &mut BTreeMap<u32, Named>, inst: &Inst) -> Result<(), OutOfMemory>
    ensures { OnOk result (merges.IsPut (tree.get nat_cmp named.old) (tree.get nat_cmp named.new) inst.now) }
{
    if !is_merge(inst) {
        return Ok(());
    }
    match named.insert(operand(inst, 0), UNNAMED) {
        Ok(_) => Ok(()),
        Err(_) => Err(OutOfMemory),
    }
}

/// The labels that merge instructions name, of which nothing is said so far.
fn named_labels(alloc: Global, insts: &[Inst]) -> Result<BTreeMap<u32, Named>, OutOfMemory>
    ensures { IfOk result (λ named. merges.AreNamed (tree.get nat_cmp named) insts.now) }
{
    let mut named = BTreeMap::new(alloc);
    for inst in insts {
        put_label(&mut named, inst)?;
    }
    Ok(named)
}

/// The label that a merge instruction names, or that stands there.
fn label_of(inst: &Inst) -> Option<u32>
    ensures { result ≡ merges.label_of inst.now }
{
    match inst.opcode {
        op::LOOP_MERGE | op::SELECTION_MERGE | op::LABEL => Some(operand(inst, 0)),
        _ => None,
    }
}

fn named_with(is_label: bool, named: Named) -> Named
    requires { named.merges + 1 < 2 ^ 32 }
    ensures { result ≡ merges.named_with is_label named }
{
    if is_label {
        Named {
            merges: named.merges,
            stood: true,
        }
    } else {
        Named {
            merges: named.merges + 1,
            stood: named.stood,
        }
    }
}

fn waiting_with(is_label: bool, named: Named, count: u32) -> u32
    requires { count + 1 < 2 ^ 32 }
    ensures { result ≡ merges.waiting_with is_label named count }
{
    if named.stood {
        count
    } else if is_label {
        count.saturating_sub(named.merges)
    } else {
        count + 1
    }
}

/// Counts an instruction. A label that no merge instruction names has no entry, and changes nothing.
fn pass(passed: &mut Merges, inst: &Inst)
    requires few_waiting { passed.old.waiting + 1 < 2 ^ 32 }
    requires few_named { merges.HasRoom (tree.get nat_cmp passed.old.named) inst.now }
    ensures { merges.IsPassed passed.old.waiting passed.new.waiting (tree.get nat_cmp passed.old.named) (tree.get nat_cmp passed.new.named) inst.now }
{
    let Some(label) = label_of(inst) else {
        return;
    };
    let Some(named) = passed.named.get_mut(&label) else {
        return;
    };
    let is_label = inst.opcode == op::LABEL;
    passed.waiting = waiting_with(is_label, *named, passed.waiting);
    *named = named_with(is_label, *named);
}

/// The place of the merge instruction with which more than 1,023 wait for their merge label (rule V14).
pub fn first_crowded(alloc: Global, insts: &[Inst]) -> Result<Option<usize>, OutOfMemory>
    requires { length insts.now < 2 ^ 32 }
    ensures { IfOk result (IsThePlace (merges.MakesCrowded insts.now)) }
{
    let mut passed = Merges {
        waiting: 0,
        named: named_labels(alloc, insts)?,
    };
    for (at, inst) in insts.iter().enumerate() {
        pass(&mut passed, inst);
        if passed.waiting > MOST {
            return Ok(Some(at));
        }
    }
    Ok(None)
}
