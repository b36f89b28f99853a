ghost use Rattle.std.specs.Prelude.{◌≡◌, ◌+◌, ◌<◌, ◌≤◌, ◌^◌, length, IfOk, OnOk};
ghost use Rattle.std.specs.List.{list_all};
ghost use Rattle.std.specs.Option.{option_copied, unwrap_or};
ghost use Rattle.std.specs.Ordering.{nat_cmp};
ghost use Rattle.std.specs.BTreeMap as tree;
ghost use Rattle.module_rules.specs.Entry as entry;

use dx_base::OutOfMemory;
use spirv_words::last_of;
use spv_form::{Inst, Shape, Version, op};
use spv_ids::{Ids, first_with, operand};
use std::alloc::Global;
use std::collections::BTreeMap;
use type_rules::is_void;

/// The ids of an entry point's interface, which stand behind its name.
#[tactic(auto, unfolding(crate::specs::Entry::interface))]
fn interface(inst: &Inst) -> &[u32]
    ensures ids { result.now ≡ entry.interface inst.now }
    ensures few { length result.now ≤ length inst.now.operands }
{
    let operands = inst.operands.as_slice();
    let shape = Shape::Text {
        before: 2,
        after: true,
        numbers: 1,
    };
    match last_of(shape, operands) {
        Some(last) => {
            if last < operands.len() {
                &operands[last + 1..]
            } else {
                &operands[..0]
            }
        }
        None => &operands[..0],
    }
}

/// Counts an id.
fn count(counts: &mut BTreeMap<u32, u32>, id: u32) -> Result<(), OutOfMemory>
    requires { unwrap_or (tree.get nat_cmp counts.old id) 0 + 1 < 2 ^ 32 }
    ensures { OnOk result (entry.IsCounted (tree.get nat_cmp counts.old) (tree.get nat_cmp counts.new) id) }
{
    let before = counts.get(&id).copied().unwrap_or(0);
    match counts.insert(id, before + 1) {
        Ok(_) => Ok(()),
        Err(_) => Err(OutOfMemory),
    }
}

/// How often each id stands in a list.
fn counts_of(alloc: Global, ids: &[u32]) -> Result<BTreeMap<u32, u32>, OutOfMemory>
    requires { length ids.now < 2 ^ 32 }
    ensures { IfOk result (λ counts. entry.AreCounts (tree.get nat_cmp counts) ids.now) }
{
    let mut counts = BTreeMap::new(alloc);
    for id in ids {
        count(&mut counts, *id)?;
    }
    Ok(counts)
}

/// The storage classes that decide whether an interface lists a variable (SPIR-V 1.6, "Storage Class").
const INPUT: u32 = 1;

const FUNCTION: u32 = 7;

/// Whether an instruction is a variable that an interface lists: a global one at version 1.6, an Input variable at version 1.3.
fn is_listed_variable(version: Version, inst: &Inst) -> bool
    ensures { result ≡ entry.is_listed_variable version inst.now }
{
    inst.opcode == op::VARIABLE
        && match version {
            Version::V16 => operand(inst, 2) != FUNCTION,
            Version::V13 => operand(inst, 2) == INPUT,
        }
}

/// Whether an instruction is no variable that is listed, or stands once by the counts.
fn is_listed_once(version: Version, counts: &BTreeMap<u32, u32>, inst: &Inst) -> bool
    ensures { result ≡ entry.is_listed_once version (tree.get nat_cmp counts.now) inst.now }
{
    !is_listed_variable(version, inst) || counts.get(&operand(inst, 1)).copied().unwrap_or(0) == 1
}

/// Whether each variable that is listed stands once by the counts.
fn are_listed_once(version: Version, counts: &BTreeMap<u32, u32>, insts: &[Inst]) -> bool
    ensures { result ≡ list_all (entry.is_listed_once version (tree.get nat_cmp counts.now)) insts.now }
{
    insts
        .iter()
        .all(|inst| is_listed_once(version, counts, inst))
}

/// Whether the id is an Input variable.
#[tactic(auto, unfolding(crate::specs::Entry::is_input))]
fn is_input(ids: &Ids, id: u32) -> bool
    ensures { result ≡ entry.is_input ids.now id }
{
    match ids.definition(id) {
        Some(inst) => is_listed_variable(Version::V13, inst),
        None => false,
    }
}

/// Whether each of these ids is an Input variable.
fn are_inputs(ids: &Ids, listed: &[u32]) -> bool
    ensures { result ≡ list_all (entry.is_input ids.now) listed.now }
{
    listed.iter().all(|id| is_input(ids, *id))
}

/// Whether an interface lists an id that it may not list: at version 1.3 any but the Input variables.
fn lists_another(version: Version, ids: &Ids, listed: &[u32]) -> bool
    ensures { result ≡ entry.lists_another version ids.now listed.now }
{
    match version {
        Version::V16 => false,
        Version::V13 => !are_inputs(ids, listed),
    }
}

/// Whether an instruction is an entry point with a wrong interface (rule V9): at version 1.6 it does not list each global variable
/// exactly once; at version 1.3 it does not list each Input variable exactly once, or it lists another id.
#[tactic(auto, unfolding(crate::specs::Entry::is_wrong_interface))]
pub fn is_wrong_interface(
    alloc: Global,
    version: Version,
    ids: &Ids,
    inst: &Inst,
) -> Result<bool, OutOfMemory>
    requires { length inst.now.operands < 2 ^ 32 }
    ensures { IfOk result (λ wrong. wrong ≡ entry.is_wrong_interface version ids.now inst.now) }
{
    if inst.opcode != op::ENTRY_POINT {
        return Ok(false);
    }
    let listed = interface(inst);
    let counts = counts_of(alloc, listed)?;
    Ok(!are_listed_once(version, &counts, ids.insts()) || lists_another(version, ids, listed))
}

/// Whether the id is a type of functions of void without parameters.
#[tactic(auto, unfolding(crate::specs::Entry::is_void_function))]
fn is_void_function(ids: &Ids, ty: u32) -> bool
    ensures { result ≡ entry.is_void_function ids.now ty }
{
    match ids.definition(ty) {
        Some(inst) => {
            inst.opcode == op::TYPE_FUNCTION
                && inst.operands.len() == 2
                && is_void(ids, operand(inst, 1))
        }
        None => false,
    }
}

/// The function of the module: the first one, if there are several.
fn function<'a>(insts: &'a [Inst]) -> Option<&'a Inst>
    ensures { option_copied result ≡ entry.function insts.now }
{
    match first_with(insts, op::FUNCTION) {
        Some(at) => insts.get(at),
        None => None,
    }
}

/// Whether the id is that of the function, and this is of void without parameters.
#[tactic(auto, unfolding(crate::specs::Entry::is_entry))]
fn is_entry(ids: &Ids, id: u32) -> bool
    ensures { result ≡ entry.is_entry ids.now id }
{
    match function(ids.insts()) {
        Some(inst) => operand(inst, 1) == id && is_void_function(ids, operand(inst, 3)),
        None => false,
    }
}

/// Whether an instruction is an entry point whose function is none of void without parameters (rule V10).
#[tactic(auto, unfolding(crate::specs::Entry::is_wrong_entry))]
pub fn is_wrong_entry(ids: &Ids, inst: &Inst) -> bool
    ensures { result ≡ entry.is_wrong_entry ids.now inst.now }
{
    inst.opcode == op::ENTRY_POINT && !is_entry(ids, operand(inst, 1))
}

/// Whether three thread counts are from 1 to 1024, 1024 and 64, and their product is at most 1024.
fn is_size(x: u32, y: u32, z: u32) -> bool
    ensures { result ≡ entry.is_size x y z }
{
    if x < 1 || x > 1024 || y < 1 || y > 1024 || z < 1 || z > 64 {
        return false;
    }
    x * y * z <= 1024
}

/// Whether an instruction is a size of thread groups that is out of bounds (rule V12).
#[tactic(auto, unfolding(crate::specs::Entry::is_wrong_size))]
pub fn is_wrong_size(inst: &Inst) -> bool
    ensures { result ≡ entry.is_wrong_size inst.now }
{
    inst.opcode == op::EXECUTION_MODE
        && !is_size(operand(inst, 2), operand(inst, 3), operand(inst, 4))
}

/// Whether an instruction is a switch with more than 16,383 pairs (rule V15).
#[tactic(auto, unfolding(crate::specs::Entry::has_many_pairs))]
pub fn has_many_pairs(inst: &Inst) -> bool
    ensures { result ≡ entry.has_many_pairs inst.now }
{
    inst.opcode == op::SWITCH && inst.operands.len() > 2 + 2 * 16383
}
