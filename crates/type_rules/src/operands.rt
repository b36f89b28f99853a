ghost use Rattle.std.specs.Prelude.{◌≡◌, ◌≤◌, length};
ghost use Rattle.std.specs.List.{list_all};
ghost use Rattle.type_rules.specs.Values as label;
ghost use Rattle.type_rules.specs.Fits as asked;

use crate::group::{Group, group_of};
use crate::types::{is_bool, is_int};
use crate::values::{
    has_type, is_bool_value, is_constant, is_int_value, is_label, leads, pointer_of, pointer_type,
    points_to, points_to_int, points_to_runtime_array, value_type,
};
use spv_form::{Inst, op};
use spv_ids::{Ids, operand};

#[tactic(auto, unfolding(crate::specs::Fits::both_ints))]
fn both_ints(ids: &Ids, inst: &Inst) -> bool
    ensures { result ≡ asked.both_ints ids.now inst.now }
{
    is_int_value(ids, operand(inst, 2)) && is_int_value(ids, operand(inst, 3))
}

#[tactic(auto, unfolding(crate::specs::Fits::both_bools))]
fn both_bools(ids: &Ids, inst: &Inst) -> bool
    ensures { result ≡ asked.both_bools ids.now inst.now }
{
    is_bool_value(ids, operand(inst, 2)) && is_bool_value(ids, operand(inst, 3))
}

#[tactic(auto, unfolding(crate::specs::Fits::select_fits))]
fn select_fits(ids: &Ids, inst: &Inst) -> bool
    ensures { result ≡ asked.select_fits ids.now inst.now }
{
    let ty = operand(inst, 0);
    is_bool_value(ids, operand(inst, 2))
        && has_type(ids, ty, operand(inst, 3))
        && has_type(ids, ty, operand(inst, 4))
}

#[tactic(auto, unfolding(crate::specs::Fits::function_fits))]
fn function_fits(ids: &Ids, inst: &Inst) -> bool
    ensures { result ≡ asked.function_fits ids.now inst.now }
{
    match ids.definition(operand(inst, 3)) {
        Some(ty) => ty.opcode == op::TYPE_FUNCTION && operand(ty, 1) == operand(inst, 0),
        None => false,
    }
}

#[tactic(auto, unfolding(crate::specs::Fits::variable_fits))]
fn variable_fits(ids: &Ids, inst: &Inst) -> bool
    ensures { result ≡ asked.variable_fits ids.now inst.now }
{
    match pointer_type(ids, operand(inst, 0)) {
        Some(pointer) => {
            operand(pointer, 1) == operand(inst, 2)
                && (inst.operands.len() <= 3
                    || has_type(ids, operand(pointer, 2), operand(inst, 3)))
        }
        None => false,
    }
}

#[tactic(auto, unfolding(crate::specs::Fits::store_fits))]
fn store_fits(ids: &Ids, inst: &Inst) -> bool
    ensures { result ≡ asked.store_fits ids.now inst.now }
{
    match value_type(ids, operand(inst, 1)) {
        Some(ty) => points_to(ids, ty, operand(inst, 0)),
        None => false,
    }
}

/// Whether the indices of an access chain lead from the one pointer's pointee to the other's.
#[tactic(auto, unfolding(crate::specs::Fits::leads_to))]
fn leads_to(ids: &Ids, inst: &Inst, base: &Inst, pointer: &Inst) -> bool
    requires { 3 ≤ length inst.now.operands }
    ensures { result ≡ asked.leads_to ids.now inst.now base.now pointer.now }
{
    match leads(ids, operand(base, 2), &inst.operands.as_slice()[3..]) {
        Some(ty) => ty == operand(pointer, 2),
        None => false,
    }
}

#[tactic(auto, unfolding(crate::specs::Fits::chain_fits))]
fn chain_fits(ids: &Ids, inst: &Inst) -> bool
    ensures { result ≡ asked.chain_fits ids.now inst.now }
{
    if inst.operands.len() < 3 {
        return false;
    }
    let Some(pointer) = pointer_type(ids, operand(inst, 0)) else {
        return false;
    };
    match pointer_of(ids, operand(inst, 2)) {
        Some(base) => {
            operand(pointer, 1) == operand(base, 1) && leads_to(ids, inst, base, pointer)
        }
        None => false,
    }
}

#[tactic(auto, unfolding(crate::specs::Fits::length_fits))]
fn length_fits(ids: &Ids, inst: &Inst) -> bool
    ensures { result ≡ asked.length_fits ids.now inst.now }
{
    is_int(ids, operand(inst, 0))
        && points_to_runtime_array(ids, operand(inst, 2))
        && operand(inst, 3) == 0
}

#[tactic(auto, unfolding(crate::specs::Fits::extract_fits))]
fn extract_fits(ids: &Ids, inst: &Inst) -> bool
    ensures { result ≡ asked.extract_fits ids.now inst.now }
{
    if !is_int(ids, operand(inst, 0)) {
        return false;
    }
    let Some(ty) = value_type(ids, operand(inst, 2)) else {
        return false;
    };
    match ids.definition(ty) {
        Some(vector) => {
            vector.opcode == op::TYPE_VECTOR
                && operand(vector, 1) == operand(inst, 0)
                && operand(inst, 3) < operand(vector, 2)
        }
        None => false,
    }
}

#[tactic(auto, unfolding(crate::specs::Fits::atomic_fits))]
fn atomic_fits(ids: &Ids, inst: &Inst) -> bool
    ensures { result ≡ asked.atomic_fits ids.now inst.now }
{
    is_int(ids, operand(inst, 0))
        && points_to_int(ids, operand(inst, 2))
        && is_constant(ids, operand(inst, 3))
        && is_constant(ids, operand(inst, 4))
}

#[tactic(auto, unfolding(crate::specs::Fits::exchange_fits))]
fn exchange_fits(ids: &Ids, inst: &Inst) -> bool
    ensures { result ≡ asked.exchange_fits ids.now inst.now }
{
    is_constant(ids, operand(inst, 5))
        && is_int_value(ids, operand(inst, 6))
        && is_int_value(ids, operand(inst, 7))
}

/// Whether the second words of pairs are labels.
fn are_labels(ids: &Ids, pairs: &[u32]) -> bool
    ensures { result ≡ list_all (label.is_label ids.now) (asked.seconds pairs.now) }
{
    for (at, word) in pairs.iter().enumerate() {
        if at % 2 == 1 && !is_label(ids, *word) {
            return false;
        }
    }
    true
}

#[tactic(auto, unfolding(crate::specs::Fits::switch_fits))]
fn switch_fits(ids: &Ids, inst: &Inst) -> bool
    ensures { result ≡ asked.switch_fits ids.now inst.now }
{
    is_int_value(ids, operand(inst, 0)) && are_labels(ids, inst.operands.as_slice())
}

/// Whether the operands and the type of an instruction fit (rule V6).
#[tactic(auto, unfolding(crate::specs::Fits::fits))]
pub fn fits(ids: &Ids, inst: &Inst) -> bool
    ensures { result ≡ asked.fits ids.now inst.now }
{
    let ty = operand(inst, 0);
    match group_of(inst.opcode) {
        Group::Arithmetic => is_int(ids, ty) && both_ints(ids, inst),
        Group::Bits => is_int(ids, ty) && is_int_value(ids, operand(inst, 2)),
        Group::Compare => is_bool(ids, ty) && both_ints(ids, inst),
        Group::Logic => is_bool(ids, ty) && both_bools(ids, inst),
        Group::Not => is_bool(ids, ty) && is_bool_value(ids, operand(inst, 2)),
        Group::Select => select_fits(ids, inst),
        Group::Truth => is_bool(ids, ty),
        Group::Number => is_int(ids, ty),
        Group::Function => function_fits(ids, inst),
        Group::Variable => variable_fits(ids, inst),
        Group::Load => points_to(ids, ty, operand(inst, 2)),
        Group::Store => store_fits(ids, inst),
        Group::Chain => chain_fits(ids, inst),
        Group::Length => length_fits(ids, inst),
        Group::Extract => extract_fits(ids, inst),
        Group::Atomic => atomic_fits(ids, inst) && is_int_value(ids, operand(inst, 5)),
        Group::Exchange => atomic_fits(ids, inst) && exchange_fits(ids, inst),
        Group::ControlBarrier => {
            is_constant(ids, operand(inst, 0))
                && is_constant(ids, operand(inst, 1))
                && is_constant(ids, operand(inst, 2))
        }
        Group::MemoryBarrier => {
            is_constant(ids, operand(inst, 0)) && is_constant(ids, operand(inst, 1))
        }
        Group::LoopMerge => is_label(ids, operand(inst, 0)) && is_label(ids, operand(inst, 1)),
        Group::Target => is_label(ids, operand(inst, 0)),
        Group::Conditional => {
            is_bool_value(ids, operand(inst, 0))
                && is_label(ids, operand(inst, 1))
                && is_label(ids, operand(inst, 2))
        }
        Group::Switch => switch_fits(ids, inst),
        Group::Other => true,
    }
}
