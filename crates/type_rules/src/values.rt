ghost use Rattle.std.specs.Prelude.{◌≡◌};
ghost use Rattle.std.specs.Option.{option_copied};
ghost use Rattle.type_rules.specs.Values as values;

use crate::types::{is_bool, is_int};
use spv_form::{Inst, op};
use spv_ids::{Ids, operand, type_of};

/// The type of a value.
#[tactic(auto, unfolding(crate::specs::Values::value_type))]
pub fn value_type(ids: &Ids, value: u32) -> Option<u32>
    ensures { result ≡ values.value_type ids.now value }
{
    match ids.definition(value) {
        Some(inst) => type_of(inst),
        None => None,
    }
}

/// Whether the value is of this type.
#[tactic(auto, unfolding(crate::specs::Values::has_type))]
pub fn has_type(ids: &Ids, ty: u32, value: u32) -> bool
    ensures { result ≡ values.has_type ids.now ty value }
{
    match value_type(ids, value) {
        Some(of) => of == ty,
        None => false,
    }
}

/// Whether the value is an integer.
#[tactic(auto, unfolding(crate::specs::Values::is_int_value))]
pub fn is_int_value(ids: &Ids, value: u32) -> bool
    ensures { result ≡ values.is_int_value ids.now value }
{
    match value_type(ids, value) {
        Some(ty) => is_int(ids, ty),
        None => false,
    }
}

/// Whether the value is a bool.
#[tactic(auto, unfolding(crate::specs::Values::is_bool_value))]
pub fn is_bool_value(ids: &Ids, value: u32) -> bool
    ensures { result ≡ values.is_bool_value ids.now value }
{
    match value_type(ids, value) {
        Some(ty) => is_bool(ids, ty),
        None => false,
    }
}

/// Whether the value is an integer constant.
#[tactic(auto, unfolding(crate::specs::Values::is_constant))]
pub fn is_constant(ids: &Ids, value: u32) -> bool
    ensures { result ≡ values.is_constant ids.now value }
{
    match ids.definition(value) {
        Some(inst) => inst.opcode == op::CONSTANT && is_int(ids, operand(inst, 0)),
        None => false,
    }
}

/// Whether the value is the integer constant 0.
#[tactic(auto, unfolding(crate::specs::Values::is_zero))]
fn is_zero(ids: &Ids, value: u32) -> bool
    ensures { result ≡ values.is_zero ids.now value }
{
    match ids.definition(value) {
        Some(inst) => {
            inst.opcode == op::CONSTANT && is_int(ids, operand(inst, 0)) && operand(inst, 2) == 0
        }
        None => false,
    }
}

/// Whether the id is a label.
#[tactic(auto, unfolding(crate::specs::Values::is_label))]
pub fn is_label(ids: &Ids, label: u32) -> bool
    ensures { result ≡ values.is_label ids.now label }
{
    match ids.definition(label) {
        Some(inst) => inst.opcode == op::LABEL,
        None => false,
    }
}

/// The pointer type that the id is.
#[tactic(auto, unfolding(crate::specs::Values::pointer_type))]
pub fn pointer_type<'a>(ids: &Ids<'a>, ty: u32) -> Option<&'a Inst>
    ensures { option_copied result ≡ values.pointer_type ids.now ty }
{
    match ids.definition(ty) {
        Some(inst) => {
            if inst.opcode == op::TYPE_POINTER {
                Some(inst)
            } else {
                None
            }
        }
        None => None,
    }
}

/// The type of a value that is a pointer.
#[tactic(auto, unfolding(crate::specs::Values::pointer_of))]
pub fn pointer_of<'a>(ids: &Ids<'a>, value: u32) -> Option<&'a Inst>
    ensures { option_copied result ≡ values.pointer_of ids.now value }
{
    match value_type(ids, value) {
        Some(ty) => pointer_type(ids, ty),
        None => None,
    }
}

/// Whether the value is a pointer to this type.
#[tactic(auto, unfolding(crate::specs::Values::points_to))]
pub fn points_to(ids: &Ids, ty: u32, value: u32) -> bool
    ensures { result ≡ values.points_to ids.now ty value }
{
    match pointer_of(ids, value) {
        Some(pointer) => operand(pointer, 2) == ty,
        None => false,
    }
}

/// Whether the value is a pointer to an integer.
#[tactic(auto, unfolding(crate::specs::Values::points_to_int))]
pub fn points_to_int(ids: &Ids, value: u32) -> bool
    ensures { result ≡ values.points_to_int ids.now value }
{
    match pointer_of(ids, value) {
        Some(pointer) => is_int(ids, operand(pointer, 2)),
        None => false,
    }
}

/// Whether the id is a runtime array.
#[tactic(auto, unfolding(crate::specs::Values::is_runtime_array))]
fn is_runtime_array(ids: &Ids, ty: u32) -> bool
    ensures { result ≡ values.is_runtime_array ids.now ty }
{
    match ids.definition(ty) {
        Some(inst) => inst.opcode == op::TYPE_RUNTIME_ARRAY,
        None => false,
    }
}

/// Whether the id is a structure of one runtime array.
#[tactic(auto, unfolding(crate::specs::Values::holds_runtime_array))]
fn holds_runtime_array(ids: &Ids, ty: u32) -> bool
    ensures { result ≡ values.holds_runtime_array ids.now ty }
{
    match ids.definition(ty) {
        Some(inst) => {
            inst.opcode == op::TYPE_STRUCT
                && inst.operands.len() == 2
                && is_runtime_array(ids, operand(inst, 1))
        }
        None => false,
    }
}

/// Whether the value is a pointer to a structure of one runtime array.
#[tactic(auto, unfolding(crate::specs::Values::points_to_runtime_array))]
pub fn points_to_runtime_array(ids: &Ids, value: u32) -> bool
    ensures { result ≡ values.points_to_runtime_array ids.now value }
{
    match pointer_of(ids, value) {
        Some(pointer) => holds_runtime_array(ids, operand(pointer, 2)),
        None => false,
    }
}

/// The type behind one index of a type.
#[tactic(auto, unfolding(crate::specs::Values::behind))]
fn behind(ids: &Ids, ty: u32, index: u32) -> Option<u32>
    ensures { result ≡ values.behind ids.now ty index }
{
    let Some(inst) = ids.definition(ty) else {
        return None;
    };
    let fits = match inst.opcode {
        op::TYPE_STRUCT => is_zero(ids, index),
        op::TYPE_VECTOR | op::TYPE_ARRAY | op::TYPE_RUNTIME_ARRAY => is_int_value(ids, index),
        _ => false,
    };
    if fits { Some(operand(inst, 1)) } else { None }
}

/// The type that indices lead to from a type.
pub fn leads(ids: &Ids, from: u32, indices: &[u32]) -> Option<u32>
    ensures { result ≡ values.leads ids.now from indices.now }
{
    let mut ty = from;
    for index in indices {
        match behind(ids, ty, *index) {
            Some(next) => ty = next,
            None => return None,
        }
    }
    Some(ty)
}
