ghost use Rattle.std.specs.Prelude.{◌≡◌};
ghost use Rattle.type_rules.specs.Types as types;

use spv_form::{Inst, op};
use spv_ids::{Ids, operand};

/// Whether the id is the type void.
#[tactic(auto, unfolding(crate::specs::Types::is_void))]
pub fn is_void(ids: &Ids, ty: u32) -> bool
    ensures { result ≡ types.is_void ids.now ty }
{
    match ids.definition(ty) {
        Some(inst) => inst.opcode == op::TYPE_VOID,
        None => false,
    }
}

/// Whether the id is the type bool.
#[tactic(auto, unfolding(crate::specs::Types::is_bool))]
pub fn is_bool(ids: &Ids, ty: u32) -> bool
    ensures { result ≡ types.is_bool ids.now ty }
{
    match ids.definition(ty) {
        Some(inst) => inst.opcode == op::TYPE_BOOL,
        None => false,
    }
}

/// Whether the id is the integer type of 32 bits.
#[tactic(auto, unfolding(crate::specs::Types::is_int))]
pub fn is_int(ids: &Ids, ty: u32) -> bool
    ensures { result ≡ types.is_int ids.now ty }
{
    match ids.definition(ty) {
        Some(inst) => {
            inst.opcode == op::TYPE_INT && operand(inst, 1) == 32 && operand(inst, 2) == 0
        }
        None => false,
    }
}

/// Whether the id is a vector of so many integers.
#[tactic(auto, unfolding(crate::specs::Types::is_vector))]
fn is_vector(ids: &Ids, count: u32, ty: u32) -> bool
    ensures { result ≡ types.is_vector ids.now count ty }
{
    match ids.definition(ty) {
        Some(inst) => {
            inst.opcode == op::TYPE_VECTOR
                && operand(inst, 2) == count
                && is_int(ids, operand(inst, 1))
        }
        None => false,
    }
}

/// Whether an array may have elements of this type.
#[tactic(auto, unfolding(crate::specs::Types::is_element))]
fn is_element(ids: &Ids, ty: u32) -> bool
    ensures { result ≡ types.is_element ids.now ty }
{
    is_int(ids, ty) || is_vector(ids, 4, ty)
}

/// Whether the id is an array or a runtime array.
#[tactic(auto, unfolding(crate::specs::Types::is_array))]
fn is_array(ids: &Ids, ty: u32) -> bool
    ensures { result ≡ types.is_array ids.now ty }
{
    match ids.definition(ty) {
        Some(inst) => {
            (inst.opcode == op::TYPE_ARRAY || inst.opcode == op::TYPE_RUNTIME_ARRAY)
                && is_element(ids, operand(inst, 1))
        }
        None => false,
    }
}

/// Whether an instruction of this opcode declares a type.
pub fn declares_type(opcode: u16) -> bool
    ensures { result ≡ types.declares_type opcode }
{
    match opcode {
        op::TYPE_VOID | op::TYPE_BOOL | op::TYPE_INT | op::TYPE_VECTOR | op::TYPE_ARRAY => true,
        op::TYPE_RUNTIME_ARRAY | op::TYPE_STRUCT | op::TYPE_POINTER | op::TYPE_FUNCTION => true,
        _ => false,
    }
}

/// Whether the id is a type.
#[tactic(auto, unfolding(crate::specs::Types::is_type))]
fn is_type(ids: &Ids, ty: u32) -> bool
    ensures { result ≡ types.is_type ids.now ty }
{
    match ids.definition(ty) {
        Some(inst) => declares_type(inst.opcode),
        None => false,
    }
}

/// Whether an instruction is no type, or one that a module may have (rule V5).
#[tactic(auto, unfolding(crate::specs::Types::is_listed))]
pub fn is_listed(ids: &Ids, inst: &Inst) -> bool
    ensures { result ≡ types.is_listed ids.now inst.now }
{
    match inst.opcode {
        op::TYPE_INT => operand(inst, 1) == 32 && operand(inst, 2) == 0,
        op::TYPE_VECTOR => {
            is_int(ids, operand(inst, 1)) && (operand(inst, 2) == 3 || operand(inst, 2) == 4)
        }
        op::TYPE_ARRAY | op::TYPE_RUNTIME_ARRAY => is_element(ids, operand(inst, 1)),
        op::TYPE_STRUCT => inst.operands.len() == 2 && is_array(ids, operand(inst, 1)),
        op::TYPE_POINTER => is_type(ids, operand(inst, 2)),
        op::TYPE_FUNCTION => inst.operands.len() == 2 && is_void(ids, operand(inst, 1)),
        _ => true,
    }
}
