ghost use Rattle.std.specs.Prelude.{◌≡◌};
ghost use Rattle.spv_ids.specs.Roles.{operand as operand_of, result_place as place_of, result_of as result_id, type_of as type_id};

use spv_form::{Inst, Shape, shape_of};

/// The operand word at a place; 0 where there is none.
pub fn operand(inst: &Inst, at: usize) -> u32
    ensures { result ≡ operand_of inst.now at }
{
    inst.operands.get(at).copied().unwrap_or(0)
}

/// Where among the operands of a shape the result stands: first, or behind the type.
pub fn result_place(shape: Shape) -> Option<usize>
    ensures { result ≡ place_of shape }
{
    match shape {
        Shape::Plain {
            has_type,
            has_id,
            ..
        } => {
            if has_id {
                Some(usize::from(has_type))
            } else {
                None
            }
        }
        Shape::Text { .. } => None,
        Shape::Pairs => None,
    }
}

/// The id that an instruction defines.
#[tactic(auto, unfolding(crate::specs::Roles::result_of))]
pub fn result_of(inst: &Inst) -> Option<u32>
    ensures { result ≡ result_id inst.now }
{
    let at = result_place(shape_of(inst.opcode)?)?;
    inst.operands.get(at).copied()
}

/// The id of an instruction's type.
#[tactic(auto, unfolding(crate::specs::Roles::type_of))]
pub fn type_of(inst: &Inst) -> Option<u32>
    ensures { result ≡ type_id inst.now }
{
    match shape_of(inst.opcode)? {
        Shape::Plain { has_type, .. } => {
            if has_type {
                inst.operands.get(0).copied()
            } else {
                None
            }
        }
        Shape::Text { .. } => None,
        Shape::Pairs => None,
    }
}
