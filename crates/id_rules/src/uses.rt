ghost use Rattle.std.specs.Prelude.{◌≡◌, ◌<◌, ◌↔◌, IsTrue, length};
ghost use Rattle.id_rules.specs.Uses as uses;

use crate::blocks::Blocks;
use spirv_words::{is_id, last_of};
use spv_form::{Inst, op, shape_of};
use spv_ids::{Ids, is_before, is_there, operand, result_of, result_place};

/// Whether an instruction before the place defines the result of this one (rule V3).
#[tactic(auto, using(spv_ids::proofs::PlaceLaws::any_before), unfolding(crate::specs::Uses::is_defined_again))]
pub fn is_defined_again(ids: &Ids, at: usize, inst: &Inst) -> bool
    ensures { result ≡ uses.is_defined_again ids.now at inst.now }
{
    match result_of(inst) {
        Some(id) => is_before(at, ids.definer(id)),
        None => false,
    }
}

/// Whether an instruction of this opcode may use an id before its definition.
fn is_excused(opcode: u16) -> bool
    ensures { result ≡ uses.is_excused opcode }
{
    match opcode {
        op::NAME | op::ENTRY_POINT | op::EXECUTION_MODE | op::DECORATE | op::MEMBER_DECORATE =>
            true,
        _ => false,
    }
}

/// Whether the result of an instruction at a place may not be used at another.
#[tactic(auto, unfolding(crate::specs::Uses::is_out_of_reach))]
fn is_out_of_reach(blocks: &Blocks, at: usize, place: usize, inst: &Inst) -> bool
    requires at_within { at < length blocks.now }
    requires place_within { place < length blocks.now }
    ensures { result ≡ uses.is_out_of_reach blocks.now at place inst.now }
{
    if inst.opcode == op::LABEL {
        return false;
    }
    if at <= place {
        return true;
    }
    if inst.opcode == op::VARIABLE && operand(inst, 2) == 7 {
        return false;
    }
    let block = blocks.block_of(place);
    block > 0 && block != blocks.block_of(at)
}

/// Whether an instruction at a place may not use the id.
#[tactic(auto, unfolding(crate::specs::Uses::is_misused))]
fn is_misused(ids: &Ids, blocks: &Blocks, at: usize, inst: &Inst, id: u32) -> bool
    requires same { blocks.now ≡ ids.now }
    requires within { at < length ids.now }
    ensures { result ≡ uses.is_misused ids.now at inst.now id }
{
    let Some(place) = ids.definer(id) else {
        return true;
    };
    if is_excused(inst.opcode) {
        return false;
    }
    let insts = ids.insts();
    if place >= insts.len() {
        return false;
    }
    is_out_of_reach(blocks, at, place, &insts[place])
}

/// Whether an instruction at a place uses an id that it may not use (rule V4).
pub fn misuses(ids: &Ids, blocks: &Blocks, at: usize, inst: &Inst) -> bool
    requires same { blocks.now ≡ ids.now }
    requires within { at < length ids.now }
    ensures { IsTrue result ↔ uses.Misuses ids.now at inst.now }
{
    let Some(shape) = shape_of(inst.opcode) else {
        return false;
    };
    let last = last_of(shape, inst.operands.as_slice());
    let result = result_place(shape);
    for (k, word) in inst.operands.as_slice().iter().enumerate() {
        if is_id(shape, last, k)
            && !is_there(k, result)
            && is_misused(ids, blocks, at, inst, *word)
        {
            return true;
        }
    }
    false
}
