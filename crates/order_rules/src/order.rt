ghost use Rattle.std.specs.Prelude.{◌≡◌};
ghost use Rattle.order_rules.specs.Order as order;

use spv_form::{Inst, op};
use spv_ids::operand;

/// Where the instructions so far lead.
#[derive(Clone, Copy, Debug, PartialEq, Eq)]
pub enum Phase {
    /// Before the function, in this part of the order.
    Global(u8),
    /// In the function, between two blocks.
    Function,
    /// In a block.
    Block,
    /// Behind the function.
    Closed,
}

/// The part of the order before the function that an instruction belongs to.
#[tactic(auto, unfolding(crate::specs::Order::part))]
fn part(inst: &Inst) -> Option<u8>
    ensures { result ≡ order.part inst.now }
{
    match inst.opcode {
        op::CAPABILITY => Some(0),
        op::MEMORY_MODEL => Some(1),
        op::ENTRY_POINT => Some(2),
        op::EXECUTION_MODE => Some(3),
        op::NAME => Some(4),
        op::DECORATE | op::MEMBER_DECORATE => Some(5),
        op::TYPE_VOID | op::TYPE_BOOL | op::TYPE_INT | op::TYPE_VECTOR | op::TYPE_ARRAY => Some(6),
        op::TYPE_RUNTIME_ARRAY | op::TYPE_STRUCT | op::TYPE_POINTER | op::TYPE_FUNCTION => Some(6),
        op::CONSTANT_TRUE | op::CONSTANT_FALSE | op::CONSTANT => Some(6),
        op::VARIABLE => { if operand(inst, 2) == 7 { None } else { Some(6) } }
        _ => None,
    }
}

/// Whether an instruction of this opcode ends a block.
pub fn is_terminator(opcode: u16) -> bool
    ensures { result ≡ order.is_terminator opcode }
{
    match opcode {
        op::BRANCH | op::BRANCH_CONDITIONAL | op::SWITCH | op::RETURN => true,
        _ => false,
    }
}

fn follow_global(now: u8, inst: &Inst, part: Option<u8>) -> Option<Phase>
    ensures { result ≡ order.follow_global now inst.now part }
{
    match part {
        Some(part) => {
            if now <= part {
                Some(Phase::Global(part))
            } else {
                None
            }
        }
        None => {
            if inst.opcode == op::FUNCTION {
                Some(Phase::Function)
            } else {
                None
            }
        }
    }
}

fn follow_block(inst: &Inst, part: Option<u8>) -> Option<Phase>
    ensures { result ≡ order.follow_block inst.now part }
{
    if part.is_some() {
        return None;
    }
    if is_terminator(inst.opcode) {
        return Some(Phase::Function);
    }
    match inst.opcode {
        op::FUNCTION | op::FUNCTION_END | op::LABEL => None,
        _ => Some(Phase::Block),
    }
}

/// Where an instruction leads; None where it cannot follow.
fn follow(phase: Phase, inst: &Inst) -> Option<Phase>
    ensures { result ≡ order.follow phase inst.now }
{
    match phase {
        Phase::Global(now) => follow_global(now, inst, part(inst)),
        Phase::Function => match inst.opcode {
            op::LABEL => Some(Phase::Block),
            op::FUNCTION_END => Some(Phase::Closed),
            _ => None,
        },
        Phase::Block => follow_block(inst, part(inst)),
        Phase::Closed => None,
    }
}

/// The place of the first instruction that cannot follow those before it (rule V1).
pub fn first_out_of_order(insts: &[Inst]) -> Option<usize>
    ensures { order.IsThePlace (order.OutOfOrder insts.now) result }
{
    let mut phase = Phase::Global(0);
    for (at, inst) in insts.iter().enumerate() {
        match follow(phase, inst) {
            Some(next) => phase = next,
            None => return Some(at),
        }
    }
    None
}
