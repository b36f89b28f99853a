ghost use Rattle.std.specs.Prelude.{◌≡◌, not, position};
ghost use Rattle.spv_ids.specs.Places as places;
ghost use Rattle.order_rules.specs.Once as once;

use spv_form::{Inst, op};
use spv_ids::{first_with, is_before, operand};
use std::marker::Model;

/// The instructions of a module, with where some of them first stand. Contracts see the instructions.
#[derive(Drop)]
pub struct Landmarks<'a> {
    insts: &'a [Inst],
    memory_model: Option<usize>,
    entry_point: Option<usize>,
    execution_mode: Option<usize>,
    capability: Option<usize>,
    function_end: Option<usize>,
    label: Option<usize>,
    /// How far behind the first label the first instruction stands that is no variable.
    other: Option<usize>,
}

impl<'a> Model for Landmarks<'a> {
    ghost use Rattle.std.specs.Prelude.{List};
    ghost use Rattle.spv_form.specs.declared.module.Inst.{Inst as Instruction};
    ghost use Rattle.order_rules.specs.Once.{AreLandmarks};

    ghost Value = { List Instruction };

    ghost view = { λ s. s.insts.now };

    ghost invariant = { λ s. AreLandmarks s.insts.now s.memory_model s.entry_point s.execution_mode s.capability s.function_end s.label s.other };
}

/// The place of the first instruction that is no variable.
fn first_no_variable(insts: &[Inst]) -> Option<usize>
    ensures { result ≡ position (λ x. not (places.is_op 59 x)) insts.now }
{
    insts.iter().position(|inst| inst.opcode != op::VARIABLE)
}

/// How far behind a label the first instruction stands that is no variable.
fn first_other(insts: &[Inst], label: Option<usize>) -> Option<usize>
    requires { once.IsWithin label insts.now }
    ensures { result ≡ once.other_behind insts.now label }
{
    match label {
        Some(label) => first_no_variable(&insts[label + 1..]),
        None => None,
    }
}

impl<'a> Landmarks<'a> {
    /// The landmarks of these instructions.
    pub fn of(insts: &'a [Inst]) -> Landmarks<'a>
        ensures { result ≡ insts.now }
    {
        let label = first_with(insts, op::LABEL);
        let other = first_other(insts, label);
        Landmarks {
            insts,
            memory_model: first_with(insts, op::MEMORY_MODEL),
            entry_point: first_with(insts, op::ENTRY_POINT),
            execution_mode: first_with(insts, op::EXECUTION_MODE),
            capability: first_with(insts, op::CAPABILITY),
            function_end: first_with(insts, op::FUNCTION_END),
            label,
            other,
        }
    }

    /// Whether one of the opcodes that stand once stands before a place.
    #[tactic(auto, using(spv_ids::proofs::PlaceLaws::any_before))]
    fn once_before(&self, at: usize, opcode: u16) -> bool
        ensures { result ≡ once.once_before self.now at opcode }
    {
        match opcode {
            op::MEMORY_MODEL => is_before(at, self.memory_model),
            op::ENTRY_POINT => is_before(at, self.entry_point),
            op::EXECUTION_MODE => is_before(at, self.execution_mode),
            op::CAPABILITY => is_before(at, self.capability),
            _ => false,
        }
    }

    /// Whether an instruction at a place is one that stands once, and has other numbers or stands again (rule V2).
    #[tactic(auto, unfolding(crate::specs::Once::is_wrong_once))]
    pub fn is_wrong_once(&self, at: usize, inst: &Inst) -> bool
        ensures { result ≡ once.is_wrong_once self.now at inst.now }
    {
        is_once(inst.opcode) && (!has_numbers(inst) || self.once_before(at, inst.opcode))
    }

    /// Whether a place is at the first block's head.
    #[tactic(auto, using(spv_ids::proofs::PlaceLaws::any_before), unfolding(crate::specs::Once::is_at_head))]
    fn is_at_head(&self, at: usize) -> bool
        ensures { result ≡ once.is_at_head self.now at }
    {
        match self.label {
            Some(label) => label < at && !is_before(at - (label + 1), self.other),
            None => false,
        }
    }

    /// Whether an instruction at a place is no variable, or one that may stand there, with an initializer or without (rule V11).
    #[tactic(auto, unfolding(crate::specs::Once::is_placed))]
    pub fn is_placed(&self, at: usize, inst: &Inst) -> bool
        ensures { result ≡ once.is_placed self.now at inst.now }
    {
        if inst.opcode != op::VARIABLE {
            return true;
        }
        if operand(inst, 2) == 7 {
            self.is_at_head(at) && inst.operands.len() > 3
        } else {
            inst.operands.len() <= 3
        }
    }

    /// Whether the module has a FunctionEnd.
    #[tactic(auto, using(spv_ids::proofs::PlaceLaws::any_some))]
    pub fn has_end(&self) -> bool
        ensures { result ≡ once.has self.now 56 }
    {
        self.function_end.is_some()
    }

    /// Whether the module has each of the four that stand once.
    #[tactic(auto, using(spv_ids::proofs::PlaceLaws::any_some), unfolding(crate::specs::Once::has_four))]
    pub fn has_four(&self) -> bool
        ensures { result ≡ once.has_four self.now }
    {
        self.memory_model.is_some()
            && self.entry_point.is_some()
            && self.execution_mode.is_some()
            && self.capability.is_some()
    }

    /// Whether the module has a block.
    #[tactic(auto, using(spv_ids::proofs::PlaceLaws::any_some))]
    pub fn has_block(&self) -> bool
        ensures { result ≡ once.has self.now 248 }
    {
        self.label.is_some()
    }
}

/// Whether an instruction of this opcode stands exactly once.
fn is_once(opcode: u16) -> bool
    ensures { result ≡ once.is_once opcode }
{
    match opcode {
        op::MEMORY_MODEL | op::ENTRY_POINT | op::EXECUTION_MODE | op::CAPABILITY => true,
        _ => false,
    }
}

/// Whether an instruction that stands once has the numbers that are asked.
#[tactic(auto, unfolding(crate::specs::Once::has_numbers))]
fn has_numbers(inst: &Inst) -> bool
    ensures { result ≡ once.has_numbers inst.now }
{
    match inst.opcode {
        op::MEMORY_MODEL => operand(inst, 0) == 0 && operand(inst, 1) == 1,
        op::ENTRY_POINT => operand(inst, 0) == 5,
        op::EXECUTION_MODE => operand(inst, 1) == 17,
        op::CAPABILITY => operand(inst, 0) == 1,
        _ => true,
    }
}
