ghost use Rattle.std.specs.Prelude.{◌≡◌};
ghost use Rattle.type_rules.specs.Fits.{group_of as group};

use spv_form::op;

/// What is asked of the operands of an opcode.
#[derive(Clone, Copy, Debug, PartialEq, Eq)]
pub enum Group {
    /// Integers to an integer.
    Arithmetic,
    /// An integer to an integer.
    Bits,
    /// Integers to a bool.
    Compare,
    /// Bools to a bool.
    Logic,
    /// A bool to a bool.
    Not,
    Select,
    /// A constant of bool.
    Truth,
    /// A constant of the integer type.
    Number,
    Function,
    Variable,
    Load,
    Store,
    Chain,
    Length,
    Extract,
    Atomic,
    Exchange,
    ControlBarrier,
    MemoryBarrier,
    LoopMerge,
    /// A merge or a branch that names one label.
    Target,
    Conditional,
    Switch,
    /// Nothing is asked.
    Other,
}

/// The group of an opcode.
#[tactic(auto, unfolding(crate::specs::Fits::group_of))]
pub fn group_of(opcode: u16) -> Group
    ensures { result ≡ group opcode }
{
    match opcode {
        op::I_ADD | op::I_SUB | op::I_MUL | op::U_DIV | op::S_DIV | op::U_MOD | op::S_REM => {
            Group::Arithmetic
        }
        op::SHIFT_RIGHT_LOGICAL..=op::BITWISE_AND => Group::Arithmetic,
        op::BIT_REVERSE | op::BIT_COUNT => Group::Bits,
        op::I_EQUAL..=op::S_LESS_THAN_EQUAL => Group::Compare,
        op::LOGICAL_EQUAL..=op::LOGICAL_AND => Group::Logic,
        op::LOGICAL_NOT => Group::Not,
        op::SELECT => Group::Select,
        op::CONSTANT_TRUE | op::CONSTANT_FALSE => Group::Truth,
        op::CONSTANT => Group::Number,
        op::FUNCTION => Group::Function,
        op::VARIABLE => Group::Variable,
        op::LOAD => Group::Load,
        op::STORE => Group::Store,
        op::ACCESS_CHAIN => Group::Chain,
        op::ARRAY_LENGTH => Group::Length,
        op::COMPOSITE_EXTRACT => Group::Extract,
        op::ATOMIC_EXCHANGE | op::ATOMIC_I_ADD..=op::ATOMIC_XOR => Group::Atomic,
        op::ATOMIC_COMPARE_EXCHANGE => Group::Exchange,
        op::CONTROL_BARRIER => Group::ControlBarrier,
        op::MEMORY_BARRIER => Group::MemoryBarrier,
        op::LOOP_MERGE => Group::LoopMerge,
        op::SELECTION_MERGE | op::BRANCH => Group::Target,
        op::BRANCH_CONDITIONAL => Group::Conditional,
        op::SWITCH => Group::Switch,
        _ => Group::Other,
    }
}
