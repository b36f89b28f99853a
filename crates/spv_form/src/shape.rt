ghost use Rattle.std.specs.Prelude.{◌≡◌};
ghost use Rattle.spv_form.specs.Shapes as shapes;

use crate::op;

/// The operands of an instruction's opcode.
#[derive(Clone, Copy, Debug, PartialEq, Eq)]
pub enum Shape {
    /// A result type and a result id where the opcode has them, and then from `least` to `most` operands of one word.
    ///
    /// Bit i of `numbers` stands where operand i is a number; every other operand is an id.
    Plain {
        has_type: bool,
        has_id: bool,
        least: u16,
        most: u16,
        numbers: u16,
    },
    /// `before` operands of one word, by the bits of `numbers` as above, then a string, and then any number of ids where `after` says so.
    Text {
        before: u16,
        after: bool,
        numbers: u16,
    },
    /// Two ids, and then any number of pairs of a number and an id.
    Pairs,
}

/// So many operands, without a result.
fn plain(count: u16, numbers: u16) -> Shape
    ensures { result ≡ shapes.plain count numbers }
{
    Shape::Plain {
        has_type: false,
        has_id: false,
        least: count,
        most: count,
        numbers,
    }
}

/// A result, and so many operands.
fn made(count: u16, numbers: u16) -> Shape
    ensures { result ≡ shapes.made count numbers }
{
    Shape::Plain {
        has_type: false,
        has_id: true,
        least: count,
        most: count,
        numbers,
    }
}

/// A type and a result, and so many operands.
fn typed(count: u16, numbers: u16) -> Shape
    ensures { result ≡ shapes.typed count numbers }
{
    Shape::Plain {
        has_type: true,
        has_id: true,
        least: count,
        most: count,
        numbers,
    }
}

/// The operands of an opcode; None exactly for one that no module may have.
#[tactic(auto, unfolding(crate::specs::Shapes::shape_of))]
pub fn shape_of(opcode: u16) -> Option<Shape>
    ensures { result ≡ shapes.shape_of opcode }
{
    without_result(opcode)
        .or_else(|| with_result(opcode))
        .or_else(|| with_type(opcode))
}

/// The operands of an opcode without a result.
fn without_result(opcode: u16) -> Option<Shape>
    ensures { result ≡ shapes.without_result opcode }
{
    Some(match opcode {
        op::NAME => Shape::Text {
            before: 1,
            after: false,
            numbers: 0,
        },
        op::MEMORY_MODEL => plain(2, 0b11),
        op::ENTRY_POINT => Shape::Text {
            before: 2,
            after: true,
            numbers: 0b01,
        },
        op::EXECUTION_MODE => plain(5, 0b11110),
        op::CAPABILITY => plain(1, 0b1),
        op::FUNCTION_END | op::RETURN => plain(0, 0),
        op::STORE | op::MEMORY_BARRIER => plain(2, 0),
        op::DECORATE => Shape::Plain {
            has_type: false,
            has_id: false,
            least: 2,
            most: 3,
            numbers: 0b110,
        },
        op::MEMBER_DECORATE => plain(4, 0b1110),
        op::CONTROL_BARRIER | op::BRANCH_CONDITIONAL => plain(3, 0),
        op::LOOP_MERGE => plain(3, 0b100),
        op::SELECTION_MERGE => plain(2, 0b10),
        op::BRANCH => plain(1, 0),
        op::SWITCH => Shape::Pairs,
        _ => return None,
    })
}

/// The operands of an opcode with a result and no type.
fn with_result(opcode: u16) -> Option<Shape>
    ensures { result ≡ shapes.with_result opcode }
{
    Some(match opcode {
        op::TYPE_VOID | op::TYPE_BOOL | op::LABEL => made(0, 0),
        op::TYPE_INT => made(2, 0b11),
        op::TYPE_VECTOR => made(2, 0b10),
        op::TYPE_ARRAY => made(2, 0),
        op::TYPE_RUNTIME_ARRAY => made(1, 0),
        op::TYPE_STRUCT | op::TYPE_FUNCTION => Shape::Plain {
            has_type: false,
            has_id: true,
            least: 0,
            most: u16::MAX,
            numbers: 0,
        },
        op::TYPE_POINTER => made(2, 0b01),
        _ => return None,
    })
}

/// The operands of an opcode with a type and a result.
fn with_type(opcode: u16) -> Option<Shape>
    ensures { result ≡ shapes.with_type opcode }
{
    Some(match opcode {
        op::CONSTANT_TRUE | op::CONSTANT_FALSE => typed(0, 0),
        op::CONSTANT => typed(1, 0b1),
        op::FUNCTION => typed(2, 0b01),
        op::VARIABLE => Shape::Plain {
            has_type: true,
            has_id: true,
            least: 1,
            most: 2,
            numbers: 0b01,
        },
        op::ACCESS_CHAIN => Shape::Plain {
            has_type: true,
            has_id: true,
            least: 0,
            most: u16::MAX,
            numbers: 0,
        },
        op::ARRAY_LENGTH | op::COMPOSITE_EXTRACT => typed(2, 0b10),
        _ => return id_count(opcode).map(|count| typed(count, 0)),
    })
}

/// How many ids stand behind type and result, of an opcode that has nothing else there.
fn id_count(opcode: u16) -> Option<u16>
    ensures { result ≡ shapes.id_count opcode }
{
    match opcode {
        op::LOAD | op::LOGICAL_NOT | op::BIT_REVERSE | op::BIT_COUNT => Some(1),
        op::I_ADD
        | op::I_SUB
        | op::I_MUL
        | op::U_DIV
        | op::S_DIV
        | op::U_MOD
        | op::S_REM
        | op::LOGICAL_EQUAL..=op::LOGICAL_AND
        | op::I_EQUAL..=op::S_LESS_THAN_EQUAL
        | op::SHIFT_RIGHT_LOGICAL..=op::BITWISE_AND => Some(2),
        op::SELECT => Some(3),
        op::ATOMIC_EXCHANGE | op::ATOMIC_I_ADD..=op::ATOMIC_XOR => Some(4),
        op::ATOMIC_COMPARE_EXCHANGE => Some(6),
        _ => None,
    }
}
