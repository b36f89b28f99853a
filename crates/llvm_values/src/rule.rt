ghost use Rattle.std.specs.Prelude.{◌≡◌, ◌||◌, slice_get, if◌then◌else◌, false};
ghost use Rattle.bitstream_spelling.specs.Framed.{LiesIn};
ghost use Rattle.llvm_items.specs.FirstRule.{IsFirstRule};
ghost use Rattle.llvm_items.specs.Sites.{enters};
ghost use Rattle.llvm_values.specs.Reading.{state_after as state_then};
ghost use Rattle.llvm_values.specs.Rules.{is_function as is_function_type, is_global as is_global_stated, is_integer as is_integer_type, is_instruction as is_instruction_stated, is_pointer as is_pointer_type, is_version as is_version_stated, m1, m2, m3, m4, m5, m6, numbers_one as takes_number, numbers_some as numbers_any, sets_integer as sets_integer_type, states_integer, suits_function as function_suits, suits_variable as variable_suits, tests};

use crate::code::{
    BODY, CONSTANTS, DEBUG_LOC, DEBUG_LOC_AGAIN, DECLAREBLOCKS, INTEGER, SETTYPE, VERSION,
};
use crate::constant::{is_in_block, is_set_type, type_after};
use crate::field::field_at;
use crate::module::{has_own_type, is_function, is_variable};
use bitstream_spelling::Item;
use llvm_items::{OpenBlocks, code_of, fields_of, is_end, is_record};
use llvm_types::{LlvmType, Types};

/// What stands before an item, as far as the rules ask.
#[derive(Clone, Copy)]
pub struct State {
    /// A VERSION.
    pub versioned: bool,
    /// A body.
    pub bodied: bool,
    /// An instruction of the last body.
    pub instructed: bool,
    /// The type of the constants.
    pub ty: Option<u32>,
}

fn is_version(around: &OpenBlocks, item: Item) -> bool
    ensures { result ≡ is_version_stated (record { around = around.now; item = item }) }
{
    around.has_record_of_module(item) && code_of(item) == VERSION
}

fn is_instruction(around: &OpenBlocks, item: Item) -> bool
    ensures { result ≡ is_instruction_stated (record { around = around.now; item = item }) }
{
    let code = code_of(item);
    around.has_record_of(BODY, item)
        && !(code == DECLAREBLOCKS || code == DEBUG_LOC_AGAIN || code == DEBUG_LOC)
}

/// Whether an instruction of the last body stands before what follows the item.
fn instructed_after(instructed: bool, around: &OpenBlocks, item: Item) -> bool
    ensures { result ≡ (if enters 12 (record { around = around.now; item = item }) then false else (instructed || is_instruction_stated (record { around = around.now; item = item }))) }
{
    if around.enters(BODY, item) {
        false
    } else {
        instructed || is_instruction(around, item)
    }
}

/// What stands before that which follows the item.
pub fn state_after(state: State, around: &OpenBlocks, item: Item, fields: &[u64]) -> State
    requires { LiesIn fields.now item }
    ensures { result ≡ state_then fields.now state (record { around = around.now; item = item }) }
{
    State {
        versioned: state.versioned || is_version(around, item),
        bodied: state.bodied || around.enters(BODY, item),
        instructed: instructed_after(state.instructed, around, item),
        ty: type_after(state.ty, around, item, fields),
    }
}

/// Whether the type with this number is an integer.
fn is_integer(types: &Types, number: u64) -> bool
    ensures { result ≡ is_integer_type (slice_get types.now.list number) }
{
    matches!(types.list.get(number as usize), Some(LlvmType::Integer(_)))
}

/// Whether the type with this number is a pointer.
fn is_pointer(types: &Types, number: u64) -> bool
    ensures { result ≡ is_pointer_type (slice_get types.now.list number) }
{
    matches!(
        types.list.get(number as usize),
        Some(LlvmType::Pointer { .. })
    )
}

/// Whether the type with this number is a function type.
fn is_function_type_at(types: &Types, number: u64) -> bool
    ensures { result ≡ is_function_type (slice_get types.now.list number) }
{
    matches!(
        types.list.get(number as usize),
        Some(LlvmType::Function { .. })
    )
}

/// Whether the type with this number is one of a function record: a function type, or a pointer to one.
fn suits_function(types: &Types, number: u64) -> bool
    ensures { result ≡ function_suits types.now.list number }
{
    match types.list.get(number as usize) {
        Some(LlvmType::Function { .. }) => true,
        Some(LlvmType::Pointer { to, .. }) => is_function_type_at(types, u64::from(*to)),
        _ => false,
    }
}

/// Whether the type with this number is one of a variable record with these fields: its own, or a pointer to it.
fn suits_variable(types: &Types, number: u64, fields: &[u64]) -> bool
    ensures { result ≡ variable_suits types.now.list number fields.now }
{
    number < types.list.len() as u64 && (has_own_type(fields) || is_pointer(types, number))
}

/// Whether the type that a block of constants has set is an integer.
fn sets_integer(types: &Types, ty: Option<u32>) -> bool
    ensures { result ≡ sets_integer_type types.now.list ty }
{
    match ty {
        Some(number) => is_integer(types, u64::from(number)),
        None => true,
    }
}

/// Whether a record of the block of constants whose content begins the items takes a number.
fn numbers_some(content: &[Item]) -> bool
    ensures { result ≡ numbers_any content.now }
{
    for item in content {
        if is_end(*item) {
            return false;
        }
        if numbers_one(*item) {
            return true;
        }
    }
    false
}

/// Whether the item is a record that takes a number in a block of constants.
fn numbers_one(item: Item) -> bool
    ensures { result ≡ takes_number item }
{
    is_record(item) && code_of(item) != SETTYPE
}

/// Whether the first VERSION is at fault here, or the end of a module without any.
fn breaks_version(state: State, around: &OpenBlocks, item: Item, fields: &[u64]) -> bool
    requires { LiesIn fields.now item }
    ensures { result ≡ m1 fields.now state (record { around = around.now; item = item }) }
{
    !state.versioned
        && (is_version(around, item) && field_at(fields_of(item, fields), 0) != 1
            || around.ends_module(item))
}

/// Whether the code of a record of the module is not listed.
fn breaks_codes(around: &OpenBlocks, item: Item) -> bool
    ensures { result ≡ m2 (record { around = around.now; item = item }) }
{
    let code = code_of(item);
    around.has_record_of_module(item) && (code == 0 || code == 9 || code > 13)
}

fn is_global(around: &OpenBlocks, item: Item) -> bool
    ensures { result ≡ is_global_stated (record { around = around.now; item = item }) }
{
    is_variable(around, item) || is_function(around, item)
}

/// Whether a variable or a function has too few fields.
fn breaks_length(around: &OpenBlocks, item: Item, fields: &[u64]) -> bool
    requires { LiesIn fields.now item }
    ensures { result ≡ m3 fields.now (record { around = around.now; item = item }) }
{
    is_global(around, item) && fields_of(item, fields).len() < 3
}

/// Whether a variable or a function has a type that is not one of its kind.
fn breaks_type(around: &OpenBlocks, item: Item, fields: &[u64], types: &Types) -> bool
    requires { LiesIn fields.now item }
    ensures { result ≡ m4 fields.now types.now.list (record { around = around.now; item = item }) }
{
    let fields = fields_of(item, fields);
    let number = field_at(fields, 0);
    is_variable(around, item) && !suits_variable(types, number, fields)
        || is_function(around, item) && !suits_function(types, number)
}

/// Whether a SETTYPE or an INTEGER is at fault.
fn breaks_constants(
    state: State,
    around: &OpenBlocks,
    item: Item,
    fields: &[u64],
    types: &Types,
) -> bool
    requires { LiesIn fields.now item }
    ensures { result ≡ m5 fields.now types.now.list state (record { around = around.now; item = item }) }
{
    let fields = fields_of(item, fields);
    let count = types.list.len() as u64;
    is_set_type(around, item) && !(fields.len() > 0 && field_at(fields, 0) < count)
        || is_number(around, item) && !(fields.len() > 0 && sets_integer(types, state.ty))
}

/// Whether the item is an INTEGER in a block of constants.
fn is_number(around: &OpenBlocks, item: Item) -> bool
    ensures { result ≡ states_integer (record { around = around.now; item = item }) }
{
    is_in_block(around, item) && code_of(item) == INTEGER
}

/// Whether a record or a block stands behind what it has to stand before; `behind` are the items behind it.
fn breaks_order(state: State, around: &OpenBlocks, item: Item, behind: &[Item]) -> bool
    ensures { result ≡ m6 state behind.now (record { around = around.now; item = item }) }
{
    state.bodied
        && (is_global(around, item) || around.enters(CONSTANTS, item) && numbers_some(behind))
        || state.instructed && around.enters_inside(BODY, CONSTANTS, item)
}

/// The least of the rules M1 to M6 that is broken at an item; `behind` are the items behind it.
pub fn broken_rule(
    state: State,
    around: &OpenBlocks,
    item: Item,
    fields: &[u64],
    types: &Types,
    behind: &[Item],
) -> Option<u8>
    requires { LiesIn fields.now item }
    ensures { IsFirstRule result (tests fields.now types.now.list state behind.now (record { around = around.now; item = item })) }
{
    if breaks_version(state, around, item, fields) {
        Some(1)
    } else if breaks_codes(around, item) {
        Some(2)
    } else if breaks_length(around, item, fields) {
        Some(3)
    } else if breaks_type(around, item, fields, types) {
        Some(4)
    } else if breaks_constants(state, around, item, fields, types) {
        Some(5)
    } else if breaks_order(state, around, item, behind) {
        Some(6)
    } else {
        None
    }
}
