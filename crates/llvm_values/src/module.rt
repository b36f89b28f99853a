ghost use Rattle.std.specs.Prelude.{◌≡◌, slice_get};
ghost use Rattle.bitstream_spelling.specs.Framed.{LiesIn};
ghost use Rattle.llvm_values.specs.Values.{function_of as function_stated, has_body as has_body_stated, has_own_type as states_own_type, is_defined as states_body, number_less_one as less_one, place_stated, states_constant, states_function, states_variable, takes_value as takes_number, through as pointed_through, variable_of as variable_stated};

use crate::code::{CONSTANTS, FUNCTION, SETTYPE, VARIABLE};
use crate::field::{field_at, number_of};
use crate::global::Global;
use bitstream_spelling::Item;
use dx_base::Bytes;
use llvm_items::{OpenBlocks, code_of, fields_of};
use llvm_types::{LlvmType, Types};

/// Whether the item is a record of a variable of the module.
pub fn is_variable(around: &OpenBlocks, item: Item) -> bool
    ensures { result ≡ states_variable (record { around = around.now; item = item }) }
{
    around.has_record_of_module(item) && code_of(item) == VARIABLE
}

/// Whether the item is a record of a function of the module.
pub fn is_function(around: &OpenBlocks, item: Item) -> bool
    ensures { result ≡ states_function (record { around = around.now; item = item }) }
{
    around.has_record_of_module(item) && code_of(item) == FUNCTION
}

/// Whether the item is a constant of the module.
pub fn is_constant(around: &OpenBlocks, item: Item) -> bool
    ensures { result ≡ states_constant (record { around = around.now; item = item }) }
{
    around.has_record_of(CONSTANTS, item) && code_of(item) != SETTYPE
}

/// Whether the item is a record that takes a value number of the module.
pub fn takes_value(around: &OpenBlocks, item: Item) -> bool
    ensures { result ≡ takes_number (record { around = around.now; item = item }) }
{
    is_variable(around, item) || is_function(around, item) || is_constant(around, item)
}

/// Whether a function with these fields has a body.
fn is_defined(fields: &[u64]) -> bool
    ensures { result ≡ states_body fields.now }
{
    field_at(fields, 2) == 0
}

/// Whether the item is a record of a function with a body.
pub fn has_body(around: &OpenBlocks, item: Item, fields: &[u64]) -> bool
    requires { LiesIn fields.now item }
    ensures { result ≡ has_body_stated fields.now (record { around = around.now; item = item }) }
{
    is_function(around, item) && is_defined(fields_of(item, fields))
}

/// Whether a variable with these fields states its own type, and not that of a pointer to it.
pub fn has_own_type(fields: &[u64]) -> bool
    ensures { result ≡ states_own_type fields.now }
{
    field_at(fields, 1) / 2 % 2 == 1
}

/// What the type with this number points to and in which space, where it is a pointer; else the type itself, and space 0.
fn through(types: &Types, number: u64) -> (u32, u64)
    ensures { result ≡ pointed_through (slice_get types.now.list number) number }
{
    match types.list.get(number as usize) {
        Some(LlvmType::Pointer { to, space }) => (*to, *space),
        _ => (number_of(number), 0),
    }
}

/// The type of a variable, and its space.
fn place_of(types: &Types, fields: &[u64]) -> (u32, u64)
    ensures { result ≡ place_stated types.now.list fields.now }
{
    if has_own_type(fields) {
        (number_of(field_at(fields, 0)), field_at(fields, 1) / 4)
    } else {
        through(types, field_at(fields, 0))
    }
}

/// The number that a field states plus one; none where it is 0.
fn number_less_one(field: u64) -> Option<u32>
    ensures { result ≡ less_one field }
{
    if field == 0 {
        None
    } else {
        Some(number_of(field - 1))
    }
}

/// The variable that a record states.
#[tactic(auto, unfolding(crate::specs::Values::variable_of))]
pub fn variable_of(types: &Types, fields: &[u64], bit: u64) -> Global
    ensures { result ≡ variable_stated types.now.list fields.now bit }
{
    let (ty, space) = place_of(types, fields);
    Global::Variable {
        ty,
        space,
        init: number_less_one(field_at(fields, 2)),
        bit,
    }
}

/// The function that a record states, where so many functions before it have bodies, and its name.
#[tactic(auto, unfolding(crate::specs::Values::function_of))]
pub fn function_of(types: &Types, fields: &[u64], bodies: u32, name: Bytes, bit: u64) -> Global
    ensures { result ≡ function_stated types.now.list fields.now bodies name bit }
{
    let (ty, _) = through(types, field_at(fields, 0));
    let body = if is_defined(fields) {
        Some(bodies)
    } else {
        None
    };
    Global::Function {
        ty,
        body,
        name,
        bit,
    }
}
