ghost use Rattle.std.specs.Prelude.{◌≡◌, ◌≤◌, ◌<◌, ◌∷◌, [], length, nat_lt, not, false};
ghost use Rattle.std.specs.List.{list_all};
ghost use Rattle.llvm_types.specs.Types.{takes_number as takes, is_listed as listed, least_of as least, type_numbers as numbers_in};
ghost use Rattle.llvm_items.specs.FirstRule.{IsFirstRule};

use crate::code::{
    ARRAY, DOUBLE, FLOAT, FUNCTION, HALF, INTEGER, LABEL, METADATA, NUMENTRY, OPAQUE, POINTER,
    STRUCT_ANON, STRUCT_NAME, STRUCT_NAMED, VECTOR, VOID,
};

/// Whether a record of this code takes a type number.
pub fn takes_number(code: u64) -> bool
    ensures { result ≡ takes code }
{
    match code {
        VOID | FLOAT | DOUBLE | LABEL | OPAQUE | HALF | METADATA => true,
        INTEGER | POINTER | ARRAY | VECTOR => true,
        STRUCT_ANON | STRUCT_NAMED | FUNCTION => true,
        _ => false,
    }
}

/// Whether the table of types has this code.
fn is_listed(code: u64) -> bool
    ensures { result ≡ listed code }
{
    code == NUMENTRY || code == STRUCT_NAME || takes_number(code)
}

/// How many fields a record of this code has at least.
fn least_of(code: u64) -> usize
    ensures { result ≡ least code }
{
    match code {
        INTEGER | STRUCT_ANON | STRUCT_NAMED => 1,
        POINTER | ARRAY | VECTOR | FUNCTION => 2,
        _ => 0,
    }
}

/// The type numbers among the fields of a record that has enough of them.
pub fn type_numbers(code: u64, fields: &[u64]) -> &[u64]
    requires { least code ≤ length fields.now }
    ensures { result.now ≡ numbers_in code fields.now }
{
    match code {
        POINTER => &fields[..1],
        ARRAY | VECTOR => &fields[1..2],
        STRUCT_ANON | STRUCT_NAMED | FUNCTION => &fields[1..],
        _ => &fields[..0],
    }
}

fn are_below(numbers: &[u64], count: u64) -> bool
    ensures { result ≡ list_all (λ t. nat_lt t count) numbers.now }
{
    numbers.iter().all(|t| *t < count)
}

/// The least of the rules Y2 to Y4 that a record of a block of types breaks, where `count` records take a type number.
pub fn record_rule(count: u64, code: u64, fields: &[u64]) -> Option<u8>
    ensures { IsFirstRule result (false ∷ not (listed code) ∷ nat_lt (length fields.now) (least code) ∷ not (list_all (λ t. nat_lt t count) (numbers_in code fields.now)) ∷ []) }
{
    if !is_listed(code) {
        Some(2)
    } else if fields.len() < least_of(code) {
        Some(3)
    } else if are_below(type_numbers(code, fields), count) {
        None
    } else {
        Some(4)
    }
}
