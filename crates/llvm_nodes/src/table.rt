ghost use Rattle.std.specs.Prelude.{◌≡◌, ◌<◌, ◌^◌, ◌∷◌, [], get_or, nat_lt, not};
ghost use Rattle.std.specs.List.{list_all};
ghost use Rattle.llvm_nodes.specs.Metadata.{takes_number as takes, is_listed as listed};
ghost use Rattle.llvm_nodes.specs.Rules.{is_formed as formed, has_ids as ids, has_value as value_is};
ghost use Rattle.llvm_items.specs.FirstRule.{IsFirstRule};

use crate::code::{DISTINCT_NODE, KIND, NAME, NAMED_NODE, NODE, STRING, VALUE};

/// How many numbered records, types and values the module has.
#[derive(Clone, Copy, Debug)]
pub struct Counts {
    pub records: u64,
    pub types: u32,
    pub values: u32,
}

/// Whether a record of this code takes a number.
pub fn takes_number(code: u64) -> bool
    ensures { result ≡ takes code }
{
    match code {
        STRING | VALUE | NODE | DISTINCT_NODE => true,
        _ => false,
    }
}

/// Whether the table of metadata has this code.
fn is_listed(code: u64) -> bool
    ensures { result ≡ listed code }
{
    code == NAME || code == KIND || code == NAMED_NODE || takes_number(code)
}

/// Whether a record has its form; `named` says that a NAME stands directly before it, and `followed` that a NAMED_NODE follows directly.
fn is_formed(named: bool, followed: bool, code: u64, fields: &[u64]) -> bool
    ensures { result ≡ formed named followed code fields.now }
{
    match code {
        VALUE => fields.len() == 2,
        NAME => followed,
        NAMED_NODE => named,
        _ => true,
    }
}

fn are_below(ids: &[u64], count: u64) -> bool
    ensures { result ≡ list_all (λ id. nat_lt id count) ids.now }
{
    ids.iter().all(|id| *id < count)
}

/// Whether the ids of a node are those of numbered records.
fn has_ids(count: u64, code: u64, fields: &[u64]) -> bool
    requires { count < 2 ^ 32 }
    ensures { result ≡ ids count code fields.now }
{
    match code {
        NODE | DISTINCT_NODE => are_below(fields, count + 1),
        NAMED_NODE => are_below(fields, count),
        _ => true,
    }
}

/// Whether the field at a place is below the count; a field that is missing reads as 0.
fn is_below(fields: &[u64], at: usize, count: u32) -> bool
    ensures { result ≡ nat_lt (get_or fields.now at 0) count }
{
    match fields.get(at) {
        Some(field) => *field < u64::from(count),
        None => 0 < count,
    }
}

/// Whether the numbers of a value are those of a type and a value of the module.
fn has_value(types: u32, values: u32, code: u64, fields: &[u64]) -> bool
    ensures { result ≡ value_is types values code fields.now }
{
    match code {
        VALUE => is_below(fields, 0, types) && is_below(fields, 1, values),
        _ => true,
    }
}

/// The least of the rules N1 to N4 that a record of a block of metadata breaks.
pub fn record_rule(
    counts: Counts,
    named: bool,
    followed: bool,
    code: u64,
    fields: &[u64],
) -> Option<u8>
    requires { counts.records < 2 ^ 32 }
    ensures { IsFirstRule result (not (listed code) ∷ not (formed named followed code fields.now) ∷ not (ids counts.records code fields.now) ∷ not (value_is counts.types counts.values code fields.now) ∷ []) }
{
    if !is_listed(code) {
        Some(1)
    } else if !is_formed(named, followed, code, fields) {
        Some(2)
    } else if !has_ids(counts.records, code, fields) {
        Some(3)
    } else if !has_value(counts.types, counts.values, code, fields) {
        Some(4)
    } else {
        None
    }
}
