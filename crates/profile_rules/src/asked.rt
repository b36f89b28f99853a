ghost use Rattle.std.specs.Prelude.{◌≡◌, ◌<◌, ◌&&◌, ◌||◌, not, IfOk, nat_lt, map, drop, filter, length};
ghost use Rattle.std.specs.List.{list_all};
ghost use Rattle.profile_rules.specs.Asked as is;
ghost use Rattle.profile_lines.specs.Calls.{operand as is_operand};
ghost use Rattle.profile_rules.specs.Rules as rules;
ghost use Rattle.profile_tables.specs.Kinds.{is_kind as is_the_kind};
ghost use Rattle.profile_lines.specs.Values.{kind_by as kind_with};
ghost use Rattle.profile_tables.specs.EntryBody.{kind_at};
ghost use Rattle.profile_tables.specs.Parts.{pairs_of};

use crate::arguments::are_arguments;
use crate::kinds::{are_alike, is_of_kind, is_plain_at, phi_kind, suits};
use dx_base::OutOfMemory;
use llvm_bodies::Line;
use llvm_layout::code::{
    ATOMICRMW, BINOP, BR, CALL, CAST, CMP2, CMPXCHG, EXTRACTVAL, GEP, LOAD, PHI, STORE, SWITCH,
    VSELECT,
};
use profile_lines::{ValueKind, is_variable, kind_by, operand};
use profile_tables::{Scope, entries_of, is_kind, is_plain};
use std::alloc::Global;

/// Whether each number is below the body's values.
fn are_below(scope: &Scope, numbers: &[u32]) -> bool
    ensures { result ≡ list_all (λ v. nat_lt v scope.now.values) numbers.now }
{
    let values = scope.values();
    numbers.iter().all(|number| *number < values)
}

/// Whether the value of each pair is below the body's values.
fn are_firsts_below(scope: &Scope, pairs: &[(u32, u32)]) -> bool
    ensures { result ≡ list_all (λ p. nat_lt p.0 scope.now.values) pairs.now }
{
    let values = scope.values();
    pairs.iter().all(|pair| pair.0 < values)
}

/// Whether the values of a SWITCH or a PHI are below the body's values.
fn are_pair_values(alloc: Global, scope: &Scope, line: &Line) -> Result<bool, OutOfMemory>
    ensures { IfOk result (λ good. good ≡ list_all (λ v. nat_lt v scope.now.values) (map (λ p. p.0) (pairs_of line.now.numbers))) }
{
    let pairs = entries_of(alloc, line)?;
    Ok(are_firsts_below(scope, pairs.as_slice()))
}

/// Whether the condition of a BR, if it has one, is below the body's values.
fn is_condition_value(scope: &Scope, numbers: &[u32]) -> bool
    ensures { result ≡ list_all (λ v. nat_lt v scope.now.values) (drop 2 numbers.now) }
{
    if numbers.len() < 2 {
        return true;
    }
    are_below(scope, &numbers[2..])
}

/// Whether the value numbers of a line are below the body's values.
fn are_values(alloc: Global, scope: &Scope, line: &Line) -> Result<bool, OutOfMemory>
    ensures { IfOk result (λ good. good ≡ is.are_values scope.now line.now) }
{
    let numbers = line.numbers.as_slice();
    match line.code as u64 {
        BR => Ok(is_condition_value(scope, numbers)),
        SWITCH => are_pair_values(alloc, scope, line),
        PHI => are_pair_values(alloc, scope, line),
        _ => Ok(are_below(scope, numbers)),
    }
}

/// Whether the types of some pairs suit the kinds of the operands that they name.
fn do_suit(scope: &Scope, line: &Line, pairs: &[(u32, u32)]) -> bool
    ensures { result ≡ list_all (λ p. is.suits (kind_at scope.now (is_operand line.now p.0)) (kind_with scope.now.pool p.1)) pairs.now }
{
    pairs.iter().all(|pair| {
        let kind = scope.kind(operand(line, pair.0 as usize));
        suits(kind, kind_by(scope.pool(), pair.1))
    })
}

/// The same of the pairs whose operand is there.
fn do_present_suit(scope: &Scope, line: &Line, pairs: &[(u32, u32)]) -> bool
    ensures { result ≡ list_all (λ p. not (nat_lt p.0 (length line.now.numbers)) || is.suits (kind_at scope.now (is_operand line.now p.0)) (kind_with scope.now.pool p.1)) pairs.now }
{
    let count = line.numbers.len();
    pairs.iter().all(|pair| {
        let kind = scope.kind(operand(line, pair.0 as usize));
        !((pair.0 as usize) < count) || suits(kind, kind_by(scope.pool(), pair.1))
    })
}

/// Whether the types that a record carries for the operands that are there suit them.
fn do_all_suit(scope: &Scope, line: &Line) -> bool
    ensures { result ≡ list_all (λ p. is.suits (kind_at scope.now (is_operand line.now p.0)) (kind_with scope.now.pool p.1)) (filter (λ p. nat_lt p.0 (length line.now.numbers)) line.now.types) }
{
    do_present_suit(scope, line, line.types.as_slice())
}

/// The pairs behind the first one.
fn behind_first(pairs: &[(u32, u32)]) -> &[(u32, u32)]
    ensures { result.now ≡ drop 1 pairs.now }
{
    if pairs.len() == 0 { pairs } else { &pairs[1..] }
}

/// Whether the types that a record carries for its operands suit their kinds.
fn do_types_suit(scope: &Scope, line: &Line) -> bool
    ensures { result ≡ is.do_types_suit scope.now line.now }
{
    match line.code as u64 {
        SWITCH => true,
        PHI => true,
        CALL => true,
        GEP => do_suit(scope, line, behind_first(line.types.as_slice())),
        _ => do_all_suit(scope, line),
    }
}

fn are_of_kind(scope: &Scope, pairs: &[(u32, u32)], kind: ValueKind) -> bool
    ensures { result ≡ list_all (λ p. is_the_kind (kind_at scope.now p.0) kind) pairs.now }
{
    pairs.iter().all(|pair| is_kind(scope.kind(pair.0), kind))
}

/// Whether the entries of a PHI are of its kind, where that is a good one.
fn are_entries(alloc: Global, scope: &Scope, line: &Line) -> Result<bool, OutOfMemory>
    ensures { IfOk result (λ good. good ≡ is.are_entries scope.now line.now) }
{
    let kind = phi_kind(scope, line);
    if !is_plain(kind) {
        return Ok(true);
    }
    let entries = entries_of(alloc, line)?;
    Ok(are_of_kind(scope, entries.as_slice(), kind))
}

/// Whether the first operand is a place and the second an `i32`.
fn is_access(scope: &Scope, line: &Line) -> bool
    ensures { result ≡ (is.is_of_kind scope.now line.now 0 ValueKind.Place && is.is_of_kind scope.now line.now 1 ValueKind.Int) }
{
    is_of_kind(scope, line, 0, ValueKind::Place) && is_of_kind(scope, line, 1, ValueKind::Int)
}

/// Whether the operands of a line have the kinds that their places ask.
fn are_asked(alloc: Global, scope: &Scope, line: &Line) -> Result<bool, OutOfMemory>
    ensures { IfOk result (λ good. good ≡ is.are_asked scope.now line.now) }
{
    Ok(match line.code as u64 {
        BINOP | CMP2 => are_alike(scope, line),
        CAST => is_plain_at(scope, line, 0),
        BR => line.numbers.len() == 1 || is_of_kind(scope, line, 2, ValueKind::Bool),
        SWITCH => is_of_kind(scope, line, 0, ValueKind::Int),
        PHI => return are_entries(alloc, scope, line),
        LOAD => is_of_kind(scope, line, 0, ValueKind::Place),
        EXTRACTVAL => is_of_kind(scope, line, 0, ValueKind::Parts),
        VSELECT => are_alike(scope, line) && is_of_kind(scope, line, 2, ValueKind::Bool),
        CALL => are_arguments(scope, line),
        GEP => is_variable(scope.pool().stated(operand(line, 0))),
        ATOMICRMW => is_access(scope, line),
        STORE => is_access(scope, line),
        CMPXCHG => is_access(scope, line) && is_of_kind(scope, line, 2, ValueKind::Int),
        _ => true,
    })
}

/// Whether a line breaks P1.
pub fn p1(alloc: Global, scope: &Scope, line: &Line) -> Result<bool, OutOfMemory>
    ensures { IfOk result (λ broken. broken ≡ rules.p1 scope.now line.now) }
{
    let values = are_values(alloc, scope, line)?;
    let asked = are_asked(alloc, scope, line)?;
    Ok(!values || !do_types_suit(scope, line) || !asked)
}
