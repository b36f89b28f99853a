ghost use Rattle.std.specs.Prelude.{ℕ, ◌≡◌, ◌||◌, not, is_some, IfOk, OnOk};
ghost use Rattle.std.specs.Ordering.{nat_cmp};
ghost use Rattle.std.specs.BTreeSet as tree;
ghost use Rattle.std.specs.List.{list_any};
ghost use Rattle.profile_lines.specs.Pool.{constant};
ghost use Rattle.profile_rules.specs.Rules as is;
ghost use Rattle.profile_rules.specs.Helping.{hits};
ghost use Rattle.profile_rules.specs.Asked.{kind_stated as kind_with};
ghost use Rattle.profile_lines.specs.Calls.{carried as is_carried};
ghost use Rattle.profile_tables.specs.Kinds.{is_kind as is_the_kind};
ghost use Rattle.profile_tables.specs.Parts.{cases_of as is_cases};

use crate::kinds::kind_stated;
use crate::sets::insert;
use dx_base::OutOfMemory;
use llvm_bodies::Line;
use llvm_layout::code::SWITCH;
use profile_lines::{Pool, ValueKind, carried};
use profile_tables::{Scope, cases_of, is_kind};
use std::alloc::Global;
use std::collections::BTreeSet;

/// Whether a case is no `i32` constant.
fn has_no_number(pool: &Pool, cases: &[(u32, u32)]) -> bool
    ensures { result ≡ list_any (λ c. not (is_some (constant pool.now 32 c.0))) cases.now }
{
    cases
        .iter()
        .any(|case| !pool.constant(32, case.0).is_some())
}

/// Whether a number is among those that were seen; it is from then on.
fn was_seen(seen: &mut BTreeSet<u32>, number: Option<u32>) -> Result<bool, OutOfMemory>
    ensures was { IfOk result (λ was. was ≡ hits (tree.contains nat_cmp seen.old) number) }
    ensures adds { OnOk result ((q : ℕ) → tree.contains nat_cmp seen.new q ≡ (tree.contains nat_cmp seen.old q || is.is_number q number)) }
{
    let Some(number) = number else {
        return Ok(false);
    };
    let new = insert(seen, number)?;
    Ok(!new)
}

/// Whether two cases are equal.
fn have_equals(alloc: Global, pool: &Pool, cases: &[(u32, u32)]) -> Result<bool, OutOfMemory>
    ensures { IfOk result (λ equal. equal ≡ is.have_equals pool.now cases.now) }
{
    let mut seen = BTreeSet::new(alloc);
    for case in cases {
        if was_seen(&mut seen, pool.constant(32, case.0))? {
            return Ok(true);
        }
    }
    Ok(false)
}

/// Whether a case is no `i32` constant, or two cases are equal.
fn are_at_fault(alloc: Global, pool: &Pool, cases: &[(u32, u32)]) -> Result<bool, OutOfMemory>
    ensures { IfOk result (λ fault. fault ≡ (list_any (λ c. not (is_some (constant pool.now 32 c.0))) cases.now || is.have_equals pool.now cases.now)) }
{
    let equal = have_equals(alloc, pool, cases)?;
    Ok(has_no_number(pool, cases) || equal)
}

/// Whether the cases of a SWITCH are at fault.
fn are_bad_cases(alloc: Global, pool: &Pool, line: &Line) -> Result<bool, OutOfMemory>
    ensures { IfOk result (λ bad. bad ≡ (list_any (λ c. not (is_some (constant pool.now 32 c.0))) (is_cases line.now) || is.have_equals pool.now (is_cases line.now))) }
{
    let cases = cases_of(alloc, line)?;
    are_at_fault(alloc, pool, cases.as_slice())
}

/// Whether the type or the cases of a SWITCH are at fault.
fn is_bad_switch(alloc: Global, scope: &Scope, line: &Line) -> Result<bool, OutOfMemory>
    ensures { IfOk result (λ bad. bad ≡ (not (is_the_kind (kind_with scope.now (is_carried line.now 0)) ValueKind.Int) || list_any (λ c. not (is_some (constant scope.now.pool 32 c.0))) (is_cases line.now) || is.have_equals scope.now.pool (is_cases line.now))) }
{
    if is_kind(kind_stated(scope, carried(line, 0)), ValueKind::Int) {
        are_bad_cases(alloc, scope.pool(), line)
    } else {
        Ok(true)
    }
}

/// Whether a line breaks P7.
pub fn p7(alloc: Global, scope: &Scope, line: &Line) -> Result<bool, OutOfMemory>
    ensures { IfOk result (λ broken. broken ≡ is.p7 scope.now line.now) }
{
    if line.code as u64 == SWITCH {
        is_bad_switch(alloc, scope, line)
    } else {
        Ok(false)
    }
}
