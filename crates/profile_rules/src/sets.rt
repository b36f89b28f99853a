ghost use Rattle.std.specs.Prelude.{ℕ, ◌≡◌, ◌||◌, ◌==◌, not, IfOk, OnOk};
ghost use Rattle.std.specs.List.{list_any};
ghost use Rattle.std.specs.Ordering.{nat_cmp};
ghost use Rattle.std.specs.BTreeSet as tree;
ghost use Rattle.profile_tables.specs.Tables.{has};

use dx_base::OutOfMemory;
use std::alloc::Global;
use std::collections::BTreeSet;

/// Adds a number to a set; tells whether it was not in it.
pub fn insert(set: &mut BTreeSet<u32>, number: u32) -> Result<bool, OutOfMemory>
    ensures was { IfOk result (λ new. new ≡ not (tree.contains nat_cmp set.old number)) }
    ensures adds { OnOk result ((q : ℕ) → tree.contains nat_cmp set.new q ≡ (tree.contains nat_cmp set.old q || number == q)) }
{
    match set.insert(number) {
        Ok(new) => Ok(new),
        Err(_) => Err(OutOfMemory),
    }
}

/// Whether a number is in a set.
fn holds(set: &BTreeSet<u32>, number: u32) -> bool
    ensures { result ≡ tree.contains nat_cmp set.now number }
{
    set.contains(&number)
}

/// The numbers of a list as a set.
fn set_of(alloc: Global, numbers: &[u32]) -> Result<BTreeSet<u32>, OutOfMemory>
    ensures { IfOk result (λ set. (q : ℕ) → tree.contains nat_cmp set q ≡ has numbers.now q) }
{
    let mut set = BTreeSet::new(alloc);
    for number in numbers {
        insert(&mut set, *number)?;
    }
    Ok(set)
}

/// Whether a number of the second list is not in the first.
pub fn is_any_missing(alloc: Global, all: &[u32], some: &[u32]) -> Result<bool, OutOfMemory>
    ensures { IfOk result (λ missing. missing ≡ list_any (λ n. not (has all.now n)) some.now) }
{
    let set = set_of(alloc, all)?;
    for number in some {
        if !holds(&set, *number) {
            return Ok(true);
        }
    }
    Ok(false)
}
