ghost use Rattle.std.specs.Prelude.{◌≡◌, OnOk, if◌then◌else◌, Some};
ghost use Rattle.std.specs.Option.{option_copied};
ghost use Rattle.std.specs.BTreeMap as tree;
ghost use Rattle.profile_rules.specs.Seen as is;

use dx_base::OutOfMemory;
use llvm_facts::Row;
use profile_tables::class_number;
use std::collections::BTreeMap;

/// The rows of one class, space and lower bound that are named: one, by its place, or several.
#[derive(Clone, Copy, Debug, PartialEq, Eq)]
pub enum Owner {
    One(usize),
    Many,
}

/// Class, space and lower bound.
pub type Key = ((u32, u32), u32);

/// The rows that are named.
#[derive(Drop)]
pub struct Rows {
    /// Whether a row is named, by its place.
    pub named: Vec<bool>,
    /// How many are.
    pub count: u64,
    /// The rows of each key.
    pub owners: BTreeMap<Key, Owner>,
}

fn key_of(row: &Row) -> Key
    ensures { result ≡ is.key_of row.now }
{
    ((class_number(row.class), row.space), row.lower)
}

fn is_other(place: usize, owner: Option<Owner>) -> bool
    ensures { result ≡ is.is_other place owner }
{
    match owner {
        Some(Owner::One(other)) => place != other,
        Some(Owner::Many) => true,
        None => false,
    }
}

fn with_owner(owner: Option<Owner>, place: usize) -> Owner
    ensures { result ≡ is.with_owner owner place }
{
    match owner {
        Some(Owner::One(other)) => {
            if other == place {
                Owner::One(other)
            } else {
                Owner::Many
            }
        }
        Some(Owner::Many) => Owner::Many,
        None => Owner::One(place),
    }
}

/// The rows of a key.
fn owner_at(owners: &BTreeMap<Key, Owner>, key: Key) -> Option<Owner>
    ensures { result ≡ tree.get is.key_cmp owners.now key }
{
    owners.get(&key).copied()
}

/// Whether another row of the key of a row is named.
pub fn is_met(owners: &BTreeMap<Key, Owner>, place: Option<usize>, row: Option<&Row>) -> bool
    ensures { result ≡ is.meets_owner place (option_copied row.entry) (tree.get is.key_cmp owners.now) }
{
    let Some(place) = place else {
        return false;
    };
    match row {
        Some(row) => is_other(place, owner_at(owners, key_of(row))),
        None => false,
    }
}

/// Keeps the rows of a key.
fn put(owners: &mut BTreeMap<Key, Owner>, key: Key, owner: Owner) -> Result<(), OutOfMemory>
    ensures { OnOk result ((q : is.Key) → tree.get is.key_cmp owners.new q ≡ (if tree.is_at (is.key_cmp key) q then Some owner else tree.get is.key_cmp owners.old q)) }
{
    match owners.insert(key, owner) {
        Ok(_) => Ok(()),
        Err(_) => Err(OutOfMemory),
    }
}

/// Notes a row at its key.
fn own(
    owners: &mut BTreeMap<Key, Owner>,
    place: Option<usize>,
    row: Option<&Row>,
) -> Result<(), OutOfMemory>
    ensures { OnOk result (is.IsOwned place (option_copied row.entry) (tree.get is.key_cmp owners.old) (tree.get is.key_cmp owners.new)) }
{
    let Some(place) = place else {
        return Ok(());
    };
    let Some(row) = row else {
        return Ok(());
    };
    let owner = with_owner(owner_at(owners, key_of(row)), place);
    put(owners, key_of(row), owner)
}

/// Notes the place of a row.
fn note(named: &mut [bool], count: &mut u64, place: Option<usize>)
    ensures { is.IsRowNoted place named.old named.new count.old count.new }
{
    let before = *count;
    let Some(place) = place else {
        return;
    };
    if place < named.len() && !named[place] {
        named[place] = true;
        *count = before.saturating_add(1);
    }
}

impl Rows {
    /// Notes a row that a line names.
    pub fn note(&mut self, place: Option<usize>, row: Option<&Row>) -> Result<(), OutOfMemory>
        ensures named { OnOk result (is.IsRowNoted place self.old.named.items self.new.named.items self.old.count self.new.count) }
        ensures owned { OnOk result (is.IsOwned place (option_copied row.entry) (tree.get is.key_cmp self.old.owners) (tree.get is.key_cmp self.new.owners)) }
    {
        note(self.named.as_mut_slice(), &mut self.count, place);
        own(&mut self.owners, place, row)
    }
}
