ghost use Rattle.std.specs.Prelude.{◌≡◌, IfOk, OnOk, ℕ};
ghost use Rattle.std.specs.Ordering.{nat_cmp};
ghost use Rattle.std.specs.BTreeMap as tree;
ghost use Rattle.profile_tables.specs.Resources as is;
ghost use Rattle.profile_tables.specs.Tables.{ArePlaces, row_noted};

use dx_base::OutOfMemory;
use dxil_form::Class;
use llvm_facts::Row;
use std::alloc::Global;
use std::collections::BTreeMap;

/// The number of a class in a call that makes a handle.
pub fn class_number(class: Class) -> u32
    ensures { result ≡ is.class_number class }
{
    match class {
        Class::Srv => 0,
        Class::Uav => 1,
        Class::Cbv => 2,
    }
}

/// Notes the place of a row at its id, if it is of the class.
fn note(
    map: &mut BTreeMap<u32, usize>,
    class: u32,
    place: usize,
    row: &Row,
) -> Result<(), OutOfMemory>
    ensures { OnOk result ((id : ℕ) → tree.get nat_cmp map.new id ≡ row_noted row.now class place id (tree.get nat_cmp map.old id)) }
{
    if class_number(row.class) != class {
        return Ok(());
    }
    match map.insert(row.id, place) {
        Ok(_) => Ok(()),
        Err(_) => Err(OutOfMemory),
    }
}

/// The place of the first row of a class by its id.
pub fn places_of(
    alloc: Global,
    rows: &[Row],
    class: u32,
) -> Result<BTreeMap<u32, usize>, OutOfMemory>
    ensures { IfOk result (λ map. ArePlaces rows.now class 0 (tree.get nat_cmp map)) }
{
    let mut map = BTreeMap::new(alloc);
    let mut left = rows.len();
    while left > 0 {
        left -= 1;
        note(&mut map, class, left, &rows[left])?;
    }
    Ok(map)
}
