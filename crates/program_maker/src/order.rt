ghost use Rattle.std.specs.Prelude.{◌≡◌, ◌++◌, ◌∷◌, [], IfOk, OnOk};
ghost use Rattle.program_maker.specs.Order as is;

use dx_base::OutOfMemory;
use llvm_facts::Row;
use profile_tables::class_number;
use std::alloc::Global;

const _: () = prove!(size_of::<Keyed>() == 16);

/// Class and id.
pub type Key = (u32, u32);

/// A row's key, and its place.
pub type Keyed = (Key, usize);

fn key_of(row: &Row) -> Key
    ensures { result ≡ is.key_of row.now }
{
    (class_number(row.class), row.id)
}

fn add_row(keyed: &mut Vec<Keyed>, row: &Row, place: usize) -> Result<(), OutOfMemory>
    ensures { OnOk result (keyed.new.items ≡ keyed.old.items ++ (is.key_of row.now, place) ∷ []) }
{
    match keyed.push((key_of(row), place)) {
        Ok(()) => Ok(()),
        Err(_) => Err(OutOfMemory),
    }
}

/// The rows with their keys.
fn keyed_rows(alloc: Global, rows: &[Row]) -> Result<Vec<Keyed>, OutOfMemory>
    ensures { IfOk result (λ keyed. keyed.items ≡ is.keyed rows.now) }
{
    let mut keyed = Vec::new(alloc);
    for place in 0..rows.len() {
        add_row(&mut keyed, &rows[place], place)?;
    }
    Ok(keyed)
}

/// The rows by class, then id.
pub fn order_of(alloc: Global, rows: &[Row]) -> Result<Vec<Keyed>, OutOfMemory>
    ensures { IfOk result (λ order. is.AreInOrder rows.now order.items) }
{
    let mut order = keyed_rows(alloc, rows)?;
    order.sort_unstable();
    Ok(order)
}
