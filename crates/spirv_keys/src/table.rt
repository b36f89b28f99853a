ghost use Rattle.std.specs.Prelude.{◌≡◌, OnOk, length};
ghost use Rattle.spirv_code.specs.Keys.{add_key};
ghost use Rattle.spirv_code.specs.Needed.{AreWords, add_all, add_each, add_whole, array_keys, arrays_keys, sort_keys, whole, words_keys};
ghost use Rattle.spirv_code.specs.Frame.{rowed};

use dx_base::OutOfMemory;
use dxil_form::{Program, Target};
use indexmap::IndexSet;
use spirv_code::{Global, Sort, Storage, buffer_storage, input_sort, is_rowed, limit_of};

/// Notes a key, unless it stands already.
#[tactic(auto, using(spirv_table::proofs::Keys::add_same))]
fn intern(table: &mut IndexSet<Global>, key: Global) -> Result<(), OutOfMemory>
    ensures { OnOk result (table.new.keys ≡ add_key table.old.keys key) }
{
    match table.insert(key) {
        Ok(_) => Ok(()),
        Err(_) => Err(OutOfMemory),
    }
}

/// Notes keys, each unless it stands already.
fn intern_each(table: &mut IndexSet<Global>, keys: &[Global]) -> Result<(), OutOfMemory>
    ensures { OnOk result (table.new.keys ≡ add_each table.old.keys keys.now) }
{
    for key in keys {
        intern(table, *key)?;
    }
    Ok(())
}

/// Notes the type of a buffer's array, behind what it needs.
fn add_words(table: &mut IndexSet<Global>, p: &Program, r: u32) -> Result<(), OutOfMemory>
    ensures { OnOk result (table.new.keys ≡ add_each table.old.keys (words_keys p.now (rowed p.now r) r)) }
{
    let int = Global::Plain(Sort::Int);
    let words = Global::Plain(Sort::Words(r));
    if is_rowed(p, r) {
        let rows = Global::Number(limit_of(p, Target::Buffer(r)));
        intern_each(table, &[int, Global::Plain(Sort::Row), rows, words])
    } else {
        intern_each(table, &[int, words])
    }
}

/// Notes a type, behind what it needs.
#[tactic(auto, using(crate::proofs::Adding::add_each_more))]
fn add_sort(table: &mut IndexSet<Global>, p: &Program, sort: Sort) -> Result<(), OutOfMemory>
    ensures { OnOk result (table.new.keys ≡ add_each table.old.keys (sort_keys p.now sort)) }
{
    let int = Global::Plain(Sort::Int);
    let key = Global::Plain(sort);
    match sort {
        Sort::Int | Sort::Bool => intern_each(table, &[key]),
        Sort::Triple | Sort::Row => intern_each(table, &[int, key]),
        Sort::Words(r) => add_words(table, p, r),
        Sort::Block(r) => {
            add_words(table, p, r)?;
            intern_each(table, &[key])
        }
        Sort::Array(a) => {
            let words = Global::Number(limit_of(p, Target::Shared(a)));
            intern_each(table, &[int, words, key])
        }
    }
}

/// Notes a groupshared array, behind what it needs.
#[tactic(auto, using(crate::proofs::Adding::add_each_more))]
fn add_array(table: &mut IndexSet<Global>, p: &Program, a: u32) -> Result<(), OutOfMemory>
    ensures { OnOk result (table.new.keys ≡ add_each table.old.keys (array_keys p.now a)) }
{
    let to = Sort::Array(a);
    let storage = Storage::Workgroup;
    add_sort(table, p, to)?;
    intern_each(table, &[Global::Pointer { storage, to }, Global::Shared(a)])
}

/// Notes all groupshared arrays.
fn add_arrays(table: &mut IndexSet<Global>, p: &Program) -> Result<(), OutOfMemory>
    requires { AreWords p.now }
    ensures { OnOk result (table.new.keys ≡ add_each table.old.keys (arrays_keys p.now (length p.now.shared))) }
{
    for a in 0..p.shared.len() as u32 {
        add_array(table, p, a)?;
    }
    Ok(())
}

/// Notes a key, behind what it needs.
#[tactic(auto, using(crate::proofs::Adding::add_each_more))]
fn add_needed(table: &mut IndexSet<Global>, p: &Program, key: Global) -> Result<(), OutOfMemory>
    requires { AreWords p.now }
    ensures { OnOk result (table.new.keys ≡ add_each table.old.keys (whole p.now key)) }
{
    match key {
        Global::Plain(sort) => add_sort(table, p, sort),
        Global::Pointer { to, .. } => {
            add_sort(table, p, to)?;
            intern_each(table, &[key])
        }
        Global::Number(_) => intern_each(table, &[Global::Plain(Sort::Int), key]),
        Global::Truth(_) => intern_each(table, &[Global::Plain(Sort::Bool), key]),
        Global::Input(number) => {
            let to = input_sort(number);
            let storage = Storage::Input;
            add_sort(table, p, to)?;
            intern_each(table, &[Global::Pointer { storage, to }, key])
        }
        Global::Buffer(r) => {
            let to = Sort::Block(r);
            let storage = buffer_storage(is_rowed(p, r));
            add_sort(table, p, to)?;
            intern_each(table, &[Global::Pointer { storage, to }, key])
        }
        Global::Shared(_) => add_arrays(table, p),
    }
}

/// Notes a key that is not there yet, behind what it needs.
#[tactic(auto, using(spirv_table::proofs::Keys::any_same))]
pub fn add(table: &mut IndexSet<Global>, p: &Program, key: Global) -> Result<(), OutOfMemory>
    requires { AreWords p.now }
    ensures { OnOk result (table.new.keys ≡ add_whole p.now table.old.keys key) }
{
    if table.contains(&key) {
        return Ok(());
    }
    add_needed(table, p, key)
}

/// Notes keys, each behind what it needs.
pub fn add_keys(
    table: &mut IndexSet<Global>,
    p: &Program,
    keys: &[Global],
) -> Result<(), OutOfMemory>
    requires { AreWords p.now }
    ensures { OnOk result (table.new.keys ≡ add_all p.now table.old.keys keys.now) }
{
    for key in keys {
        add(table, p, *key)?;
    }
    Ok(())
}
