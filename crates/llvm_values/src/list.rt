ghost use Rattle.std.specs.Prelude.{ℕ, ◌≡◌, ◌+◌, ◌<◌, ◌^◌, length, get_or, IfOk, OnOk};
ghost use Rattle.bitstream_spelling.specs.Framed.{LiesIn, IsFramed};
ghost use Rattle.llvm_values.specs.Values.{name_in, value_count, value_stated, values_of};
ghost use Rattle.llvm_values.specs.Reading.{IsKept, IsNext, IsTable, LiesIfAny};

use crate::constant::{constant_of, type_after};
use crate::count::{count_values, counted};
use crate::global::{Global, GlobalList};
use crate::module::{function_of, has_body, is_function, is_variable, takes_value, variable_of};
use crate::symbol::{first_symbols, name_of};
use bitstream_spelling::{Item, Items};
use dx_base::{List, OutOfMemory};
use llvm_items::{OpenBlocks, bit_of, code_of, fields_of};
use llvm_types::Types;
use std::alloc::Global as Heap;

/// What is read of the items so far.
#[derive(Drop)]
pub struct ListReader {
    /// The blocks that are open.
    pub around: OpenBlocks,
    /// The type of the constants.
    pub ty: Option<u32>,
    /// How many functions have a body.
    pub bodies: u32,
    /// The values by number.
    pub list: GlobalList,
}

fn symbol_at(symbols: &[Option<Item>], number: usize) -> Option<Item>
    ensures { result ≡ get_or symbols.now number None }
{
    match symbols.get(number) {
        Some(symbol) => *symbol,
        None => None,
    }
}

/// The value that an item states which takes a number.
fn value_of(
    alloc: Heap,
    reader: &ListReader,
    item: Item,
    fields: &[u64],
    types: &Types,
    symbols: &[Option<Item>],
) -> Result<Global, OutOfMemory>
    requires lies { LiesIn fields.now item }
    requires lie { (k : ℕ) → LiesIfAny fields.now (get_or symbols.now k None) }
    ensures { IfOk result (λ value. value ≡ value_stated fields.now types.now.list reader.now.ty reader.now.bodies (name_in fields.now (get_or symbols.now (length reader.now.list) None)) (record { around = reader.now.around; item = item })) }
{
    let stated = fields_of(item, fields);
    if is_variable(&reader.around, item) {
        return Ok(variable_of(types, stated, bit_of(item)));
    }
    if is_function(&reader.around, item) {
        let name = name_of(alloc, symbol_at(symbols, reader.list.len()), fields)?;
        return Ok(function_of(types, stated, reader.bodies, name, bit_of(item)));
    }
    constant_of(alloc, reader.ty, code_of(item), stated, bit_of(item))
}

/// Keeps the value that an item states, if it states one.
fn keep_value(
    alloc: Heap,
    reader: &mut ListReader,
    item: Item,
    fields: &[u64],
    types: &Types,
    symbols: &[Option<Item>],
) -> Result<(), OutOfMemory>
    requires lies { LiesIn fields.now item }
    requires lie { (k : ℕ) → LiesIfAny fields.now (get_or symbols.now k None) }
    ensures { OnOk result (IsKept reader.old reader.new fields.now types.now.list symbols.now item) }
{
    if !takes_value(&reader.around, item) {
        return Ok(());
    }
    let value = value_of(alloc, reader, item, fields, types, symbols)?;
    match reader.list.push(value) {
        Ok(()) => Ok(()),
        Err(_) => Err(OutOfMemory),
    }
}

/// Goes past an item.
fn step(
    alloc: Heap,
    reader: &mut ListReader,
    item: Item,
    fields: &[u64],
    types: &Types,
    symbols: &[Option<Item>],
) -> Result<(), OutOfMemory>
    requires lies { LiesIn fields.now item }
    requires lie { (k : ℕ) → LiesIfAny fields.now (get_or symbols.now k None) }
    requires few { reader.old.bodies + 1 < 2 ^ 32 }
    ensures { OnOk result (IsNext reader.old reader.new fields.now types.now.list symbols.now item) }
{
    keep_value(alloc, reader, item, fields, types, symbols)?;
    reader.bodies = counted(reader.bodies, has_body(&reader.around, item, fields));
    reader.ty = type_after(reader.ty, &reader.around, item, fields);
    reader.around.pass(item)
}

fn values_in(
    alloc: Heap,
    list: &[Item],
    fields: &[u64],
    types: &Types,
    symbols: &[Option<Item>],
) -> Result<GlobalList, OutOfMemory>
    requires framed { IsFramed list.now fields.now }
    requires table { IsTable list.now fields.now symbols.now }
    requires whole { length symbols.now ≡ value_count list.now }
    ensures exact { IfOk result (λ values. values ≡ values_of list.now fields.now types.now.list) }
    ensures whole { IfOk result (λ values. length values ≡ value_count list.now) }
    ensures few { IfOk result (λ values. length values < 2 ^ 32) }
{
    let mut reader = ListReader {
        around: OpenBlocks::new(alloc),
        ty: None,
        bodies: 0,
        list: List::new(alloc),
    };
    for item in list {
        step(alloc, &mut reader, *item, fields, types, symbols)?;
    }
    let ListReader { list, .. } = reader;
    Ok(list)
}

/// The values of the module by number, whatever rule its records break (LLVM 3.7 bitcode file format, "MODULE_BLOCK Contents", "CONSTANTS_BLOCK Contents" and "VALUE_SYMTAB_BLOCK Contents").
///
/// Variables, functions and constants of the module take numbers in record order. A function has the name of the first symbol of its number, wherever that stands.
pub fn list_values(alloc: Heap, items: &Items, types: &Types) -> Result<GlobalList, OutOfMemory>
    requires { IsFramed items.now.list items.now.fields }
    ensures exact { IfOk result (λ values. values ≡ values_of items.now.list items.now.fields types.now.list) }
    ensures whole { IfOk result (λ values. length values ≡ value_count items.now.list) }
    ensures few { IfOk result (λ values. length values < 2 ^ 32) }
{
    let count = count_values(alloc, items)?;
    let list = items.list.as_slice();
    let fields = items.fields.as_slice();
    let symbols = first_symbols(alloc, count as usize, list, fields)?;
    values_in(alloc, list, fields, types, symbols.as_slice())
}
