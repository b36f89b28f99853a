ghost use Rattle.std.specs.Prelude.{ℕ, ◌≡◌, ◌^◌, length, get_or, IfOk, map, ◌%◌};
ghost use Rattle.bitstream_spelling.specs.Framed.{LiesIn, IsFramed};
ghost use Rattle.llvm_values.specs.Values.{is_symbol as states_symbol, name_in};
ghost use Rattle.llvm_values.specs.Reading.{IsTable, LiesIfAny, IsNoted};

use crate::code::{ENTRY, SYMBOLS};
use crate::field::{field_at, number_of};
use bitstream_spelling::Item;
use dx_base::{Bytes, List, OutOfMemory};
use llvm_items::{OpenBlocks, code_of, fields_of};
use std::alloc::Global as Heap;

/// Whether the item is a symbol of the module.
fn is_symbol(around: &OpenBlocks, item: Item) -> bool
    ensures { result ≡ states_symbol (record { around = around.now; item = item }) }
{
    around.has_record_of(SYMBOLS, item) && code_of(item) == ENTRY
}

/// Keeps a symbol as the first one of its value, unless one is kept already.
fn note_symbol(symbols: &mut [Option<Item>], around: &OpenBlocks, item: Item, fields: &[u64])
    requires { LiesIn fields.now item }
    ensures { IsNoted fields.now symbols.old symbols.new (record { around = around.now; item = item }) }
{
    if !is_symbol(around, item) {
        return;
    }
    let fields = fields_of(item, fields);
    if fields.len() == 0 {
        return;
    }
    let number = number_of(field_at(fields, 0)) as usize;
    if number < symbols.len() && symbols[number].is_none() {
        symbols[number] = Some(item);
    }
}

/// Notes the first symbol of each value that the table has room for.
fn note_symbols(
    alloc: Heap,
    symbols: &mut [Option<Item>],
    list: &[Item],
    fields: &[u64],
) -> Result<(), OutOfMemory>
    requires framed { IsFramed list.now fields.now }
    requires empty { (k : ℕ) → get_or symbols.old k None ≡ None }
    ensures { IfOk result (λ _. IsTable list.now fields.now symbols.new) }
{
    let mut around = OpenBlocks::new(alloc);
    for item in list {
        note_symbol(symbols, &around, *item, fields);
        around.pass(*item)?;
    }
    Ok(())
}

/// The first symbol of each of so many values, by value number.
pub fn first_symbols(
    alloc: Heap,
    count: usize,
    list: &[Item],
    fields: &[u64],
) -> Result<Vec<Option<Item>>, OutOfMemory>
    requires { IsFramed list.now fields.now }
    ensures table { IfOk result (λ symbols. IsTable list.now fields.now symbols.items) }
    ensures whole { IfOk result (λ symbols. length symbols.items ≡ count) }
{
    let Ok(mut symbols) = vec![in alloc; None; count] else {
        return Err(OutOfMemory);
    };
    note_symbols(alloc, symbols.as_mut_slice(), list, fields)?;
    Ok(symbols)
}

/// The name that a symbol gives; empty without one.
pub fn name_of(alloc: Heap, symbol: Option<Item>, fields: &[u64]) -> Result<Bytes, OutOfMemory>
    requires { LiesIfAny fields.now symbol }
    ensures { IfOk result (λ name. name ≡ name_in fields.now symbol) }
{
    let Some(item) = symbol else {
        return Ok(List::new(alloc));
    };
    let fields = fields_of(item, fields);
    if fields.len() == 0 {
        return Ok(List::new(alloc));
    }
    characters(alloc, &fields[1..])
}

/// The fields as characters, which count modulo 2^8.
fn characters(alloc: Heap, fields: &[u64]) -> Result<Bytes, OutOfMemory>
    ensures { IfOk result (λ bytes. bytes ≡ map (λ c. c % 2 ^ 8) fields.now) }
{
    let mut bytes = List::new(alloc);
    for field in fields {
        if bytes.push((*field % 256) as u8).is_err() {
            return Err(OutOfMemory);
        }
    }
    Ok(bytes)
}
