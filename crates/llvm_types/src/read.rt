ghost use Rattle.std.specs.Prelude.{ℕ, ◌≡◌, ◌+◌, ◌≤◌, ◌<◌, ◌^◌, length, IfOk, OnOk, if◌then◌else◌};
ghost use Rattle.bitstream_spelling.specs.Framed.{LiesIn, IsFramed};
ghost use Rattle.llvm_items.specs.FirstRule.{IsFirstRule};
ghost use Rattle.llvm_types.specs.Types.{is_numbered, numbered};
ghost use Rattle.llvm_types.specs.Rules.{tests};
ghost use Rattle.llvm_types.specs.Reading.{IsKept, StepAnswer, TypesAnswer, rule_at};

use crate::kind::{TypeList, Types, kind_of};
use crate::table::{record_rule, takes_number};
use bitstream_spelling::{Item, Items};
use dx_base::{Fault, List, OutOfMemory, Rule};
use llvm_items::{OpenBlocks, bit_of, fields_of};
use std::alloc::Global;

/// The id of a block of types.
const TYPES: u64 = 17;

/// What is read of the items so far.
#[derive(Drop)]
pub struct Reader {
    /// The blocks that are open.
    pub around: OpenBlocks,
    /// Whether a block of types was entered.
    pub begun: bool,
    /// The types by number.
    pub list: TypeList,
}

/// Whether the item is a record that takes a type number.
fn is_type(around: &OpenBlocks, item: Item) -> bool
    ensures { result ≡ is_numbered (record { around = around.now; item = item }) }
{
    match item {
        Item::Record { code, .. } => around.has_record_of(TYPES, item) && takes_number(code),
        Item::Enter { .. } => false,
        Item::Skip { .. } => false,
        Item::End { .. } => false,
    }
}

/// The least rule that is broken at an item, where `count` records take a type number.
fn broken_rule(reader: &Reader, item: Item, fields: &[u64], count: u64) -> Option<u8>
    requires { LiesIn fields.now item }
    ensures { IsFirstRule result (tests fields.now count reader.now.begun (record { around = reader.now.around; item = item })) }
{
    match item {
        Item::Record { code, .. } => {
            if reader.around.has_record_of(TYPES, item) {
                record_rule(count, code, fields_of(item, fields))
            } else {
                None
            }
        }
        Item::Enter { .. } => {
            if reader.begun && reader.around.enters(TYPES, item) {
                Some(1)
            } else {
                None
            }
        }
        Item::End { .. } => {
            if !reader.begun && reader.around.ends_module(item) {
                Some(1)
            } else {
                None
            }
        }
        Item::Skip { .. } => None,
    }
}

/// Keeps the type that an item states, if it states one.
fn keep_type(
    alloc: Global,
    reader: &mut Reader,
    item: Item,
    fields: &[u64],
    count: u64,
) -> Result<(), OutOfMemory>
    requires lies { LiesIn fields.now item }
    requires few { count < 2 ^ 32 }
    requires sound { rule_at reader.old fields.now count item ≡ 0 }
    ensures { OnOk result (IsKept reader.old reader.new fields.now item) }
{
    let Item::Record { code, .. } = item else {
        return Ok(());
    };
    if !is_type(&reader.around, item) {
        return Ok(());
    }
    let ty = kind_of(alloc, code, fields_of(item, fields))?;
    match reader.list.push(ty) {
        Ok(()) => Ok(()),
        Err(_) => Err(OutOfMemory),
    }
}

/// Goes past an item, or tells the least rule that is broken there.
fn step(
    alloc: Global,
    reader: &mut Reader,
    item: Item,
    fields: &[u64],
    count: u64,
) -> Result<(), Fault>
    requires lies { LiesIn fields.now item }
    requires few { count < 2 ^ 32 }
    ensures { StepAnswer result reader.old reader.new fields.now count item }
{
    if let Some(rule) = broken_rule(reader, item, fields, count) {
        return Err(Fault::Refused {
            rule: Rule::Y(rule),
            bit: bit_of(item),
        });
    }
    if keep_type(alloc, reader, item, fields, count).is_err() {
        return Err(Fault::OutOfMemory);
    }
    reader.begun = reader.begun || reader.around.enters(TYPES, item);
    match reader.around.pass(item) {
        Ok(()) => Ok(()),
        Err(OutOfMemory) => Err(Fault::OutOfMemory),
    }
}

/// The count, one more where the item takes a type number.
fn counted(around: &OpenBlocks, item: Item, count: u64) -> u64
    requires { count < 2 ^ 32 }
    ensures value { result ≡ (if is_numbered (record { around = around.now; item = item }) then count + 1 else count) }
    ensures few { result ≤ count + 1 }
{
    if is_type(around, item) {
        count + 1
    } else {
        count
    }
}

/// How many records take a type number.
fn count_types(alloc: Global, list: &[Item]) -> Result<u64, OutOfMemory>
    requires { length list.now < 2 ^ 32 }
    ensures value { IfOk result (λ count. count ≡ length (numbered list.now)) }
    ensures few { IfOk result (λ count. count < 2 ^ 32) }
{
    let mut around = OpenBlocks::new(alloc);
    let mut count = 0u64;
    for item in list {
        count = counted(&around, *item, count);
        around.pass(*item)?;
    }
    Ok(count)
}

/// The types of the items with these fields, or the first rule that is broken.
fn types_in(alloc: Global, list: &[Item], fields: &[u64]) -> Result<Types, Fault>
    requires { IsFramed list.now fields.now }
    ensures { TypesAnswer result list.now fields.now }
{
    let Ok(count) = count_types(alloc, list) else {
        return Err(Fault::OutOfMemory);
    };
    let mut reader = Reader {
        around: OpenBlocks::new(alloc),
        begun: false,
        list: List::new(alloc),
    };
    for item in list {
        step(alloc, &mut reader, *item, fields, count)?;
    }
    let Reader { list, .. } = reader;
    Ok(Types { list })
}

/// The types of the module by number, or the first of the rules Y1 to Y4 that is broken, with its bit.
pub fn read_types(alloc: Global, items: &Items) -> Result<Types, Fault>
    requires { IsFramed items.now.list items.now.fields }
    ensures { TypesAnswer result items.now.list items.now.fields }
{
    types_in(alloc, items.list.as_slice(), items.fields.as_slice())
}
