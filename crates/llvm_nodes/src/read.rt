ghost use Rattle.std.specs.Prelude.{ℕ, ◌==◌, true, false, All, get_or, ◌≡◌, ◌+◌, ◌≤◌, ◌<◌, ◌^◌, length, drop, IfOk, OnOk, is_some, if◌then◌else◌};
ghost use Rattle.bitstream_spelling.specs.Framed.{LiesIn, IsFramed, bit_of as bit_number};
ghost use Rattle.llvm_items.specs.FirstRule.{IsFirstRule};
ghost use Rattle.llvm_nodes.specs.Metadata.{item_of as stated, is_numbered as numbered_at, numbered};
ghost use Rattle.llvm_nodes.specs.Rules.{has_ids, has_value, tests, is_followed as followed_by};
ghost use Rattle.llvm_nodes.specs.Reading.{HasItem, HasNamed, IsKept, HasRecord, StepAnswer, MetaAnswer, rule_at};

use crate::code::{DISTINCT_NODE, NAME, NAMED_NODE, NODE, STRING, VALUE};
use crate::item::{Meta, MetaList, Named, NamedList, chars_of, item_of, numbers_of};
use crate::table::{Counts, record_rule, takes_number};
use bitstream_spelling::{FieldList, Item, Items};
use dx_base::{Bytes, Fault, List, OutOfMemory, Rule};
use llvm_items::{OpenBlocks, bit_of, code_of, fields_of, is_record};
use std::alloc::Global;

/// The id of a block of metadata.
const METADATA: u64 = 15;

/// What is read of the items so far.
#[derive(Drop)]
pub struct Reader {
    /// The blocks that are open.
    pub around: OpenBlocks,
    /// The name that stands directly before, if one does.
    pub name: Option<Bytes>,
    /// The numbered records.
    pub list: MetaList,
    /// Their bits.
    pub bits: FieldList,
    /// The named nodes.
    pub named: NamedList,
    /// The bit of the module's end, once it is read.
    pub end: u64,
}

/// Whether the item is a record of the metadata that takes a number.
fn is_numbered(around: &OpenBlocks, item: Item) -> bool
    ensures { result ≡ numbered_at (record { around = around.now; item = item }) }
{
    around.has_record_of(METADATA, item) && takes_number(code_of(item))
}

/// Whether a NAMED_NODE follows directly in the same block; these are the items behind a record of it.
fn is_followed(behind: &[Item]) -> bool
    ensures { result ≡ followed_by behind.now }
{
    for item in behind {
        match *item {
            Item::Skip { .. } => {}
            _ => return is_record(*item) && code_of(*item) == NAMED_NODE,
        }
    }
    false
}

/// The least rule that is broken at an item, with the items behind it.
fn broken_rule(
    reader: &Reader,
    item: Item,
    behind: &[Item],
    fields: &[u64],
    counts: Counts,
) -> Option<u8>
    requires lies { LiesIn fields.now item }
    requires few { counts.records < 2 ^ 32 }
    ensures { IsFirstRule result (tests fields.now counts.records counts.types counts.values (is_some reader.now.name) behind.now (record { around = reader.now.around; item = item })) }
{
    if !reader.around.has_record_of(METADATA, item) {
        return None;
    }
    record_rule(
        counts,
        reader.name.is_some(),
        is_followed(behind),
        code_of(item),
        fields_of(item, fields),
    )
}

/// How many records take a number.
fn count_records(alloc: Global, list: &[Item]) -> Result<u64, OutOfMemory>
    requires { length list.now < 2 ^ 32 }
    ensures value { IfOk result (λ count. count ≡ length (numbered list.now)) }
    ensures few { IfOk result (λ count. count < 2 ^ 32) }
{
    let mut around = OpenBlocks::new(alloc);
    let mut count = 0u64;
    for item in list {
        count = counted(&around, *item, count);
        around.pass(*item)?;
    }
    Ok(count)
}

/// The count, one more where the item takes a number.
fn counted(around: &OpenBlocks, item: Item, count: u64) -> u64
    requires { count < 2 ^ 32 }
    ensures value { result ≡ (if numbered_at (record { around = around.now; item = item }) then count + 1 else count) }
    ensures few { result ≤ count + 1 }
{
    if is_numbered(around, item) {
        count + 1
    } else {
        count
    }
}

/// Keeps a record that takes a number.
fn keep_item(
    alloc: Global,
    reader: &mut Reader,
    code: u64,
    fields: &[u64],
    bit: u64,
) -> Result<(), OutOfMemory>
    requires ids { (code == 2) ≡ false → (code == 1) ≡ false → All (λ t. t < 2 ^ 32) fields.now }
    requires ty { (code == 2) ≡ true → get_or fields.now 0 0 < 2 ^ 32 }
    requires value { (code == 2) ≡ true → get_or fields.now 1 0 < 2 ^ 32 }
    ensures { OnOk result (HasItem reader.old reader.new (stated code fields.now) bit) }
{
    let kept = item_of(alloc, code, fields)?;
    if reader.list.push(kept).is_err() {
        return Err(OutOfMemory);
    }
    if reader.bits.push(bit).is_err() {
        return Err(OutOfMemory);
    }
    Ok(())
}

/// Keeps a named node with the name that stands before it.
fn keep_named(
    alloc: Global,
    reader: &mut Reader,
    fields: &[u64],
    bit: u64,
) -> Result<(), OutOfMemory>
    requires { All (λ t. t < 2 ^ 32) fields.now }
    ensures { OnOk result (HasNamed reader.old reader.new fields.now bit) }
{
    let nodes = numbers_of(alloc, fields)?;
    let name = match reader.name.take() {
        Some(name) => name,
        None => List::new(alloc),
    };
    match reader.named.push(Named { name, nodes, bit }) {
        Ok(()) => Ok(()),
        Err(_) => Err(OutOfMemory),
    }
}

/// Keeps a record of a block of metadata that breaks no rule.
fn keep_record(
    alloc: Global,
    reader: &mut Reader,
    code: u64,
    fields: &[u64],
    bit: u64,
    counts: Counts,
) -> Result<(), OutOfMemory>
    requires few { counts.records < 2 ^ 32 }
    requires ids { has_ids counts.records code fields.now ≡ true }
    requires value { has_value counts.types counts.values code fields.now ≡ true }
    ensures { OnOk result (HasRecord reader.old reader.new code fields.now bit) }
{
    match code {
        STRING | VALUE | NODE | DISTINCT_NODE => {
            keep_item(alloc, reader, code, fields, bit)?;
            reader.name = None;
        }
        NAME => reader.name = Some(chars_of(alloc, fields)?),
        NAMED_NODE => keep_named(alloc, reader, fields, bit)?,
        _ => reader.name = None,
    }
    Ok(())
}

/// Keeps what an item states.
fn keep(
    alloc: Global,
    reader: &mut Reader,
    item: Item,
    fields: &[u64],
    counts: Counts,
    behind: &[Item],
) -> Result<(), OutOfMemory>
    requires lies { LiesIn fields.now item }
    requires few { counts.records < 2 ^ 32 }
    requires sound { rule_at reader.old fields.now counts behind.now item ≡ 0 }
    ensures { OnOk result (IsKept reader.old reader.new fields.now (record { around = reader.old.around; item = item })) }
{
    if reader.around.has_record_of(METADATA, item) {
        return keep_record(
            alloc,
            reader,
            code_of(item),
            fields_of(item, fields),
            bit_of(item),
            counts,
        );
    }
    match item {
        Item::Skip { .. } => {}
        Item::Record { .. } => reader.name = None,
        Item::Enter { .. } => reader.name = None,
        Item::End { bit } => {
            reader.name = None;
            if reader.around.ends_module(item) {
                reader.end = bit;
            }
        }
    }
    Ok(())
}

/// Goes past an item, or tells the least rule that is broken there.
fn step(
    alloc: Global,
    reader: &mut Reader,
    item: Item,
    behind: &[Item],
    fields: &[u64],
    counts: Counts,
) -> Result<(), Fault>
    requires lies { LiesIn fields.now item }
    requires few { counts.records < 2 ^ 32 }
    ensures { StepAnswer result reader.old reader.new fields.now counts behind.now item }
{
    if let Some(rule) = broken_rule(reader, item, behind, fields, counts) {
        return Err(Fault::Refused {
            rule: Rule::N(rule),
            bit: bit_of(item),
        });
    }
    if keep(alloc, reader, item, fields, counts, behind).is_err() {
        return Err(Fault::OutOfMemory);
    }
    match reader.around.pass(item) {
        Ok(()) => Ok(()),
        Err(OutOfMemory) => Err(Fault::OutOfMemory),
    }
}

/// The metadata of the items with these fields, or the first rule that is broken.
fn meta_in(
    alloc: Global,
    list: &[Item],
    fields: &[u64],
    types: u32,
    values: u32,
) -> Result<Meta, Fault>
    requires { IsFramed list.now fields.now }
    ensures { MetaAnswer result list.now fields.now types values }
{
    let Ok(records) = count_records(alloc, list) else {
        return Err(Fault::OutOfMemory);
    };
    let counts = Counts {
        records,
        types,
        values,
    };
    let mut reader = Reader {
        around: OpenBlocks::new(alloc),
        name: None,
        list: List::new(alloc),
        bits: List::new(alloc),
        named: List::new(alloc),
        end: 0,
    };
    for (i, item) in list.iter().enumerate() {
        step(alloc, &mut reader, *item, &list[i + 1..], fields, counts)?;
    }
    let Reader {
        list,
        bits,
        named,
        end,
        ..
    } = reader;
    Ok(Meta {
        list,
        bits,
        named,
        end,
    })
}

/// The metadata of a module with so many types and values, or the first of the rules N1 to N4 that is broken, with its bit.
pub fn read_nodes(alloc: Global, items: &Items, types: u32, values: u32) -> Result<Meta, Fault>
    requires { IsFramed items.now.list items.now.fields }
    ensures { MetaAnswer result items.now.list items.now.fields types values }
{
    meta_in(
        alloc,
        items.list.as_slice(),
        items.fields.as_slice(),
        types,
        values,
    )
}
