//! The lines of parts and items.

ghost use Rattle.std.specs.Prelude.{◌≡◌, ◌++◌, OnOk, IfOk, map};
ghost use Rattle.std.specs.List.{flat_map};
ghost use Rattle.dx_show.specs.Lines.{shown as shown_as, part_line, block_line, record_line, item_line, lines};

use crate::text::{push_all, push_number};
use bitstream_spelling::Item;
use dx_base::{Bytes, List, OutOfMemory};
use dxbc_container::Part;
use std::alloc::Global;

/// The character of a part's name, or a dot.
fn shown(byte: u8) -> u8
    ensures { result ≡ shown_as byte }
{
    if (0x21..=0x7E).contains(&byte) {
        byte
    } else {
        b'.'
    }
}

fn push_name(text: &mut Bytes, name: &[u8]) -> Result<(), OutOfMemory>
    ensures { OnOk result (text.new ≡ text.old ++ map shown_as name.now) }
{
    for byte in name {
        push_all(text, &[shown(*byte)])?;
    }
    Ok(())
}

fn push_part(text: &mut Bytes, part: &Part) -> Result<(), OutOfMemory>
    ensures { OnOk result (text.new ≡ text.old ++ part_line part.now) }
{
    push_all(text, b"part ")?;
    push_name(text, &part.name)?;
    push_all(text, b" at ")?;
    push_number(text, part.at)?;
    push_all(text, b" size ")?;
    push_number(text, u64::from(part.size))?;
    push_all(text, b"\n")
}

/// A line of a word and a block's id.
fn push_block(text: &mut Bytes, word: &[u8], id: u64, bit: u64) -> Result<(), OutOfMemory>
    ensures { OnOk result (text.new ≡ text.old ++ block_line word.now id bit) }
{
    push_all(text, word)?;
    push_number(text, id)?;
    push_all(text, b" bit ")?;
    push_number(text, bit)?;
    push_all(text, b"\n")
}

fn push_record(text: &mut Bytes, code: u64, count: u32, bit: u64) -> Result<(), OutOfMemory>
    ensures { OnOk result (text.new ≡ text.old ++ record_line code count bit) }
{
    push_all(text, b"record ")?;
    push_number(text, code)?;
    push_all(text, b" fields ")?;
    push_number(text, u64::from(count))?;
    push_all(text, b" bit ")?;
    push_number(text, bit)?;
    push_all(text, b"\n")
}

fn push_item(text: &mut Bytes, item: &Item) -> Result<(), OutOfMemory>
    ensures { OnOk result (text.new ≡ text.old ++ item_line item.now) }
{
    match item {
        Item::Enter { id, bit, .. } => push_block(text, b"block ", *id, *bit),
        Item::Record {
            code,
            count,
            bit,
            ..
        } => push_record(text, *code, *count, *bit),
        Item::Skip { id, bit, .. } => push_block(text, b"skip ", *id, *bit),
        Item::End { .. } => Ok(()),
    }
}

fn push_parts(text: &mut Bytes, parts: &[Part]) -> Result<(), OutOfMemory>
    ensures { OnOk result (text.new ≡ text.old ++ flat_map part_line parts.now) }
{
    for part in parts {
        push_part(text, part)?;
    }
    Ok(())
}

fn push_items(text: &mut Bytes, items: &[Item]) -> Result<(), OutOfMemory>
    ensures { OnOk result (text.new ≡ text.old ++ flat_map item_line items.now) }
{
    for item in items {
        push_item(text, item)?;
    }
    Ok(())
}

/// The lines of the parts, and behind them those of the items.
pub fn lines_of(alloc: Global, parts: &[Part], items: &[Item]) -> Result<Bytes, OutOfMemory>
    ensures { IfOk result (λ text. text ≡ lines parts.now items.now) }
{
    let mut text: Bytes = List::new(alloc);
    push_parts(&mut text, parts)?;
    push_items(&mut text, items)?;
    Ok(text)
}
