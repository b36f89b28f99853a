ghost use Rattle.std.specs.Prelude.{◌≡◌, ◌≤◌, ◌<◌, ◌^◌, length, get_or, true, false, None, IfSome, IfOk, OnOk};
ghost use Rattle.bitstream_spelling.specs.Framed.{LiesIn, IsFramed};
ghost use Rattle.llvm_items.specs.FirstRule.{IsFirstRule};
ghost use Rattle.llvm_items.specs.Sites.{is_record, is_record_of, code_of as code_in, fields_of as fields_in};
ghost use Rattle.llvm_bodies.specs.Bodies.{is_constant as is_constant_here, is_line as is_instruction_here, value_of};
ghost use Rattle.llvm_bodies.specs.declared.facts.ModuleFacts.{ModuleFacts};
ghost use Rattle.llvm_bodies.specs.Rules.{tests, Says};
ghost use Rattle.llvm_bodies.specs.Reading.{AreFew, HasRoom, IsGood, SaysHere, IsKept, IsPushed, IsNumbered, IsBodyKept, StepAnswer, BodiesAnswer, after, here, fault_of as fault_by};

use crate::facts::{ModuleFacts, gives};
use crate::line::{Body, BodyList, Line, LineList};
use crate::progress::{
    Progress, at_first, behind_constant, behind_entry, behind_record, is_instruction,
};
use crate::rules::{has_wrong_bodies, is_unfinished, record_rule};
use bitstream_spelling::{Item, Items};
use dx_base::{Fault, List, OutOfMemory, Rule, Which};
use llvm_items::{OpenBlocks, bit_of, code_of, fields_of};
use llvm_layout::{Around, Parts, read_record};
use llvm_values::{Global, GlobalList, constant_of, type_after};
use std::alloc::Global as Heap;
use std::mem;

/// The id of a body's block.
const BODY: u64 = 12;

/// The id of a block of constants.
const CONSTANTS: u64 = 11;

/// The code of a record of constants that takes no value number.
const SETTYPE: u64 = 1;

/// What is read of the items so far.
#[derive(Drop)]
pub struct Reader {
    /// The blocks that are open.
    pub around: OpenBlocks,
    /// What is known of the last body.
    pub known: Progress,
    /// The type of the constants.
    pub ty: Option<u32>,
    /// The constants of the open body.
    pub constants: GlobalList,
    /// The instructions of the open body.
    pub lines: LineList,
    /// The bodies that have ended.
    pub bodies: BodyList,
}

/// What the fields of a body's record say.
fn said_at(
    alloc: Heap,
    facts: &ModuleFacts,
    reader: &Reader,
    item: Item,
    fields: &[u64],
) -> Result<Option<Parts>, OutOfMemory>
    requires lies { LiesIn fields.now item }
    requires few { length (fields_in fields.now item) ≤ 2 ^ 24 }
    requires small { AreFew facts.now }
    ensures { IfOk result (λ parts. SaysHere facts.now fields.now reader.now item parts) }
{
    let Item::Record { code, .. } = item else {
        return Ok(None);
    };
    if !reader.around.has_record_of(BODY, item) {
        return Ok(None);
    }
    let around = Around {
        now: reader.known.now,
        types: facts.types.len() as u32,
        blocks: reader.known.blocks,
    };
    read_record(alloc, around, code, fields_of(item, fields))
}

/// The number of the first rule that is broken at an item, or of the first limit that is passed there.
fn broken_rule(
    facts: &ModuleFacts,
    reader: &Reader,
    item: Item,
    fields: &[u64],
    parts: &Option<Parts>,
) -> Option<u8>
    requires lies { LiesIn fields.now item }
    requires few { length (fields_in fields.now item) ≤ 2 ^ 24 }
    requires room { HasRoom reader.now.known }
    ensures rule { IsFirstRule result (tests facts.now fields.now reader.now.known parts.now (here reader.now item)) }
    ensures small { IfSome result (λ rule. rule ≤ 15) }
    ensures good { result ≡ None → is_record_of 12 (here reader.now item) ≡ true → IsGood reader.now.known (code_in item) (fields_in fields.now item) parts.now }
{
    match item {
        Item::Record { code, .. } => {
            if reader.around.has_record_of(BODY, item) {
                record_rule(facts, reader.known, code, fields_of(item, fields), parts)
            } else {
                None
            }
        }
        Item::End { .. } => {
            if reader.around.ends(BODY, item) && is_unfinished(reader.known) {
                return Some(10);
            }
            if reader.around.ends_module(item) && has_wrong_bodies(facts, reader.known) {
                return Some(11);
            }
            None
        }
        Item::Enter { .. } => None,
        Item::Skip { .. } => None,
    }
}

fn fault_of(rule: u8, bit: u64) -> Fault
    ensures { result ≡ fault_by rule bit }
{
    match rule {
        12 => Fault::Limit {
            which: Which::Blocks,
            bit,
        },
        13 => Fault::Limit {
            which: Which::Instructions,
            bit,
        },
        14 => Fault::Limit {
            which: Which::Cases,
            bit,
        },
        15 => Fault::Limit {
            which: Which::PhiEntries,
            bit,
        },
        _ => Fault::Refused {
            rule: Rule::M(rule),
            bit,
        },
    }
}

/// What is known behind an item.
fn known_behind(facts: &ModuleFacts, reader: &Reader, item: Item, fields: &[u64]) -> Progress
    requires lies { LiesIn fields.now item }
    requires few { length (fields_in fields.now item) ≤ 2 ^ 24 }
    requires room { HasRoom reader.now.known }
    requires small { AreFew facts.now }
    requires good { is_record_of 12 (here reader.now item) ≡ true → reader.now.known.started ≡ false → get_or (fields_in fields.now item) 0 0 < 2 ^ 32 }
    ensures { result ≡ after facts.now fields.now reader.now.known (here reader.now item) }
{
    match item {
        Item::Record { code, .. } => {
            if reader.around.has_record_of(BODY, item) {
                behind_record(facts, reader.known, code, fields_of(item, fields))
            } else if is_constant(&reader.around, item) {
                behind_constant(reader.known)
            } else {
                reader.known
            }
        }
        Item::Enter { bit, .. } => {
            if reader.around.enters(BODY, item) {
                behind_entry(facts, reader.known, bit)
            } else {
                reader.known
            }
        }
        Item::End { .. } => reader.known,
        Item::Skip { .. } => reader.known,
    }
}

/// Whether an item is an instruction of a body.
fn is_line(around: &OpenBlocks, item: Item) -> bool
    ensures { result ≡ is_instruction_here (record { around = around.now; item = item }) }
{
    around.has_record_of(BODY, item) && is_instruction(code_of(item))
}

/// Whether an item is a record that states a constant of a body.
fn is_constant(around: &OpenBlocks, item: Item) -> bool
    ensures { result ≡ is_constant_here (record { around = around.now; item = item }) }
{
    around.has_record_inside(BODY, CONSTANTS, item) && code_of(item) != SETTYPE
}

/// The instruction that a record is.
fn line_of(
    facts: &ModuleFacts,
    known: Progress,
    bit: u64,
    code: u64,
    fields: &[u64],
    parts: Parts,
) -> Line
    requires { code < 2 ^ 32 }
    ensures { result ≡ record { bit = bit; block = known.block; value = value_of facts.now known.now code fields.now; code = code; numbers = parts.numbers; types = parts.types; plain = parts.plain } }
{
    let value = if gives(facts, known.now, code, fields) {
        Some(known.now)
    } else {
        None
    };
    Line {
        bit,
        block: known.block,
        value,
        code: code as u32,
        numbers: parts.numbers,
        types: parts.types,
        plain: parts.plain,
    }
}

fn push_line(reader: &mut Reader, line: Line) -> Result<(), OutOfMemory>
    ensures { OnOk result (IsPushed reader.old reader.new line) }
{
    match reader.lines.push(line) {
        Ok(()) => Ok(()),
        Err(_) => Err(OutOfMemory),
    }
}

/// Keeps the instruction that a record is.
fn keep_line(
    facts: &ModuleFacts,
    reader: &mut Reader,
    item: Item,
    fields: &[u64],
    parts: Option<Parts>,
) -> Result<(), OutOfMemory>
    requires lies { LiesIn fields.now item }
    requires line { is_instruction_here (here reader.old item) ≡ true }
    requires says { SaysHere facts.now fields.now reader.old item parts }
    requires good { IsGood reader.old.known (code_in item) (fields_in fields.now item) parts }
    ensures { OnOk result (IsKept facts.now fields.now reader.old reader.new item) }
{
    let Some(parts) = parts else {
        return Ok(());
    };
    let line = line_of(
        facts,
        reader.known,
        bit_of(item),
        code_of(item),
        fields_of(item, fields),
        parts,
    );
    push_line(reader, line)
}

fn push_constant(reader: &mut Reader, constant: Global) -> Result<(), OutOfMemory>
    ensures { OnOk result (IsNumbered reader.old reader.new constant) }
{
    match reader.constants.push(constant) {
        Ok(()) => Ok(()),
        Err(_) => Err(OutOfMemory),
    }
}

/// Keeps the constant that a record states.
fn keep_constant(
    alloc: Heap,
    reader: &mut Reader,
    item: Item,
    fields: &[u64],
) -> Result<(), OutOfMemory>
    requires lies { LiesIn fields.now item }
    requires constant { is_constant_here (here reader.old item) ≡ true }
    requires other { is_instruction_here (here reader.old item) ≡ false }
    ensures { (m : ModuleFacts) → OnOk result (IsKept m fields.now reader.old reader.new item) }
{
    let stated = fields_of(item, fields);
    let Ok(constant) = constant_of(alloc, reader.ty, code_of(item), stated, bit_of(item)) else {
        return Err(OutOfMemory);
    };
    push_constant(reader, constant)
}

/// Keeps the body that ends.
fn keep_body(alloc: Heap, reader: &mut Reader) -> Result<(), OutOfMemory>
    ensures { OnOk result (IsBodyKept reader.old reader.new) }
{
    let body = Body {
        bit: reader.known.bit,
        blocks: reader.known.blocks,
        values: reader.known.now,
        constants: mem::replace(&mut reader.constants, List::new(alloc)),
        lines: mem::replace(&mut reader.lines, List::new(alloc)),
    };
    match reader.bodies.push(body) {
        Ok(()) => Ok(()),
        Err(_) => Err(OutOfMemory),
    }
}

/// Keeps what an item adds to the lines and the bodies.
fn keep(
    alloc: Heap,
    facts: &ModuleFacts,
    reader: &mut Reader,
    item: Item,
    fields: &[u64],
    parts: Option<Parts>,
) -> Result<(), OutOfMemory>
    requires lies { LiesIn fields.now item }
    requires says { SaysHere facts.now fields.now reader.old item parts }
    requires good { is_record_of 12 (here reader.old item) ≡ true → IsGood reader.old.known (code_in item) (fields_in fields.now item) parts }
    ensures { OnOk result (IsKept facts.now fields.now reader.old reader.new item) }
{
    match item {
        Item::Record { .. } => {
            if is_line(&reader.around, item) {
                keep_line(facts, reader, item, fields, parts)
            } else if is_constant(&reader.around, item) {
                keep_constant(alloc, reader, item, fields)
            } else {
                Ok(())
            }
        }
        Item::Enter { .. } => {
            if reader.around.enters(BODY, item) {
                reader.constants = List::new(alloc);
                reader.lines = List::new(alloc);
            }
            Ok(())
        }
        Item::End { .. } => {
            if reader.around.ends(BODY, item) {
                keep_body(alloc, reader)
            } else {
                Ok(())
            }
        }
        Item::Skip { .. } => Ok(()),
    }
}

/// Goes past an item, or tells the first rule that is broken there.
fn step(
    alloc: Heap,
    facts: &ModuleFacts,
    reader: &mut Reader,
    item: Item,
    fields: &[u64],
) -> Result<(), Fault>
    requires lies { LiesIn fields.now item }
    requires few { length (fields_in fields.now item) ≤ 2 ^ 24 }
    requires room { HasRoom reader.old.known }
    requires small { AreFew facts.now }
    ensures { StepAnswer result facts.now fields.now reader.old reader.new item }
{
    let Ok(parts) = said_at(alloc, facts, reader, item, fields) else {
        return Err(Fault::OutOfMemory);
    };
    if let Some(rule) = broken_rule(facts, reader, item, fields, &parts) {
        return Err(fault_of(rule, bit_of(item)));
    }
    let known = known_behind(facts, reader, item, fields);
    if keep(alloc, facts, reader, item, fields, parts).is_err() {
        return Err(Fault::OutOfMemory);
    }
    reader.known = known;
    reader.ty = type_after(reader.ty, &reader.around, item, fields);
    match reader.around.pass(item) {
        Ok(()) => Ok(()),
        Err(OutOfMemory) => Err(Fault::OutOfMemory),
    }
}

/// The bodies of the items with these fields, or the first rule that is broken or limit that is passed.
fn bodies_in(
    alloc: Heap,
    facts: &ModuleFacts,
    list: &[Item],
    fields: &[u64],
) -> Result<BodyList, Fault>
    requires framed { IsFramed list.now fields.now }
    requires small { AreFew facts.now }
    ensures { BodiesAnswer result facts.now list.now fields.now }
{
    let mut reader = Reader {
        around: OpenBlocks::new(alloc),
        known: at_first(facts),
        ty: None,
        constants: List::new(alloc),
        lines: List::new(alloc),
        bodies: List::new(alloc),
    };
    for item in list {
        step(alloc, facts, &mut reader, *item, fields)?;
    }
    let Reader { bodies, .. } = reader;
    Ok(bodies)
}

/// The bodies of the module by number, or the first of the rules M7 to M11 that is broken or of the limits of a body that is passed, with its bit.
pub fn read_bodies(alloc: Heap, items: &Items, facts: &ModuleFacts) -> Result<BodyList, Fault>
    requires framed { IsFramed items.now.list items.now.fields }
    requires small { AreFew facts.now }
    ensures { BodiesAnswer result facts.now items.now.list items.now.fields }
{
    bodies_in(alloc, facts, items.list.as_slice(), items.fields.as_slice())
}
