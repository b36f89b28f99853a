ghost use Rattle.std.specs.Prelude.{◌≡◌, ◌+◌, ◌*◌, ◌≤◌, ◌<◌, ◌^◌, ◌↔◌, length, IsTrue, IsSome, codes, if◌then◌else◌, Some, true, slice_get, IfOk};
ghost use Rattle.dxbc_container.specs.Layout.{number as number_at, characters, size as size_of, count as count_of, data_size, bitcode_offset, bitcode_size, IsProgram, IsDxilVersion};
ghost use Rattle.dxbc_container.specs.Reading.{ContainerAnswer, HeaderAnswer, PartAnswer, PartsAnswer, TakeAnswer, TableAnswer, ShaderAnswer, IsFixedSound, AreParts, LiesIn, long_with as longer, earlier as earlier_of};

use crate::part::{Part, PartList, Parts};
use dx_base::{Fault, List, Rule};
use std::alloc::Global;

/// The name of the part that holds the shader, and the magic of its data.
const DXIL: [u8; 4] = *b"DXIL";

/// Where the data of the part named `DXIL` have its numbers, from the part's header on.
const PROGRAM_VERSION: u64 = 8;

const MAGIC: u64 = 16;

const DXIL_VERSION: u64 = 20;

const BITCODE_OFFSET: u64 = 24;

const BITCODE_SIZE: u64 = 28;

/// The container's size in bytes and the number of its parts.
#[derive(Clone, Copy)]
pub struct Header {
    size: u32,
    count: u32,
}

/// The parts that are read so far.
#[derive(Drop)]
pub struct Table {
    list: PartList,
    /// The index of the part named `DXIL`.
    dxil: Option<u32>,
    /// The least bit of a size field whose part passes the container.
    long: Option<u64>,
}

/// A broken rule and its place.
#[derive(Clone, Copy)]
pub struct Broken {
    rule: u8,
    bit: u64,
}

fn refused(rule: u8, bit: u64) -> Fault
    ensures { result ≡ Fault.Refused (Rule.C rule) bit }
{
    Fault::Refused {
        rule: Rule::C(rule),
        bit,
    }
}

/// The number of 32 bits in the four bytes from `at` on, the least significant first.
fn number(bytes: &[u8], at: u64) -> u32
    requires { at + 4 ≤ length bytes.now }
    ensures { result ≡ number_at bytes.now at }
{
    let first = at as usize;
    u32::from_le_bytes([
        bytes[first],
        bytes[first + 1],
        bytes[first + 2],
        bytes[first + 3],
    ])
}

/// The four characters from `at` on.
fn name_at(bytes: &[u8], at: u64) -> [u8; 4]
    requires { at + 4 ≤ length bytes.now }
    ensures { result ≡ characters bytes.now at }
{
    let first = at as usize;
    [
        bytes[first],
        bytes[first + 1],
        bytes[first + 2],
        bytes[first + 3],
    ]
}

/// Whether the container's magic stands at the first byte.
fn has_magic(bytes: &[u8]) -> bool
    requires { 4 ≤ length bytes.now }
    ensures { IsTrue result ↔ (characters bytes.now 0 ≡ codes "DXBC") }
{
    name_at(bytes, 0) == *b"DXBC"
}

fn is_dxil(name: [u8; 4]) -> bool
    ensures { IsTrue result ↔ (name ≡ codes "DXIL") }
{
    name == DXIL
}

/// Reads the fixed bytes, with the rules C1 to C3 and C4 for the whole table.
fn read_header(bytes: &[u8]) -> Result<Header, Fault>
    ensures { HeaderAnswer result bytes.now }
{
    if bytes.len() < 32 {
        return Err(refused(1, 0));
    }
    if !has_magic(bytes) {
        return Err(refused(1, 0));
    }
    if number(bytes, 20) != 1 {
        return Err(refused(2, 160));
    }
    let size = number(bytes, 24);
    if size < 32 {
        return Err(refused(3, 192));
    }
    if size as usize > bytes.len() {
        return Err(refused(3, 192));
    }
    let count = number(bytes, 28);
    if 32 + 4 * count as u64 > size as u64 {
        return Err(refused(4, 224));
    }
    Ok(Header { size, count })
}

/// Part `index`; None where its offset is at fault.
fn part_at(bytes: &[u8], of: Header, index: u32) -> Option<Part>
    requires fixed { IsFixedSound bytes.now }
    requires size { of.size ≡ size_of bytes.now }
    requires count { of.count ≡ count_of bytes.now }
    requires below { index < of.count }
    ensures { PartAnswer result bytes.now index }
{
    let at = number(bytes, 32 + 4 * index as u64) as u64;
    let table_end = 32 + 4 * of.count as u64;
    if at < table_end {
        return None;
    }
    if at + 8 > of.size as u64 {
        return None;
    }
    Some(Part {
        name: name_at(bytes, at),
        at,
        size: number(bytes, at + 4),
    })
}

/// Whether the part is named `DXIL`, and an earlier one is.
fn is_second(before: Option<u32>, named: bool) -> bool
    ensures { IsTrue result ↔ ((named ≡ true) × IsSome before) }
{
    named && before.is_some()
}

/// The index of the part named `DXIL`, with this one.
fn dxil_with(before: Option<u32>, index: u32, named: bool) -> Option<u32>
    ensures { result ≡ (if named then Some index else before) }
{
    if named { Some(index) } else { before }
}

/// The least bit of a size field whose part passes a container of this size, with this part.
fn long_with(before: Option<u64>, part: Part, size: u32) -> Option<u64>
    requires { part.at < 2 ^ 32 }
    ensures { result ≡ longer before part size }
{
    let bit = 8 * (part.at + 4);
    if part.at + 8 + part.size as u64 <= size as u64 {
        return before;
    }
    match before {
        Some(other) => Some(if other < bit { other } else { bit }),
        None => Some(bit),
    }
}

/// Takes part `index` behind those before it, with the rules C4 and C7 at its entry of the table.
fn take_part(table: &mut Table, bytes: &[u8], of: Header, index: u32) -> Result<(), Fault>
    requires fixed { IsFixedSound bytes.now }
    requires size { of.size ≡ size_of bytes.now }
    requires count { of.count ≡ count_of bytes.now }
    requires below { index < of.count }
    requires before { AreParts bytes.now index table.old }
    ensures { TakeAnswer result bytes.now index table.new }
{
    let bit = 8 * (32 + 4 * index as u64);
    let Some(part) = part_at(bytes, of, index) else {
        return Err(refused(4, bit));
    };
    let named = is_dxil(part.name);
    if is_second(table.dxil, named) {
        return Err(refused(7, bit));
    }
    table.dxil = dxil_with(table.dxil, index, named);
    table.long = long_with(table.long, part, of.size);
    if table.list.push(part).is_err() {
        return Err(Fault::OutOfMemory);
    }
    Ok(())
}

/// Reads the parts in the order of the offset table.
fn read_table(alloc: Global, bytes: &[u8], of: Header) -> Result<Table, Fault>
    requires fixed { IsFixedSound bytes.now }
    requires size { of.size ≡ size_of bytes.now }
    requires count { of.count ≡ count_of bytes.now }
    ensures { TableAnswer result bytes.now }
{
    let mut table = Table {
        list: List::new(alloc),
        dxil: None,
        long: None,
    };
    for index in 0..of.count {
        match take_part(&mut table, bytes, of, index) {
            Ok(()) => {}
            Err(fault) => return Err(fault),
        }
    }
    Ok(table)
}

/// Whether this is the version of a compute program of shader model 6.0, 6.1 or 6.2.
fn is_program(version: u32) -> bool
    ensures { IsTrue result ↔ IsProgram version }
{
    version >= 0x0005_0060 && version <= 0x0005_0062
}

/// Whether this is the number of DXIL 1.0, 1.1 or 1.2.
fn is_dxil_version(version: u32) -> bool
    ensures { IsTrue result ↔ IsDxilVersion version }
{
    version >= 0x100 && version <= 0x102
}

/// The first rule that the data of the DXIL part break; None also where they pass the container.
fn broken_shader(bytes: &[u8], of: Header, part: Part) -> Option<Broken>
    requires fixed { IsFixedSound bytes.now }
    requires size { of.size ≡ size_of bytes.now }
    requires at { part.at < 2 ^ 32 }
    requires data { part.size ≡ data_size bytes.now part.at }
    ensures { ShaderAnswer result bytes.now part.at }
{
    let at = part.at;
    if at + 8 + part.size as u64 > of.size as u64 {
        return None;
    }
    if part.size < 24 {
        return breaks_at(8, at + 4);
    }
    let program = number(bytes, at + PROGRAM_VERSION);
    if !is_program(program) {
        return breaks_at(8, at + PROGRAM_VERSION);
    }
    if !is_dxil(name_at(bytes, at + MAGIC)) {
        return breaks_at(8, at + MAGIC);
    }
    let dxil = number(bytes, at + DXIL_VERSION);
    if !is_dxil_version(dxil) {
        return breaks_at(8, at + DXIL_VERSION);
    }
    let offset = number(bytes, at + BITCODE_OFFSET) as u64;
    let size = number(bytes, at + BITCODE_SIZE) as u64;
    if 8 + offset + size > part.size as u64 {
        return breaks_at(9, at + BITCODE_OFFSET);
    }
    None
}

/// A broken rule at a byte.
fn breaks_at(rule: u8, at: u64) -> Option<Broken>
    requires { at < 2 ^ 33 }
    ensures { result ≡ Some (record { rule = rule; bit = 8 * at }) }
{
    Some(Broken { rule, bit: 8 * at })
}

/// The earlier of the least bit of C5 and of what the DXIL part breaks; at one bit it is C5.
fn earlier(long: Option<u64>, shader: Option<Broken>) -> Option<Broken>
    ensures { result ≡ earlier_of long shader }
{
    let Some(bit) = long else {
        return shader;
    };
    match shader {
        Some(found) if found.bit < bit => shader,
        _ => Some(Broken { rule: 5, bit }),
    }
}

/// A part of the list.
fn part_of(list: &PartList, index: u32) -> Part
    requires { index < length list.now }
    ensures { slice_get list.now index ≡ Some result }
{
    list.as_slice()[index as usize]
}

/// The first byte of the bitcode and the first behind it, for the DXIL part.
fn bitcode_of(bytes: &[u8], part: Part) -> (u64, u64)
    requires small { part.at < 2 ^ 32 }
    requires within { part.at + 32 ≤ length bytes.now }
    ensures from { result.0 ≡ part.at + 16 + bitcode_offset bytes.now part.at }
    ensures to { result.1 ≡ result.0 + bitcode_size bytes.now part.at }
{
    let from = part.at + MAGIC + number(bytes, part.at + BITCODE_OFFSET) as u64;
    let to = from + number(bytes, part.at + BITCODE_SIZE) as u64;
    (from, to)
}

/// The parts of the table and the place of the bitcode, with the rules C5, C6, C8 and C9.
fn parts_of(bytes: &[u8], of: Header, table: Table) -> Result<Parts, Fault>
    requires fixed { IsFixedSound bytes.now }
    requires size { of.size ≡ size_of bytes.now }
    requires count { of.count ≡ count_of bytes.now }
    requires parts { AreParts bytes.now (count_of bytes.now) table }
    ensures { PartsAnswer result bytes.now }
{
    let Table { list, dxil, long } = table;
    let Some(dxil) = dxil else {
        return Err(refused(6, 8 * (32 + 4 * of.count as u64)));
    };
    let part = part_of(&list, dxil);
    match earlier(long, broken_shader(bytes, of, part)) {
        Some(found) => Err(refused(found.rule, found.bit)),
        None => {
            let (from, to) = bitcode_of(bytes, part);
            Ok(Parts {
                list,
                dxil,
                from,
                to,
            })
        }
    }
}

/// The parts of a container, and where its bitcode stands.
///
/// The first broken rule of C1 to C9 is refused, by its bit, and at one bit by its number. The digest is not compared, and what stands behind the container is not read.
pub fn read_container(alloc: Global, bytes: &[u8]) -> Result<Parts, Fault>
    ensures parts { ContainerAnswer result bytes.now }
    ensures range { IfOk result (λ parts. LiesIn bytes.now parts) }
{
    let of = match read_header(bytes) {
        Ok(of) => of,
        Err(fault) => return Err(fault),
    };
    match read_table(alloc, bytes, of) {
        Ok(table) => parts_of(bytes, of, table),
        Err(fault) => Err(fault),
    }
}
