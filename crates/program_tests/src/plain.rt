//! Writes containers of one part, by bits.

ghost use Rattle.std.specs.Prelude.{◌≤◌};

use std::alloc::{AllocError, Global};

/// A record: its code and its fields.
pub type Row<'a> = (u64, &'a [u64]);

const TYPES: [Row<'static>; 5] = [(1, &[4]), (2, &[]), (21, &[0, 0]), (7, &[32]), (8, &[1, 0])];

/// The NAME `dx.shaderModel`.
pub const MODEL_NAME: Row<'static> = (
    4,
    &[
        100, 120, 46, 115, 104, 97, 100, 101, 114, 77, 111, 100, 101, 108,
    ],
);

/// The NAME `dx.entryPoints`.
pub const ROOT_NAME: Row<'static> = (
    4,
    &[
        100, 120, 46, 101, 110, 116, 114, 121, 80, 111, 105, 110, 116, 115,
    ],
);

const METADATA: [Row<'static>; 16] = [
    (1, &[99, 115]),
    (2, &[2, 1]),
    (2, &[2, 2]),
    (3, &[1, 2, 3]),
    (2, &[3, 0]),
    (1, &[109, 97, 105, 110]),
    (2, &[2, 3]),
    (2, &[2, 4]),
    (2, &[2, 5]),
    (3, &[8, 7, 9]),
    (3, &[7, 10]),
    (3, &[5, 6, 0, 0, 11]),
    MODEL_NAME,
    (10, &[3]),
    ROOT_NAME,
    (10, &[11]),
];

const BODY: [Row<'static>; 2] = [(1, &[1]), (10, &[])];

/// The records of the module, its version and its function.
const MODULE: [Row<'static>; 2] = [(1, &[1]), (8, &[1, 0, 0, 0])];

/// The record at a place of the block with an id is replaced by these. The module is block 8, and its places are its version and its function.
pub type Change<'a> = (u64, usize, &'a [Row<'a>]);

/// Bits in stream order.
#[derive(Drop)]
struct Bits {
    all: Vec<bool>,
}

impl Bits {
    fn new(alloc: Global) -> Self {
        Bits {
            all: Vec::new(alloc),
        }
    }

    fn fixed(&mut self, value: u64, width: u32) -> Result<(), AllocError>
        requires { width ≤ 64 }
    {
        for place in 0..width {
            self.all.push((value >> place) % 2 == 1)?;
        }
        Ok(())
    }

    /// A number in chunks, each but the last with its top bit set.
    fn chunks(&mut self, value: u64, width: u32) -> Result<(), AllocError>
        requires low { 2 ≤ width }
        requires high { width ≤ 32 }
    {
        let more = 1u64 << (width - 1);
        let mut rest = value;
        for _ in 0..64 {
            if rest < more {
                break;
            }
            self.fixed(rest % more + more, width)?;
            rest /= more;
        }
        self.fixed(rest, width)
    }

    fn align(&mut self) -> Result<(), AllocError> {
        for _ in 0..31 {
            if self.all.len() % 32 == 0 {
                break;
            }
            self.all.push(false)?;
        }
        Ok(())
    }

    fn record(&mut self, width: u32, row: Row) -> Result<(), AllocError>
        requires { width ≤ 32 }
    {
        let (code, fields) = row;
        self.fixed(3, width)?;
        self.chunks(code, 6)?;
        self.chunks(fields.len() as u64, 6)?;
        for field in fields {
            self.chunks(*field, 6)?;
        }
        Ok(())
    }

    /// A block of width 4 or, the module's, 3.
    fn block(&mut self, outer: u32, id: u64, width: u32, content: Bits) -> Result<(), AllocError>
        requires outer { outer ≤ 32 }
        requires width { width ≤ 32 }
    {
        let mut content = content;
        content.fixed(0, width)?;
        content.align()?;
        self.fixed(1, outer)?;
        self.chunks(id, 8)?;
        self.chunks(width as u64, 4)?;
        self.align()?;
        self.fixed(content.all.len() as u64 / 32, 32)?;
        for bit in &content.all {
            self.all.push(*bit)?;
        }
        Ok(())
    }

    /// The bytes of whole bytes of bits.
    fn bytes(&self, alloc: Global) -> Result<Vec<u8>, AllocError> {
        let mut bytes = Vec::new(alloc);
        for eight in self.all.as_slice().chunks(8) {
            let mut byte = 0u8;
            for bit in eight {
                byte = byte / 2 + if *bit { 128 } else { 0 };
            }
            bytes.push(byte)?;
        }
        Ok(bytes)
    }
}

fn rows(alloc: Global, rows: &[Row]) -> Result<Bits, AllocError> {
    let mut bits = Bits::new(alloc);
    for row in rows {
        bits.record(4, *row)?;
    }
    Ok(bits)
}

const CONSTANTS: [Row<'static>; 6] = [
    (1, &[2]),
    (4, &[12]),
    (4, &[0]),
    (4, &[8]),
    (4, &[16]),
    (4, &[2]),
];

/// Adds the record at a place of a block, or what it is replaced by.
fn push_row(
    bits: &mut Bits,
    width: u32,
    id: u64,
    place: usize,
    row: Row,
    changes: &[Change],
) -> Result<(), AllocError>
    requires { width ≤ 32 }
{
    for (changed, at, others) in changes {
        if *changed == id && *at == place {
            for other in *others {
                bits.record(width, *other)?;
            }
            return Ok(());
        }
    }
    bits.record(width, row)
}

/// The content of a block.
fn content(alloc: Global, id: u64, rows: &[Row], changes: &[Change]) -> Result<Bits, AllocError> {
    let mut bits = Bits::new(alloc);
    for (place, row) in rows.iter().enumerate() {
        push_row(&mut bits, 4, id, place, *row, changes)?;
    }
    Ok(bits)
}

/// The container of one part with this bitcode.
fn container(alloc: Global, bitcode: &Bits) -> Result<Vec<u8>, AllocError> {
    let size = bitcode.all.len() as u64 / 8;
    let mut bits = Bits::new(alloc);
    for number in [0x4342_5844, 0, 0, 0, 0, 1, size + 68, 1, 36] {
        bits.fixed(number, 32)?;
    }
    for number in [
        0x4C49_5844,
        size + 24,
        0x0005_0060,
        size / 4 + 6,
        0x4C49_5844,
        0x100,
        16,
        size,
    ] {
        bits.fixed(number, 32)?;
    }
    for bit in &bitcode.all {
        bits.all.push(*bit)?;
    }
    bits.bytes(alloc)
}

/// The bitcode of the empty shader with these constants, with these bodies before its own, and with some changes.
fn bitcode(
    alloc: Global,
    constants: Bits,
    bodies: &[&[Row]],
    changes: &[Change],
) -> Result<Bits, AllocError> {
    let [version, function] = MODULE;
    let mut module = Bits::new(alloc);
    push_row(&mut module, 3, 8, 0, version, changes)?;
    module.block(3, 17, 4, content(alloc, 17, &TYPES, changes)?)?;
    push_row(&mut module, 3, 8, 1, function, changes)?;
    module.block(3, 11, 4, constants)?;
    module.block(3, 15, 4, content(alloc, 15, &METADATA, changes)?)?;
    for body in bodies {
        module.block(3, 12, 4, rows(alloc, *body)?)?;
    }
    module.block(3, 12, 4, content(alloc, 12, &BODY, changes)?)?;
    let mut bitcode = Bits::new(alloc);
    bitcode.fixed(0xDEC0_4342, 32)?;
    bitcode.block(2, 8, 3, module)?;
    Ok(bitcode)
}

/// The container of the empty shader with some changes, and with these bodies before its own.
pub fn shader_behind(
    alloc: Global,
    bodies: &[&[Row]],
    changes: &[Change],
) -> Result<Vec<u8>, AllocError> {
    let constants = content(alloc, 11, &CONSTANTS, changes)?;
    container(alloc, &bitcode(alloc, constants, bodies, changes)?)
}

/// The container of the empty shader with some changes.
pub fn shader(alloc: Global, changes: &[Change]) -> Result<Vec<u8>, AllocError> {
    shader_behind(alloc, &[], changes)
}

/// The node of the thread counts names the sixth INTEGER as the second of them, by a further VALUE.
const COUNTS: [Change<'static>; 2] = [
    (15, 9, &[(3, &[8, 13, 9])]),
    (15, 15, &[(10, &[11]), (2, &[2, 6])]),
];

/// The container of the empty shader whose thread counts are INTEGER records with these fields. The second stands behind the others, since the third INTEGER is the tag of the counts too.
pub fn shader_of_threads(alloc: Global, threads: [u64; 3]) -> Result<Vec<u8>, AllocError> {
    let [x, y, z] = threads;
    let mut constants = rows(alloc, &CONSTANTS[..4])?;
    for field in [x, z, y] {
        constants.record(4, (4, &[field]))?;
    }
    container(alloc, &bitcode(alloc, constants, &[], &COUNTS)?)
}

/// A block 0 that gives to block 11 the abbreviation of a literal 4 and a number in chunks of 6 bits.
fn info(alloc: Global) -> Result<Bits, AllocError> {
    let mut bits = Bits::new(alloc);
    bits.record(3, (1, &[11]))?;
    bits.fixed(2, 3)?;
    bits.chunks(2, 5)?;
    bits.fixed(1, 1)?;
    bits.chunks(4, 8)?;
    bits.fixed(2 << 1, 4)?;
    bits.chunks(6, 5)?;
    Ok(bits)
}

/// The constants by that abbreviation.
fn constants_in_short(alloc: Global) -> Result<Bits, AllocError> {
    let mut bits = Bits::new(alloc);
    bits.record(4, (1, &[2]))?;
    for number in [12, 0, 8, 16, 2] {
        bits.fixed(4, 4)?;
        bits.chunks(number, 6)?;
    }
    Ok(bits)
}

/// The body, with the symbol table of one name, which is skipped.
fn body_with_names(alloc: Global) -> Result<Bits, AllocError> {
    let mut body = rows(alloc, &BODY)?;
    body.block(4, 14, 4, rows(alloc, &[(1, &[0, 97])])?)?;
    Ok(body)
}

fn module_among_others(alloc: Global) -> Result<Bits, AllocError> {
    let mut module = Bits::new(alloc);
    module.record(3, (1, &[1]))?;
    module.block(3, 0, 3, info(alloc)?)?;
    module.block(3, 17, 4, rows(alloc, &TYPES)?)?;
    module.block(3, 9, 4, rows(alloc, &TYPES)?)?;
    module.record(3, (8, &[1, 0, 0, 0]))?;
    module.block(3, 11, 4, constants_in_short(alloc)?)?;
    module.block(3, 15, 4, rows(alloc, &METADATA)?)?;
    module.block(3, 12, 4, body_with_names(alloc)?)?;
    Ok(module)
}

/// The container of the empty shader of 8, 4 and 1 threads, with skipped blocks and blocks 0 among its items, and its constants by an abbreviation.
pub fn shader_among_others(alloc: Global) -> Result<Vec<u8>, AllocError> {
    let mut bitcode = Bits::new(alloc);
    bitcode.fixed(0xDEC0_4342, 32)?;
    bitcode.block(2, 0, 4, rows(alloc, &[(2, &[8])])?)?;
    bitcode.block(2, 13, 5, rows(alloc, &BODY)?)?;
    bitcode.block(2, 8, 3, module_among_others(alloc)?)?;
    container(alloc, &bitcode)
}
