//! Writes containers of one part, by bits.

ghost use Rattle.std.specs.Prelude.{◌≤◌};

use crate::shader::{BODY, CONSTANTS, GLOBALS, METADATA, SYMBOLS, TYPES};
use std::alloc::{AllocError, Global};

/// A record: its code and its fields.
pub type Row<'a> = (u64, &'a [u64]);

/// The record at a place of the block with an id is replaced by these. Those of the module, block 8, are its variables and functions.
pub type Change<'a> = (u64, usize, &'a [Row<'a>]);

/// The records of a module's blocks; `globals` are those of the module itself.
#[derive(Clone, Copy)]
pub struct Tables<'a> {
    pub types: &'a [Row<'a>],
    pub globals: &'a [Row<'a>],
    pub constants: &'a [Row<'a>],
    pub metadata: &'a [Row<'a>],
    pub symbols: &'a [Row<'a>],
    pub body: &'a [Row<'a>],
}

/// Bits in stream order.
#[derive(Drop)]
pub(crate) struct Bits {
    all: Vec<bool>,
}

impl Bits {
    pub(crate) fn new(alloc: Global) -> Self {
        Bits {
            all: Vec::new(alloc),
        }
    }

    pub(crate) fn fixed(&mut self, value: u64, width: u32) -> Result<(), AllocError>
        requires { width ≤ 64 }
    {
        for place in 0..width {
            self.all.push((value >> place) % 2 == 1)?;
        }
        Ok(())
    }

    /// A number in chunks, each but the last with its top bit set.
    pub(crate) fn chunks(&mut self, value: u64, width: u32) -> Result<(), AllocError>
        requires low { 2 ≤ width }
        requires high { width ≤ 32 }
    {
        let more = 1u64 << (width - 1);
        let mut rest = value;
        for _ in 0..64 {
            if rest < more {
                break;
            }
            self.fixed(rest % more + more, width)?;
            rest /= more;
        }
        self.fixed(rest, width)
    }

    fn align(&mut self) -> Result<(), AllocError> {
        for _ in 0..31 {
            if self.all.len() % 32 == 0 {
                break;
            }
            self.all.push(false)?;
        }
        Ok(())
    }

    pub(crate) fn record(&mut self, width: u32, row: Row) -> Result<(), AllocError>
        requires { width ≤ 32 }
    {
        let (code, fields) = row;
        self.fixed(3, width)?;
        self.chunks(code, 6)?;
        self.chunks(fields.len() as u64, 6)?;
        for field in fields {
            self.chunks(*field, 6)?;
        }
        Ok(())
    }

    /// Adds a block.
    pub(crate) fn block(
        &mut self,
        outer: u32,
        id: u64,
        width: u32,
        content: Bits,
    ) -> Result<(), AllocError>
        requires outer { outer ≤ 32 }
        requires width { width ≤ 32 }
    {
        let mut content = content;
        content.fixed(0, width)?;
        content.align()?;
        self.fixed(1, outer)?;
        self.chunks(id, 8)?;
        self.chunks(width as u64, 4)?;
        self.align()?;
        self.fixed(content.all.len() as u64 / 32, 32)?;
        for bit in &content.all {
            self.all.push(*bit)?;
        }
        Ok(())
    }

    /// The bytes of whole bytes of bits.
    fn bytes(&self, alloc: Global) -> Result<Vec<u8>, AllocError> {
        let mut bytes = Vec::new(alloc);
        for eight in self.all.as_slice().chunks(8) {
            let mut byte = 0u8;
            for bit in eight {
                byte = byte / 2 + if *bit { 128 } else { 0 };
            }
            bytes.push(byte)?;
        }
        Ok(bytes)
    }
}

/// Adds the record at a place of a block, or what it is replaced by.
fn push_row(
    bits: &mut Bits,
    width: u32,
    id: u64,
    place: usize,
    row: Row,
    changes: &[Change],
) -> Result<(), AllocError>
    requires { width ≤ 32 }
{
    for (changed, at, others) in changes {
        if *changed == id && *at == place {
            for other in *others {
                bits.record(width, *other)?;
            }
            return Ok(());
        }
    }
    bits.record(width, row)
}

/// The content of a block.
pub(crate) fn content(
    alloc: Global,
    id: u64,
    rows: &[Row],
    changes: &[Change],
) -> Result<Bits, AllocError> {
    let mut bits = Bits::new(alloc);
    for (place, row) in rows.iter().enumerate() {
        push_row(&mut bits, 4, id, place, *row, changes)?;
    }
    Ok(bits)
}

/// The file of one part with this bitcode.
pub(crate) fn file(alloc: Global, bitcode: &Bits) -> Result<Vec<u8>, AllocError> {
    let size = bitcode.all.len() as u64 / 8;
    let mut bits = Bits::new(alloc);
    for number in [0x4342_5844, 0, 0, 0, 0, 1, size + 68, 1, 36] {
        bits.fixed(number, 32)?;
    }
    for number in [
        0x4C49_5844,
        size + 24,
        0x0005_0060,
        size / 4 + 6,
        0x4C49_5844,
        0x100,
        16,
        size,
    ] {
        bits.fixed(number, 32)?;
    }
    for bit in &bitcode.all {
        bits.all.push(*bit)?;
    }
    bits.bytes(alloc)
}

/// The bitcode of a shader with some changes.
fn bitcode(alloc: Global, tables: &Tables, changes: &[Change]) -> Result<Bits, AllocError> {
    let mut module = Bits::new(alloc);
    module.record(4, (1, &[1]))?;
    module.block(4, 17, 4, content(alloc, 17, tables.types, changes)?)?;
    for (place, row) in tables.globals.iter().enumerate() {
        push_row(&mut module, 4, 8, place, *row, changes)?;
    }
    module.block(4, 11, 4, content(alloc, 11, tables.constants, changes)?)?;
    module.block(4, 15, 4, content(alloc, 15, tables.metadata, changes)?)?;
    module.block(4, 14, 4, content(alloc, 14, tables.symbols, changes)?)?;
    module.block(4, 12, 4, content(alloc, 12, tables.body, changes)?)?;
    let mut bitcode = Bits::new(alloc);
    bitcode.fixed(0xDEC0_4342, 32)?;
    bitcode.block(2, 8, 4, module)?;
    Ok(bitcode)
}

/// The container of a shader with some changes.
pub fn container_of(
    alloc: Global,
    tables: &Tables,
    changes: &[Change],
) -> Result<Vec<u8>, AllocError> {
    file(alloc, &bitcode(alloc, tables, changes)?)
}

/// The container of the shader of `shader.rt` with some changes.
pub fn container(alloc: Global, changes: &[Change]) -> Result<Vec<u8>, AllocError> {
    let tables = Tables {
        types: &TYPES,
        globals: &GLOBALS,
        constants: &CONSTANTS,
        metadata: &METADATA,
        symbols: &SYMBOLS,
        body: &BODY,
    };
    container_of(alloc, &tables, changes)
}
