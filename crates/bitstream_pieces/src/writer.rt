//! A writer of small bitstreams, and the items of what it writes.

ghost use Rattle.std.specs.Prelude.{◌≤◌, IfOk};
ghost use Rattle.bitstream_spelling.specs.Framed.{IsFramed};

use bitstream_spelling::Items;
use dx_base::Fault;
use dx_bitstream::read_items;
use std::alloc::{AllocError, Global};

/// A piece of a bitstream; every block but the top has abbreviation ids of three bits.
#[derive(Clone, Copy)]
pub enum Piece {
    Enter(u64),
    Record(u64, &'static [u64]),
    /// A record whose last fields come so many times.
    Long(u64, &'static [u64], &'static [u64], usize),
    /// So many records without fields.
    Many(u64, usize),
    /// A definition of an abbreviation.
    Define,
    End,
}

use Piece::{Define, End, Enter, Long, Many, Record};

/// The whole bytes of a bitstream, the bits behind them, and where the content of each open block begins.
#[derive(Drop)]
struct Writer {
    bytes: Vec<u8>,
    rest: u64,
    weight: u64,
    contents: Vec<usize>,
}

impl Writer {
    fn fixed(&mut self, value: u64, width: u32) -> Result<(), AllocError>
        requires { width ≤ 32 }
    {
        self.rest = self.rest.wrapping_add(value.wrapping_mul(self.weight));
        self.weight = self.weight.wrapping_mul(1 << width);
        for _ in 0..8 {
            if self.weight < 256 {
                return Ok(());
            }
            self.bytes.push((self.rest % 256) as u8)?;
            self.rest /= 256;
            self.weight /= 256;
        }
        Ok(())
    }

    fn number(&mut self, value: u64) -> Result<(), AllocError> {
        let mut rest = value;
        for _ in 0..13 {
            if rest < 32 {
                return self.fixed(rest, 6);
            }
            self.fixed(rest % 32 + 32, 6)?;
            rest /= 32;
        }
        Ok(())
    }

    fn align(&mut self) -> Result<(), AllocError> {
        if self.weight > 1 {
            self.bytes.push((self.rest % 256) as u8)?;
            self.rest = 0;
            self.weight = 1;
        }
        for _ in 0..3 {
            if self.bytes.len() % 4 > 0 {
                self.bytes.push(0)?;
            }
        }
        Ok(())
    }

    fn enter(&mut self, id: u64) -> Result<(), AllocError> {
        let width = if self.contents.is_empty() { 2 } else { 3 };
        self.fixed(1, width)?;
        self.fixed(id, 8)?;
        self.fixed(3, 4)?;
        self.align()?;
        self.fixed(0, 32)?;
        self.contents.push(self.bytes.len())?;
        Ok(())
    }

    fn record(&mut self, code: u64, fields: &[u64]) -> Result<(), AllocError> {
        self.long_record(code, fields, &[], 0)
    }

    fn long_record(
        &mut self,
        code: u64,
        head: &[u64],
        again: &[u64],
        times: usize,
    ) -> Result<(), AllocError> {
        self.fixed(3, 3)?;
        self.number(code)?;
        self.number(
            (head.len() as u64).saturating_add((again.len() as u64).saturating_mul(times as u64)),
        )?;
        for field in head {
            self.number(*field)?;
        }
        for _ in 0..times {
            for field in again {
                self.number(*field)?;
            }
        }
        Ok(())
    }

    fn define(&mut self) -> Result<(), AllocError> {
        self.fixed(2, 3)?;
        self.fixed(1, 5)?;
        self.fixed(1, 9)
    }

    fn end(&mut self) -> Result<(), AllocError> {
        self.fixed(0, 3)?;
        self.align()?;
        let content = self.contents.pop().unwrap_or(0);
        let words = (self.bytes.len().saturating_sub(content) / 4 % (1 << 32)) as u32;
        for (place, byte) in words.to_le_bytes().iter().enumerate() {
            let at = content.saturating_sub(4).saturating_add(place);
            if let Some(old) = self.bytes.get_mut(at) {
                *old = *byte;
            }
        }
        Ok(())
    }
}

fn bitstream(alloc: Global, pieces: &[Piece]) -> Result<Vec<u8>, AllocError> {
    let mut writer = Writer {
        bytes: Vec::new(alloc),
        rest: 0,
        weight: 1,
        contents: Vec::new(alloc),
    };
    writer.fixed(0xDEC0_4342, 32)?;
    for piece in pieces {
        match *piece {
            Enter(id) => writer.enter(id)?,
            Record(code, fields) => writer.record(code, fields)?,
            Long(code, head, again, times) => writer.long_record(code, head, again, times)?,
            Many(code, times) => {
                for _ in 0..times {
                    writer.record(code, &[])?;
                }
            }
            Define => writer.define()?,
            End => writer.end()?,
        }
    }
    Ok(writer.bytes)
}

/// The items of the bitstream of these pieces.
pub fn items_of(alloc: Global, pieces: &[Piece]) -> Result<Items, Fault>
    ensures { IfOk result (λ items. IsFramed items.list items.fields) }
{
    match bitstream(alloc, pieces) {
        Ok(bytes) => items_in(alloc, bytes.as_slice()),
        Err(_) => Err(Fault::OutOfMemory),
    }
}

/// The items that the first 10,000,000 of these bytes spell.
pub fn items_in(alloc: Global, bytes: &[u8]) -> Result<Items, Fault>
    ensures { IfOk result (λ items. IsFramed items.list items.fields) }
{
    let end = bytes.len().min(10_000_000);
    read_items(alloc, bytes, 0, end as u64)
}
