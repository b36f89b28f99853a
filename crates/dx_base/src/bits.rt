ghost use Rattle.std.specs.Prelude.{◌≡◌, ◌+◌, ◌-◌, ◌*◌, ◌/◌, ◌%◌, ◌^◌, ◌<◌, ◌≤◌, length, slice_index, get_or, ℕ};
ghost use Rattle.dx_base.specs.Bits.{num, char6};
ghost use Rattle.dx_base.specs.Cursor.{ChunksAnswer, IsValue};

use std::marker::Model;

/// What the read of a variable bit rate number gives.
#[derive(Clone, Copy, Debug, PartialEq, Eq)]
pub enum Vbr {
    /// The number, which is below 2^64.
    Value(u64),
    /// The end stands before the last chunk ends.
    End,
    /// The number is 2^64 or more.
    Wide,
}

/// A place in the bits of a byte slice, between a start and an end.
#[derive(Drop)]
pub struct BitCursor<'a> {
    bytes: &'a [u8],
    start: u64,
    place: u64,
    end: u64,
}

impl<'a> Model for BitCursor<'a> {
    ghost use Rattle.std.specs.Prelude.{◌≡◌, ◌≤◌, ◌%◌, ◌*◌, length};
    ghost use Rattle.dx_base.specs.Cursor.{Cursor};

    ghost Value = { Cursor };

    ghost view = { λ s. record { bytes = s.bytes.now; start = s.start; place = s.place; end = s.end } };

    ghost invariant = { λ s. (s.start % 8 ≡ 0) × (s.start ≤ s.place) × (s.place ≤ s.end) × (s.end ≤ 8 * length s.bytes.now) };
}

fn byte_or_zero(bytes: &[u8], at: usize) -> u8
    ensures { result ≡ get_or bytes.now at 0 }
{
    if at < bytes.len() { bytes[at] } else { 0 }
}

/// The 64 bits from a byte on; the bits past the end are 0.
fn word_at(bytes: &[u8], at: usize) -> u64
    requires { at + 8 < 2 ^ 64 }
    ensures { result ≡ num bytes.now (at * 8) 64 }
{
    if bytes.len() >= at + 8 {
        u64::from_le_bytes([
            bytes[at],
            bytes[at + 1],
            bytes[at + 2],
            bytes[at + 3],
            bytes[at + 4],
            bytes[at + 5],
            bytes[at + 6],
            bytes[at + 7],
        ])
    } else {
        u64::from_le_bytes([
            byte_or_zero(bytes, at),
            byte_or_zero(bytes, at + 1),
            byte_or_zero(bytes, at + 2),
            byte_or_zero(bytes, at + 3),
            byte_or_zero(bytes, at + 4),
            byte_or_zero(bytes, at + 5),
            byte_or_zero(bytes, at + 6),
            byte_or_zero(bytes, at + 7),
        ])
    }
}

/// The number of the 64 bits from a bit on; the bits past the end are 0.
fn long_at(bytes: &[u8], at: u64) -> u64
    ensures { result ≡ num bytes.now at 64 }
{
    let byte = (at / 8) as usize;
    let shift = (at % 8) as u32;
    let low = word_at(bytes, byte) >> shift;
    if shift == 0 {
        return low;
    }
    let next = u64::from(byte_or_zero(bytes, byte + 8)) % (1u64 << shift);
    low + (next << (64 - shift))
}

/// The number of `width` bits from a bit on.
#[tactic(auto, using(crate::proofs::BitLaws::num_below))]
fn bits_at(bytes: &[u8], at: u64, width: u32) -> u64
    requires { width ≤ 64 }
    ensures value { result ≡ num bytes.now at width }
    ensures below { result < 2 ^ width }
{
    let all = long_at(bytes, at);
    if width == 64 {
        all
    } else {
        all % (1u64 << width)
    }
}

impl<'a> BitCursor<'a> {
    ghost use Rattle.std.specs.Prelude.{◌≡◌, ◌≤◌, ◌<◌, ◌^◌, ◌%◌, ◌*◌, ◌+◌, length, IfSome};
    ghost use Rattle.dx_base.specs.Cursor.{moved, aligned, FixedAnswer, VbrAnswer, Char6Answer, AlignAnswer, ForwardAnswer, PassAnswer};

    /// A cursor at `from`, over the bits up to `to`.
    pub fn new(bytes: &'a [u8], from: u64, to: u64) -> BitCursor<'a>
        requires byte { from % 8 ≡ 0 }
        requires order { from ≤ to }
        requires within { to ≤ 8 * length bytes.now }
        ensures { result ≡ record { bytes = bytes.now; start = from; place = from; end = to } }
    {
        BitCursor {
            bytes,
            start: from,
            place: from,
            end: to,
        }
    }

    /// The place, in bits of the whole slice.
    pub fn at(&self) -> u64
        ensures { result ≡ self.now.place }
    {
        self.place
    }

    /// The number of the next `width` bits; where fewer are left, None, and the cursor stays.
    pub fn fixed(&mut self, width: u32) -> Option<u64>
        requires { width ≤ 64 }
        ensures answer { FixedAnswer result self.old self.new width }
        ensures below { IfSome result (λ n. n < 2 ^ width) }
    {
        if u64::from(width) > self.end - self.place {
            return None;
        }
        let value = bits_at(self.bytes, self.place, width);
        self.place += u64::from(width);
        Some(value)
    }

    /// The number that stands in chunks of `width` bits; where it ends past the end or is wide, the cursor stays.
    pub fn vbr(&mut self, width: u32) -> Vbr
        requires low { 2 ≤ width }
        requires high { width ≤ 32 }
        ensures { VbrAnswer result self.old self.new width }
    {
        match chunks_at(self.bytes, self.place, self.end, width) {
            Chunks::Value(value, after) => {
                self.place = after;
                Vbr::Value(value)
            }
            Chunks::End => Vbr::End,
            Chunks::Wide(_) => Vbr::Wide,
        }
    }

    /// The character of the next 6 bits, of `a-z A-Z 0-9 . _`; where fewer are left, None, and the cursor stays.
    pub fn char6(&mut self) -> Option<u8>
        ensures { Char6Answer result self.old self.new }
    {
        let Some(code) = self.fixed(6) else {
            return None;
        };
        Some(char6_of(code))
    }

    /// Moves behind a number in chunks, whatever its value; where it ends past the end, None, and the cursor stays.
    pub fn pass(&mut self, width: u32) -> Option<()>
        requires low { 2 ≤ width }
        requires high { width ≤ 32 }
        ensures { PassAnswer result self.old self.new width }
    {
        match chunks_at(self.bytes, self.place, self.end, width) {
            Chunks::Value(_, after) => {
                self.place = after;
                Some(())
            }
            Chunks::Wide(after) => {
                self.place = after;
                Some(())
            }
            Chunks::End => None,
        }
    }

    /// Moves to the least multiple of 32 bits from the start that is not before the place.
    pub fn align(&mut self) -> Option<()>
        ensures { AlignAnswer result self.old self.new }
    {
        let gap = (self.place - self.start) % 32;
        let step = if gap == 0 { 0 } else { 32 - gap };
        if step > self.end - self.place {
            return None;
        }
        self.place += step;
        Some(())
    }

    /// Moves forward by so many bits in one step; where fewer are left, None, and the cursor stays.
    pub fn forward(&mut self, bits: u64) -> Option<()>
        ensures { ForwardAnswer result self.old self.new bits }
    {
        if bits > self.end - self.place {
            return None;
        }
        self.place += bits;
        Some(())
    }
}

/// The character with a number below 64.
fn char6_of(code: u64) -> u8
    requires { code < 64 }
    ensures { result ≡ char6 code }
{
    if code < 26 {
        code as u8 + b'a'
    } else if code < 52 {
        code as u8 - 26 + b'A'
    } else if code < 62 {
        code as u8 - 52 + b'0'
    } else if code == 62 {
        b'.'
    } else {
        b'_'
    }
}

/// What the chunks of a number give, with the bit after them.
#[derive(Clone, Copy)]
enum Chunks {
    Value(u64, u64),
    End,
    Wide(u64),
}

/// The number in chunks of `width` bits from a bit on, if they end before `end`.
fn chunks_at(bytes: &[u8], from: u64, end: u64, width: u32) -> Chunks
    requires low { 2 ≤ width }
    requires high { width ≤ 32 }
    requires order { from ≤ end }
    ensures { ChunksAnswer result bytes.now from end width }
{
    let step = width as u64;
    let mut at = from;
    let mut shift = 0u64;
    let mut value = Some(0u64);
    while end - at >= step {
        let chunk = bits_at(bytes, at, width);
        let low = chunk % (1u64 << (width - 1));
        value = add_low(value, low, shift);
        at += step;
        if chunk == low {
            return match value {
                Some(found) => Chunks::Value(found, at),
                None => Chunks::Wide(at),
            };
        }
        shift += step - 1;
    }
    Chunks::End
}

/// The value with `low` times 2 to the power `shift` added; None is a value of 2 to the power 64 or more.
fn add_low(value: Option<u64>, low: u64, shift: u64) -> Option<u64>
    ensures { (n : ℕ) → IsValue value n → IsValue result (n + low * 2 ^ shift) }
{
    let sum = value?;
    if low == 0 {
        return value;
    }
    if shift >= 64 || low > u64::MAX >> shift {
        return None;
    }
    sum.checked_add(low << shift)
}
