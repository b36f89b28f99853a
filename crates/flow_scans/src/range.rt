//! The greatest number of a range, by the greatest numbers of aligned chunks of 16, 256, 4096 and so on.

ghost use Rattle.std.specs.Prelude.{◌≡◌, ◌+◌, ◌<◌, ◌≤◌, ◌^◌, ◌↔◌, length, IfOk, IsTrue};
ghost use Rattle.flow_scans.specs.Ranges.{IsMost, AreMaxima, AreLevels, Exceeds};

use dx_base::OutOfMemory;
use std::alloc::Global;
use std::marker::Model;

/// How many entries one of the next level stands for.
const FAN: usize = 16;

/// The greatest numbers of the aligned chunks of one width.
#[derive(Debug, Drop)]
pub struct Level {
    width: usize,
    maxima: Vec<u32>,
}

/// The greatest number of as many numbers.
#[derive(Clone, Copy)]
struct Chunk {
    width: usize,
    most: u32,
}

/// Numbers of which it can be told whether one in a range is above a bound. Contracts see the numbers.
#[derive(Debug, Drop)]
pub struct RangeMax {
    values: Vec<u32>,
    levels: Vec<Level>,
}

impl Model for RangeMax {
    ghost use Rattle.std.specs.Prelude.{ℕ, List};
    ghost use Rattle.flow_scans.specs.Ranges.{AreLevels};

    ghost Value = { List ℕ };

    ghost view = { λ r. r.values.items };

    ghost invariant = { λ r. AreLevels r.values.items r.levels.items };
}

fn greatest(numbers: &[u32]) -> u32
    requires { 0 < length numbers.now }
    ensures { IsMost numbers.now 0 (length numbers.now) result }
{
    let mut most = numbers[0];
    for number in numbers {
        if most < *number {
            most = *number;
        }
    }
    most
}

/// The greatest numbers of the chunks of 16 that lie whole within the numbers.
fn chunk_maxima(alloc: Global, numbers: &[u32]) -> Result<Vec<u32>, OutOfMemory>
    ensures { IfOk result (λ maxima. AreMaxima numbers.now 16 maxima.items) }
{
    let count = numbers.len() / FAN;
    let mut maxima = match Vec::with_capacity(alloc, count) {
        Ok(maxima) => maxima,
        Err(_) => return Err(OutOfMemory),
    };
    for i in 0..count {
        let most = greatest(&numbers[i * FAN..i * FAN + FAN]);
        if maxima.push(most).is_err() {
            return Err(OutOfMemory);
        }
    }
    Ok(maxima)
}

/// The widest chunk that begins at the place and ends by `to`.
fn chunk_at(values: &[u32], levels: &[Level], place: usize, to: usize) -> Chunk
    requires levels { AreLevels values.now levels.now }
    requires some { place < to }
    requires within { to ≤ length values.now }
    ensures most { IsMost values.now place result.width result.most }
    ensures fits { place + result.width ≤ to }
    ensures some { 0 < result.width }
{
    let mut chunk = Chunk {
        width: 1,
        most: values[place],
    };
    for level in levels {
        if place % level.width != 0 || level.width > to - place {
            break;
        }
        chunk = Chunk {
            width: level.width,
            most: level.maxima[place / level.width],
        };
    }
    chunk
}

impl RangeMax {
    /// Makes the table of these numbers.
    pub fn new(alloc: Global, values: Vec<u32>) -> Result<RangeMax, OutOfMemory>
        requires { length values.items < 2 ^ 32 }
        ensures { IfOk result (λ r. r ≡ values.items) }
    {
        let mut levels = Vec::new(alloc);
        let mut width = FAN;
        let mut maxima = chunk_maxima(alloc, values.as_slice())?;
        while !maxima.is_empty() {
            let wider = chunk_maxima(alloc, maxima.as_slice())?;
            if levels.push(Level { width, maxima }).is_err() {
                return Err(OutOfMemory);
            }
            width *= FAN;
            maxima = wider;
        }
        Ok(RangeMax { values, levels })
    }

    /// Tells whether a number in the range `from..to` is above the bound.
    pub fn exceeds(&self, from: usize, to: usize, bound: u32) -> bool
        requires { to ≤ length self.now }
        ensures { IsTrue result ↔ Exceeds self.now from to bound }
    {
        let mut place = from;
        while place < to {
            let chunk = chunk_at(&self.values, &self.levels, place, to);
            if chunk.most > bound {
                return true;
            }
            place += chunk.width;
        }
        false
    }
}
