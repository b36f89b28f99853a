//! Lists of numbers in which long stretches are equal.

ghost use Rattle.std.specs.Prelude.{◌≡◌, ◌<◌, ◌^◌, ◌↔◌, length, slice_index, nat_le, IfOk, IsTrue};
ghost use Rattle.flow_scans.specs.Runs.{Begins};

use dx_base::OutOfMemory;
use std::alloc::Global;
use std::marker::Model;

/// Equal numbers from a place on, to where the next run begins.
#[derive(Clone, Copy, Debug)]
pub struct Run {
    first: u32,
    number: u32,
}

const _: () = prove!(size_of::<Run>() == 8);

/// A list of numbers, kept as the runs of equal ones. Contracts see the numbers.
#[derive(Debug, Drop)]
pub struct Runs {
    runs: Vec<Run>,
    count: usize,
}

impl Model for Runs {
    ghost use Rattle.std.specs.Prelude.{ℕ, List};
    ghost use Rattle.flow_scans.specs.Runs.{numbers_of, AreRuns};

    ghost Value = { List ℕ };

    ghost view = { λ r. numbers_of r.runs.items r.count };

    ghost invariant = { λ r. AreRuns r.runs.items r.count };
}

/// Tells whether a run begins at the place.
fn begins(numbers: &[u32], place: usize) -> bool
    requires { place < length numbers.now }
    ensures { IsTrue result ↔ Begins numbers.now place }
{
    place == 0 || numbers[place - 1] != numbers[place]
}

fn run_count(numbers: &[u32]) -> usize {
    let mut count = 0;
    for place in 0..numbers.len() {
        if begins(numbers, place) {
            count += 1;
        }
    }
    count
}

impl Runs {
    /// Keeps these numbers.
    pub fn of(alloc: Global, numbers: &[u32]) -> Result<Runs, OutOfMemory>
        requires { length numbers.now < 2 ^ 32 }
        ensures { IfOk result (λ runs. runs ≡ numbers.now) }
    {
        let mut runs = match Vec::with_capacity(alloc, run_count(numbers)) {
            Ok(runs) => runs,
            Err(_) => return Err(OutOfMemory),
        };
        for place in 0..numbers.len() {
            if begins(numbers, place) {
                let run = Run {
                    first: place as u32,
                    number: numbers[place],
                };
                if runs.push(run).is_err() {
                    return Err(OutOfMemory);
                }
            }
        }
        Ok(Runs {
            runs,
            count: numbers.len(),
        })
    }

    /// How many numbers there are.
    pub fn len(&self) -> usize
        ensures { result ≡ length self.now }
    {
        self.count
    }

    /// The number at a place.
    pub fn at(&self, place: usize) -> u32
        requires { place < length self.now }
        ensures { result ≡ slice_index self.now place }
    {
        let begun = self.runs.as_slice().partition_point(
            |run: &Run| -> bool
                ensures { result ≡ nat_le run.now.first place }
            { run.first as usize <= place },
        );
        self.runs[begun - 1].number
    }
}
