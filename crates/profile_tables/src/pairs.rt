ghost use Rattle.std.specs.Prelude.{◌≡◌, IfOk, drop};
ghost use Rattle.profile_tables.specs.Parts as is;

use dx_base::{Cases, List, OutOfMemory};
use llvm_bodies::Line;
use std::alloc::Global;

/// The numbers two by two.
fn pairs_of(alloc: Global, numbers: &[u32]) -> Result<Cases, OutOfMemory>
    ensures { IfOk result (λ pairs. pairs ≡ is.pairs_of numbers.now) }
{
    let mut pairs = List::new(alloc);
    let mut rest = numbers;
    while let [first, second, ..] = rest {
        if pairs.push((*first, *second)).is_err() {
            return Err(OutOfMemory);
        }
        rest = &rest[2..];
    }
    Ok(pairs)
}

/// The values of a PHI, each with its block.
pub fn entries_of(alloc: Global, line: &Line) -> Result<Cases, OutOfMemory>
    ensures { IfOk result (λ pairs. pairs ≡ is.entries_of line.now) }
{
    pairs_of(alloc, line.numbers.as_slice())
}

/// The cases of a SWITCH, each with its block.
pub fn cases_of(alloc: Global, line: &Line) -> Result<Cases, OutOfMemory>
    ensures { IfOk result (λ pairs. pairs ≡ is.cases_of line.now) }
{
    let numbers = line.numbers.as_slice();
    let cases = if numbers.len() < 2 {
        &[]
    } else {
        &numbers[2..]
    };
    pairs_of(alloc, cases)
}
