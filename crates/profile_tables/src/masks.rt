ghost use Rattle.std.specs.Prelude.{◌≡◌, ◌||◌, ◌==◌, IfOk, length, []};
ghost use Rattle.profile_tables.specs.Tables.{AreTaken, IsMarked};
ghost use Rattle.profile_tables.specs.Parts.{mask_in, bit_if as bit_where};

use dx_base::OutOfMemory;
use llvm_bodies::Line;
use llvm_layout::code::EXTRACTVAL;
use profile_lines::{operand, plain};
use std::alloc::Global;

/// The parts of a value that some line takes.
#[derive(Clone, Copy, Debug)]
pub struct Taken {
    pub x: bool,
    pub y: bool,
    pub z: bool,
    pub w: bool,
}

const NOTHING: Taken = Taken {
    x: false,
    y: false,
    z: false,
    w: false,
};

fn with_part(taken: Taken, part: u64) -> Taken
    ensures { result ≡ record { x = taken.x || part == 0; y = taken.y || part == 1; z = taken.z || part == 2; w = taken.w || part == 3 } }
{
    Taken {
        x: taken.x || part == 0,
        y: taken.y || part == 1,
        z: taken.z || part == 2,
        w: taken.w || part == 3,
    }
}

/// Marks the part that a line takes.
fn mark(table: &mut [Taken], line: &Line)
    ensures { IsMarked line.now table.old table.new }
{
    if line.code as u64 != EXTRACTVAL || line.plain.len() != 1 {
        return;
    }
    let value = operand(line, 0) as usize;
    if value < table.len() {
        let before = table[value];
        table[value] = with_part(before, plain(line, 0));
    }
}

fn mark_all(table: &mut [Taken], lines: &[Line])
    requires { AreTaken [] table.old }
    ensures all { AreTaken lines.now table.new }
    ensures same_length { length table.new ≡ length table.old }
{
    for line in lines {
        mark(table, line);
    }
}

/// The parts that the lines take of each value, by its number.
pub fn taken_by(alloc: Global, lines: &[Line], values: u32) -> Result<Vec<Taken>, OutOfMemory>
    ensures all { IfOk result (λ table. AreTaken lines.now table.items) }
    ensures length { IfOk result (λ table. length table.items ≡ values) }
{
    let Ok(mut table) = vec![in alloc; NOTHING; values as usize] else {
        return Err(OutOfMemory);
    };
    mark_all(table.as_mut_slice(), lines);
    Ok(table)
}

fn bit_if(holds: bool, bit: u8) -> u8
    ensures { result ≡ bit_where holds bit }
{
    if holds { bit } else { 0 }
}

/// The mask of some parts, whose bit 0 is part 0.
pub fn mask_of(taken: Taken) -> u8
    ensures { result ≡ mask_in taken }
{
    let x = bit_if(taken.x, 1);
    let y = bit_if(taken.y, 2);
    let z = bit_if(taken.z, 4);
    let w = bit_if(taken.w, 8);
    x + y + z + w
}
