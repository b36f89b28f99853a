ghost use Rattle.std.specs.Prelude.{◌≡◌, ◌<◌, ◌^◌, IfOk, length, []};
ghost use Rattle.std.specs.Option.{option_copied};
ghost use Rattle.profile_lines.specs.Setters.{AreSetters, IsNoted, setter_in};

use dx_base::OutOfMemory;
use llvm_bodies::Line;
use std::alloc::Global;

/// Notes the place of a line at the value that it gives.
fn note(table: &mut [Option<u32>], place: u32, line: &Line)
    ensures { IsNoted place line.now table.old table.new }
{
    let Some(value) = line.value else {
        return;
    };
    let value = value as usize;
    if value < table.len() {
        table[value] = Some(place);
    }
}

/// Notes each line, from the last to the first.
fn note_all(table: &mut [Option<u32>], lines: &[Line])
    requires none { AreSetters lines.now [] table.old }
    requires few { length lines.now < 2 ^ 32 }
    ensures all { AreSetters lines.now lines.now table.new }
    ensures same_length { length table.new ≡ length table.old }
{
    let mut left = lines.len();
    while left > 0 {
        left -= 1;
        note(table, left as u32, &lines[left]);
    }
}

/// The place of the line that gives each value, by the value's number.
pub fn setters_of(
    alloc: Global,
    lines: &[Line],
    values: u32,
) -> Result<Vec<Option<u32>>, OutOfMemory>
    requires { length lines.now < 2 ^ 32 }
    ensures all { IfOk result (λ table. AreSetters lines.now lines.now table.items) }
    ensures length { IfOk result (λ table. length table.items ≡ values) }
{
    let Ok(mut table) = vec![in alloc; None; values as usize] else {
        return Err(OutOfMemory);
    };
    note_all(table.as_mut_slice(), lines);
    Ok(table)
}

/// The line that gives a value, by the table of all values of a body.
#[tactic(auto, unfolding(crate::specs::Setters::setter_in))]
pub fn setter<'a>(lines: &'a [Line], table: &[Option<u32>], number: u32) -> Option<&'a Line>
    requires { AreSetters lines.now lines.now table.now }
    ensures { option_copied result ≡ setter_in lines.now (length table.now) number }
{
    match table.get(number as usize) {
        Some(Some(place)) => lines.get(*place as usize),
        Some(None) => None,
        None => None,
    }
}
