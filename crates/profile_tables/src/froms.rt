ghost use Rattle.std.specs.Prelude.{◌≡◌, OnOk, IfOk, length, true, []};
ghost use Rattle.profile_tables.specs.Tables.{AreFroms, IsAdded, AreAdded, IsLed, has};

use crate::pairs::cases_of;
use dx_base::{List, Numbers, OutOfMemory};
use llvm_bodies::Line;
use llvm_layout::code::{BR, SWITCH};
use profile_lines::operand;
use std::alloc::Global;

/// Whether a list ends with a number.
fn ends_with(numbers: &Numbers, number: u32) -> bool
    ensures { result ≡ true → has numbers.now number ≡ true }
{
    match numbers.as_slice().last() {
        Some(last) => *last == number,
        None => false,
    }
}

/// Adds a block before another one, once for each line.
fn add(table: &mut [Numbers], block: u32, from: u32) -> Result<(), OutOfMemory>
    ensures { OnOk result (IsAdded block from table.old table.new) }
{
    let block = block as usize;
    if block >= table.len() {
        return Ok(());
    }
    if ends_with(&table[block], from) {
        return Ok(());
    }
    match table[block].push(from) {
        Ok(()) => Ok(()),
        Err(_) => Err(OutOfMemory),
    }
}

/// Adds a block before the blocks of some pairs.
fn add_all(table: &mut [Numbers], pairs: &[(u32, u32)], from: u32) -> Result<(), OutOfMemory>
    ensures { OnOk result (AreAdded pairs.now from table.old table.new) }
{
    for pair in pairs {
        add(table, pair.1, from)?;
    }
    Ok(())
}

/// Adds the block of a line before each of its targets.
fn lead(alloc: Global, table: &mut [Numbers], line: &Line) -> Result<(), OutOfMemory>
    ensures { OnOk result (IsLed line.now table.old table.new) }
{
    match line.code as u64 {
        BR => {
            add(table, operand(line, 0), line.block)?;
            if line.numbers.len() == 1 {
                return Ok(());
            }
            add(table, operand(line, 1), line.block)
        }
        SWITCH => {
            add(table, operand(line, 1), line.block)?;
            let cases = cases_of(alloc, line)?;
            add_all(table, cases.as_slice(), line.block)
        }
        _ => Ok(()),
    }
}

fn lead_all(alloc: Global, table: &mut [Numbers], lines: &[Line]) -> Result<(), OutOfMemory>
    requires { AreFroms [] table.old }
    ensures all { OnOk result (AreFroms lines.now table.new) }
    ensures same_length { OnOk result (length table.new ≡ length table.old) }
{
    for line in lines {
        lead(alloc, table, line)?;
    }
    Ok(())
}

/// So many empty lists.
fn empty_lists(alloc: Global, count: u32) -> Result<Vec<Numbers>, OutOfMemory>
    ensures none { IfOk result (λ table. AreFroms [] table.items) }
    ensures length { IfOk result (λ table. length table.items ≡ count) }
{
    let mut table = Vec::new(alloc);
    for _ in 0..count {
        if table.push(List::new(alloc)).is_err() {
            return Err(OutOfMemory);
        }
    }
    Ok(table)
}

/// The blocks that lead to each block, by its number.
pub fn froms_of(alloc: Global, lines: &[Line], blocks: u32) -> Result<Vec<Numbers>, OutOfMemory>
    ensures all { IfOk result (λ table. AreFroms lines.now table.items) }
    ensures length { IfOk result (λ table. length table.items ≡ blocks) }
{
    let mut table = empty_lists(alloc, blocks)?;
    lead_all(alloc, table.as_mut_slice(), lines)?;
    Ok(table)
}
