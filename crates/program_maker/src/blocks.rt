ghost use Rattle.std.specs.Prelude.{◌≡◌, OnOk, IfOk, map, true, false, slice_get, Some as There};
ghost use Rattle.std.specs.List.{range_with_len};
ghost use Rattle.profile_tables.specs.Places.{place_named as named_by};
ghost use Rattle.stated_lines.specs.Places.{IsNarrow, IsInModule};
ghost use Rattle.stated_program.specs.Stated.{block_at, ends as ends_block};
ghost use Rattle.program_maker.specs.Blocks.{AreNumbered, AreFit, grown, closed, drafted};

use dx_base::{List, OutOfMemory};
use dxil_form::{Block, BlockList, InstrList, PhiList};
use llvm_bodies::Line;
use llvm_layout::code::{BR, PHI, RET, SWITCH, UNREACHABLE};
use stated_lines::{Placed, end_of, instruction, phi_at};
use std::alloc::Global;
use std::mem;

/// The blocks that are whole, and what the open one has so far.
#[derive(Drop)]
pub struct Draft {
    pub blocks: BlockList,
    pub phis: PhiList,
    pub instrs: InstrList,
}

fn ends(line: &Line) -> bool
    ensures { result ≡ ends_block line.now }
{
    match line.code as u64 {
        RET | BR | SWITCH | UNREACHABLE => true,
        _ => false,
    }
}

/// Adds a line that ends no block to the open one.
fn grow(alloc: Global, placed: &Placed, line: &Line, draft: &mut Draft) -> Result<(), OutOfMemory>
    requires narrow { IsNarrow placed.now line.now }
    requires inside { IsInModule placed.now (named_by placed.now line.now) }
    requires goes_on { ends_block line.now ≡ false }
    ensures { OnOk result (draft.new ≡ grown placed.now line.now draft.old) }
{
    if line.code as u64 == PHI {
        let phi = phi_at(alloc, placed, line)?;
        return match draft.phis.push(phi) {
            Ok(()) => Ok(()),
            Err(_) => Err(OutOfMemory),
        };
    }
    match draft.instrs.push(instruction(placed, line)) {
        Ok(()) => Ok(()),
        Err(_) => Err(OutOfMemory),
    }
}

/// Closes the open block with its terminator.
fn close(alloc: Global, placed: &Placed, line: &Line, draft: &mut Draft) -> Result<(), OutOfMemory>
    ensures { OnOk result (draft.new ≡ closed placed.now line.now draft.old) }
{
    let term = end_of(alloc, placed, line)?;
    let block = Block {
        phis: mem::replace(&mut draft.phis, List::new(alloc)),
        instrs: mem::replace(&mut draft.instrs, List::new(alloc)),
        term,
    };
    match draft.blocks.push(block) {
        Ok(()) => Ok(()),
        Err(_) => Err(OutOfMemory),
    }
}

/// Takes one line more.
fn draft_line(
    alloc: Global,
    placed: &Placed,
    line: &Line,
    draft: &mut Draft,
) -> Result<(), OutOfMemory>
    requires narrow { IsNarrow placed.now line.now }
    requires inside { IsInModule placed.now (named_by placed.now line.now) }
    ensures { OnOk result (draft.new ≡ drafted placed.now line.now draft.old) }
{
    if ends(line) {
        close(alloc, placed, line, draft)
    } else {
        grow(alloc, placed, line, draft)
    }
}

/// The blocks of a body by number.
pub fn blocks_of(alloc: Global, placed: &Placed, lines: &[Line]) -> Result<BlockList, OutOfMemory>
    requires same { lines.now ≡ placed.now.lines }
    requires numbered { AreNumbered placed.now }
    requires fit { AreFit placed.now }
    ensures { IfOk result (λ blocks. blocks ≡ map (block_at placed.now) (range_with_len 0 placed.now.blocks)) }
{
    let mut draft = Draft {
        blocks: List::new(alloc),
        phis: List::new(alloc),
        instrs: List::new(alloc),
    };
    for line in lines {
        draft_line(alloc, placed, line, &mut draft)?;
    }
    Ok(draft.blocks)
}
