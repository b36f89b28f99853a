//! Programs of blocks without instructions.

ghost use Rattle.std.specs.Prelude.{◌≡◌, ◌↔◌, ◌<◌, ◌≤◌, ◌^◌, length, ◌++◌, ◌∷◌, [], IfOk, OnOk, IsTrue};
ghost use Rattle.std.specs.Option.{IfSome};
ghost use Rattle.dxil_form.specs.Sound.{Sound, cases_in, cases_of};
ghost use Rattle.plain_programs.specs.Plain.{AreTargets, AreNumbered, IsPlainTerm, IsPlain, ArePlain};

use dx_base::{Cases, List, OutOfMemory};
use dxil_form::{Block, BlockList, Operand, Program, Term};
use std::alloc::Global;

/// The most targets of all blocks of a program together.
const MOST_TARGETS: usize = 65_536;

/// Tells whether a number is that of a block other than block 0.
fn is_target(count: u32, target: u32) -> bool
    ensures { IsTrue result ↔ ((1 ≤ target) × (target < count)) }
{
    target > 0 && target < count
}

/// Tells whether each number is that of a block other than block 0.
fn are_targets(count: u32, targets: &[u32]) -> bool
    ensures { IsTrue result → AreTargets count targets.now }
{
    for target in targets {
        if !is_target(count, *target) {
            return false;
        }
    }
    true
}

/// Adds a case.
fn add_case(cases: &mut Cases, value: u32, target: u32) -> Result<(), OutOfMemory>
    ensures { OnOk result (cases.new ≡ cases.old ++ (value, target) ∷ []) }
{
    if cases.push((value, target)).is_err() {
        return Err(OutOfMemory);
    }
    Ok(())
}

/// The numbers from 0 on, each with one of the targets.
fn numbered(alloc: Global, targets: &[u32]) -> Result<Cases, OutOfMemory>
    requires { length targets.now < 2 ^ 32 }
    ensures { IfOk result (λ cases. AreNumbered targets.now (length targets.now) cases) }
{
    let mut cases: Cases = List::new(alloc);
    for i in 0..targets.len() {
        add_case(&mut cases, i as u32, targets[i])?;
    }
    Ok(cases)
}

/// A terminator that may go to exactly these blocks: a return, a branch to one, a conditional branch to two, or a switch.
fn plain_term(alloc: Global, count: u32, targets: &[u32]) -> Result<Term, OutOfMemory>
    requires targets { AreTargets count targets.now }
    requires few { length targets.now ≤ MOST_TARGETS }
    ensures plain { IfOk result (λ term. IsPlainTerm count term) }
    ensures cases { IfOk result (λ term. cases_in term ≤ length targets.now) }
{
    if targets.is_empty() {
        return Ok(Term::Ret);
    }
    let default = targets[0];
    if targets.len() == 1 {
        return Ok(Term::Go(default));
    }
    if targets.len() == 2 {
        return Ok(Term::If {
            cond: Operand::Bool(false),
            yes: default,
            no: targets[1],
        });
    }
    let cases = numbered(alloc, targets)?;
    Ok(Term::Switch {
        value: Operand::Int(0),
        default,
        cases,
    })
}

/// A block that may go to exactly these blocks.
fn plain_block(alloc: Global, count: u32, targets: &[u32]) -> Result<Block, OutOfMemory>
    requires targets { AreTargets count targets.now }
    requires few { length targets.now ≤ MOST_TARGETS }
    ensures plain { IfOk result (λ block. IsPlain count block) }
    ensures cases { IfOk result (λ block. cases_in block.term ≤ length targets.now) }
{
    let term = plain_term(alloc, count, targets)?;
    Ok(Block {
        phis: List::new(alloc),
        instrs: List::new(alloc),
        term,
    })
}

/// Adds a block.
fn add_block(blocks: &mut BlockList, block: Block) -> Result<(), OutOfMemory>
    ensures { OnOk result (blocks.new ≡ blocks.old ++ block ∷ []) }
{
    if blocks.push(block).is_err() {
        return Err(OutOfMemory);
    }
    Ok(())
}

/// The blocks that may go to exactly the targets that are listed for each; None where some target is no block, or block 0, or there are too many targets.
fn plain_blocks(
    alloc: Global,
    count: u32,
    targets: &[Vec<u32>],
) -> Result<Option<BlockList>, OutOfMemory>
    requires count { count ≡ length targets.now }
    ensures plain { IfOk result (λ blocks. IfSome blocks (λ list. ArePlain count list)) }
    ensures len { IfOk result (λ blocks. IfSome blocks (λ list. length list ≡ count)) }
    ensures few { IfOk result (λ blocks. IfSome blocks (λ list. cases_of list ≤ MOST_TARGETS)) }
{
    let mut blocks: BlockList = List::new(alloc);
    let mut left = MOST_TARGETS;
    for i in 0..targets.len() {
        let list = targets[i].as_slice();
        if list.len() > left || !are_targets(count, list) {
            return Ok(None);
        }
        left -= list.len();
        let block = plain_block(alloc, count, list)?;
        add_block(&mut blocks, block)?;
    }
    Ok(Some(blocks))
}

/// A program of blocks without instructions, each of which may go to exactly the targets that are listed for it.
///
/// None comes where there is no block or more than 8,192, where some target is no block or is block 0, and where there are more than 65,536 targets in all.
pub fn plain_program(alloc: Global, targets: &[Vec<u32>]) -> Result<Option<Program>, OutOfMemory>
    ensures sound { IfOk result (λ program. IfSome program (λ p. Sound p)) }
    ensures len { IfOk result (λ program. IfSome program (λ p. length p.blocks ≡ length targets.now)) }
{
    if targets.is_empty() || targets.len() > 8192 {
        return Ok(None);
    }
    let count = targets.len() as u32;
    let blocks = match plain_blocks(alloc, count, targets)? {
        None => return Ok(None),
        Some(blocks) => blocks,
    };
    Ok(Some(Program {
        local: [1, 1, 1],
        resources: List::new(alloc),
        shared: List::new(alloc),
        blocks,
    }))
}
