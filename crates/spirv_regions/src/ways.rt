ghost use Rattle.std.specs.Prelude.{◌≡◌, ◌∷◌, ◌+◌, ◌≤◌, [], IfOk, OnOk, length, map, nat_eq};
ghost use Rattle.dxil_form.specs.Sound as sound;
ghost use Rattle.indexmap.specs.IndexMap.{get};
ghost use Rattle.spirv_code.specs.Leaves as leaves;
ghost use Rattle.spirv_code.specs.Leaves.{add_new};
ghost use Rattle.spirv_code.specs.Exits.{case_targets, loose, unarmed};
ghost use Rattle.spirv_regions.specs.Ways.{AreFewBlocks};

use dx_base::OutOfMemory;
use dxil_form::Term;
use indexmap::{IndexMap, IndexSet};
use spirv_code::Way;
use std::alloc::Global;

/// How many pairs one switch instruction takes.
pub const MOST_PAIRS: usize = 16_383;

/// Notes a block, unless it stands already.
#[tactic(auto, using(crate::proofs::Places::add_has))]
fn add(blocks: &mut IndexSet<u32>, k: u32) -> Result<(), OutOfMemory>
    ensures keys { OnOk result (blocks.new.keys ≡ add_new blocks.old.keys (k ∷ [])) }
    ensures few { OnOk result (length blocks.new.keys ≤ length blocks.old.keys + 1) }
{
    match blocks.insert(k) {
        Ok(_) => Ok(()),
        Err(_) => Err(OutOfMemory),
    }
}

/// Notes the blocks that cases go to.
fn add_cases(blocks: &mut IndexSet<u32>, cases: &[(u32, u32)]) -> Result<(), OutOfMemory>
    ensures keys { OnOk result (blocks.new.keys ≡ add_new blocks.old.keys (map (λ arm. arm.1) cases.now)) }
    ensures few { OnOk result (length blocks.new.keys ≤ length blocks.old.keys + length cases.now) }
{
    for arm in cases {
        add(blocks, arm.1)?;
    }
    Ok(())
}

/// The different blocks that cases go to, in the order of the cases.
pub fn case_blocks(alloc: Global, cases: &[(u32, u32)]) -> Result<IndexSet<u32>, OutOfMemory>
    ensures keys { IfOk result (λ blocks. blocks.keys ≡ case_targets cases.now) }
    ensures few { IfOk result (λ blocks. length blocks.keys ≤ length cases.now) }
{
    let mut blocks = IndexSet::new(alloc);
    add_cases(&mut blocks, cases)?;
    Ok(blocks)
}

/// How many cases a terminator has.
pub fn cases_in(term: &Term) -> usize
    ensures { result ≡ sound.cases_in term.now }
{
    match term {
        Term::Switch { cases, .. } => cases.len(),
        Term::Ret | Term::Unreachable | Term::Go(_) | Term::If { .. } => 0,
    }
}

/// The different blocks that a terminator may go to, in the order in which it names them.
pub fn next_blocks(alloc: Global, term: &Term) -> Result<IndexSet<u32>, OutOfMemory>
    ensures keys { IfOk result (λ blocks. blocks.keys ≡ leaves.next_blocks term.now) }
    ensures few { IfOk result (λ blocks. length blocks.keys ≤ sound.cases_in term.now + 2) }
{
    let mut blocks = IndexSet::new(alloc);
    match term {
        Term::Ret | Term::Unreachable => {}
        Term::Go(k) => add(&mut blocks, *k)?,
        Term::If { yes, no, .. } => {
            add(&mut blocks, *yes)?;
            add(&mut blocks, *no)?;
        }
        Term::Switch { default, cases, .. } => {
            add(&mut blocks, *default)?;
            add_cases(&mut blocks, cases.as_slice())?;
        }
    }
    Ok(blocks)
}

/// How a block is left that may go to these different blocks, by so many cases.
#[tactic(auto, using(crate::proofs::Places::no_way, crate::proofs::Places::one_way, crate::proofs::Places::many_ways))]
pub fn way_to(blocks: &[u32], cases: usize) -> Way
    requires { length blocks.now ≤ cases + 2 }
    ensures way { result ≡ leaves.way_to blocks.now cases }
    ensures few { AreFewBlocks result (length blocks.now) }
{
    match blocks {
        [] => Way::Ends,
        [k] => Way::Goes(*k),
        _ => {
            if cases > MOST_PAIRS {
                Way::Splits
            } else {
                Way::Chooses
            }
        }
    }
}

/// Notes a block that has no arm.
fn add_loose(
    loose: &mut IndexSet<u32>,
    labels: &IndexMap<u32, u32>,
    k: u32,
) -> Result<(), OutOfMemory>
    ensures keys { OnOk result (loose.new.keys ≡ add_new loose.old.keys (unarmed (get nat_eq labels.now) (k ∷ []))) }
    ensures few { OnOk result (length loose.new.keys ≤ length loose.old.keys + 1) }
{
    match labels.get(&k) {
        Some(_) => Ok(()),
        None => add(loose, k),
    }
}

/// Those of the blocks that have no arm, each once.
pub fn loose_blocks(
    alloc: Global,
    labels: &IndexMap<u32, u32>,
    blocks: &[u32],
) -> Result<IndexSet<u32>, OutOfMemory>
    ensures keys { IfOk result (λ found. found.keys ≡ loose (get nat_eq labels.now) blocks.now) }
    ensures few { IfOk result (λ found. length found.keys ≤ length blocks.now) }
{
    let mut loose = IndexSet::new(alloc);
    for k in blocks {
        add_loose(&mut loose, labels, *k)?;
    }
    Ok(loose)
}
