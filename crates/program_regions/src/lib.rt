//! The regions that a program is written by: nested ones, or one dispatch over all blocks.
#![tactic(auto)]

ghost use Rattle.std.specs.Prelude.{◌≤◌, ◌<◌, ◌⊎◌, ℕ, List, length, IfOk};
ghost use Rattle.dxil_form.specs.Sound.{Sound};
ghost use Rattle.region_leaves.specs.Leaves.{AreReachable};
ghost use Rattle.program_regions.specs.Chosen.{AreRegions};

use dispatch_loop::{all, finish};
use dx_base::OutOfMemory;
use dxil_form::{Program, Regions};
use region_builder::{build, start};
use region_leaves::reachable;
use std::alloc::Global;

/// The most blocks that are nested.
const MOST_NESTED: usize = 400;

/// The regions of a program of two to 400 reachable blocks, nested as far as its branch graph allows.
fn nested(alloc: Global, p: &Program) -> Result<Regions, OutOfMemory>
    requires sound { Sound p.now }
    requires several { (blocks : List ℕ) → AreReachable p.now blocks → 1 < length blocks }
    requires few { (blocks : List ℕ) → AreReachable p.now blocks → length blocks ≤ 400 }
    ensures { IfOk result (λ regions. AreRegions p.now regions.list) }
{
    let partial = start(alloc, p)?;
    let left = build(alloc, partial)?;
    finish(alloc, left)
}

/// The regions of a program of one reachable block, which are its leaf alone, or of more reachable blocks than are nested.
fn flat(alloc: Global, p: &Program) -> Result<Regions, OutOfMemory>
    requires sound { Sound p.now }
    requires count { (blocks : List ℕ) → AreReachable p.now blocks → (length blocks ≤ 1) ⊎ (400 < length blocks) }
    ensures { IfOk result (λ regions. AreRegions p.now regions.list) }
{
    all(alloc, p)
}

/// The regions of a program: the leaf alone where one block is reachable, nested as far as its branch graph allows where at most 400 are, and else one dispatch over all of them.
pub fn regions_of(alloc: Global, p: &Program) -> Result<Regions, OutOfMemory>
    requires { Sound p.now }
    ensures { IfOk result (λ regions. AreRegions p.now regions.list) }
{
    let blocks = reachable(alloc, p)?;
    if 1 < blocks.len() && blocks.len() <= MOST_NESTED {
        nested(alloc, p)
    } else {
        flat(alloc, p)
    }
}
