//! Regions of programs of few blocks.

ghost use Rattle.std.specs.Prelude.{◌≤◌, length, IfOk};
ghost use Rattle.dxil_form.specs.Sound.{Sound};
ghost use Rattle.dxil_form.specs.Wired.{Wired};
ghost use Rattle.region_laws.specs.Paths.{PassesAll};

use dispatch_loop::finish;
use dx_base::OutOfMemory;
use dxil_form::{Program, Regions};
use region_builder::{build, start};
use std::alloc::Global;

/// The regions of a program of at most 400 blocks, nested as far as its graph allows.
pub fn nested(alloc: Global, p: &Program) -> Result<Regions, OutOfMemory>
    requires sound { Sound p.now }
    requires few { length p.now.blocks ≤ 400 }
    ensures wired { IfOk result (λ regions. Wired p.now regions.list) }
    ensures passes { IfOk result (λ regions. PassesAll p.now regions.list) }
{
    let partial = start(alloc, p)?;
    let left = build(alloc, partial)?;
    finish(alloc, left)
}
