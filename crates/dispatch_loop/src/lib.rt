//! The last step over regions: one dispatch where several roots are left.
#![tactic(auto)]

ghost use Rattle.std.specs.Prelude.{◌≡◌, map, IfOk};
ghost use Rattle.dxil_form.specs.declared.program.Program.{Program};
ghost use Rattle.dxil_form.specs.Sound.{Sound};
ghost use Rattle.dxil_form.specs.Wired.{Wired};
ghost use Rattle.region_laws.specs.Roots.{closed};
ghost use Rattle.region_laws.specs.Paths.{PassesAll};
ghost use Rattle.region_builder.specs.Started.{IsPartial};
ghost use Rattle.dispatch_loop.specs.Whole.{IsOneDispatch};

use dx_base::{Cases, List, Numbers, OutOfMemory};
use dxil_form::{Program, Region, RegionList, Regions};
use region_builder::Partial;
use region_leaves::{leaf_roots, leaves, reachable};
use std::alloc::Global;

/// The places of the roots.
fn places(alloc: Global, roots: &[(u32, u32)]) -> Result<Numbers, OutOfMemory>
    ensures { IfOk result (λ arms. arms ≡ map (λ root. root.1) roots.now) }
{
    let mut arms: Numbers = List::new(alloc);
    for root in roots {
        if arms.push(root.1).is_err() {
            return Err(OutOfMemory);
        }
    }
    Ok(arms)
}

/// Puts one dispatch over the roots behind all regions, where there are several.
fn close(alloc: Global, mut list: RegionList, roots: &Cases) -> Result<Regions, OutOfMemory>
    ensures { IfOk result (λ regions. regions.list ≡ closed list roots.now) }
{
    if roots.len() > 1 {
        let arms = places(alloc, roots.as_slice())?;
        if list.push(Region::Dispatch { arms }).is_err() {
            return Err(OutOfMemory);
        }
    }
    Ok(Regions { list })
}

/// One dispatch over a leaf for each reachable block, or the leaf alone where only one is reachable.
pub fn all(alloc: Global, p: &Program) -> Result<Regions, OutOfMemory>
    requires { Sound p.now }
    ensures exact { IfOk result (λ regions. IsOneDispatch p.now regions.list) }
    ensures wired { IfOk result (λ regions. Wired p.now regions.list) }
    ensures passes { IfOk result (λ regions. PassesAll p.now regions.list) }
{
    let blocks = reachable(alloc, p)?;
    let list = leaves(alloc, blocks.as_slice())?;
    let roots = leaf_roots(alloc, blocks.as_slice())?;
    close(alloc, list, &roots)
}

/// Puts one dispatch over the roots that are left, where there are several, behind all regions.
pub fn finish(alloc: Global, partial: Partial) -> Result<Regions, OutOfMemory>
    requires { (p : Program) × IsPartial p partial }
    ensures exact { IfOk result (λ regions. regions.list ≡ closed partial.list partial.roots) }
    ensures wired { IfOk result (λ regions. (p : Program) → IsPartial p partial → Wired p regions.list) }
    ensures passes { IfOk result (λ regions. (p : Program) → IsPartial p partial → PassesAll p regions.list) }
{
    close(alloc, partial.list, &partial.roots)
}
