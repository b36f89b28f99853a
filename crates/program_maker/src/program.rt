ghost use Rattle.std.specs.Prelude.{◌≡◌, IfOk};
ghost use Rattle.dx_base.specs.First.{IsSound};
ghost use Rattle.profile_tables.specs.Read.{IsRead};
ghost use Rattle.profile_rules.specs.Rules.{Broken};
ghost use Rattle.stated_program.specs.Stated.{program_of as stated_by};

use crate::blocks::blocks_of;
use crate::marks::{rows_named, variables_named};
use crate::order::order_of;
use crate::ranks::ranks_of;
use crate::resources::resources_of;
use crate::variables::{arrays_of, shared_of};
use dx_base::OutOfMemory;
use dxil_form::Program;
use profile_tables::Scope;
use stated_lines::Placed;
use std::alloc::Global;

/// The program that the records of a body state, with these thread counts of a group.
///
/// The body is as the readers of a file give it, and breaks no rule and no limit of the profile.
///
/// # Errors
///
/// Want of memory.
pub fn program_of<'a>(
    alloc: Global,
    scope: &'a Scope<'a>,
    counts: [u32; 3],
) -> Result<Program, OutOfMemory>
    requires read { IsRead scope.now counts }
    requires sound { IsSound (Broken scope.now) }
    ensures { IfOk result (λ program. program ≡ stated_by scope.now counts) }
{
    let values = scope.values();
    prove!(scope.pool().globals().len() <= values as usize);
    let variables = variables_named(alloc, scope)?;
    let shared = shared_of(alloc, scope.pool(), variables.as_slice())?;
    let arrays = arrays_of(alloc, variables.as_slice())?;
    let rows = rows_named(alloc, scope)?;
    let order = order_of(alloc, scope.rows())?;
    let resources = resources_of(alloc, scope.rows(), rows.as_slice(), order.as_slice())?;
    let ranks = ranks_of(alloc, rows.as_slice(), order.as_slice())?;
    let placed = Placed::new(scope, ranks, arrays);
    let blocks = blocks_of(alloc, &placed, scope.lines())?;
    Ok(Program {
        local: counts,
        resources,
        shared,
        blocks,
    })
}
