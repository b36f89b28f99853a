ghost use Rattle.std.specs.Prelude.{◌≡◌, ◌++◌, IfOk, OnOk, filter_map, option_map, option_to_list};
ghost use Rattle.std.specs.Option.{option_copied};
ghost use Rattle.stated_program.specs.Accesses.{resource_of as resource_by};
ghost use Rattle.program_maker.specs.Order as is;

use crate::order::Keyed;
use dx_base::{List, OutOfMemory};
use dxil_form::ResourceList;
use llvm_facts::Row;
use stated_lines::resource_of;
use std::alloc::Global;

/// The row at a place, where it is named.
fn named_row<'a>(rows: &'a [Row], named: &[bool], place: usize) -> Option<&'a Row>
    ensures { option_copied result ≡ is.named_row rows.now named.now place }
{
    if place < named.len() && named[place] {
        rows.get(place)
    } else {
        None
    }
}

fn add_row(resources: &mut ResourceList, row: Option<&Row>) -> Result<(), OutOfMemory>
    ensures { OnOk result (resources.new ≡ resources.old ++ option_to_list (option_map resource_by (option_copied row.entry))) }
{
    let Some(row) = row else {
        return Ok(());
    };
    match resources.push(resource_of(row)) {
        Ok(()) => Ok(()),
        Err(_) => Err(OutOfMemory),
    }
}

/// The resources of the named rows, in order.
pub fn resources_of(
    alloc: Global,
    rows: &[Row],
    named: &[bool],
    order: &[Keyed],
) -> Result<ResourceList, OutOfMemory>
    ensures { IfOk result (λ resources. resources ≡ filter_map (is.resource_in rows.now named.now) order.now) }
{
    let mut resources = List::new(alloc);
    for entry in order {
        add_row(&mut resources, named_row(rows, named, entry.1))?;
    }
    Ok(resources)
}
