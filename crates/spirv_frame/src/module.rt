ghost use Rattle.std.specs.Prelude.{◌≡◌, ◌++◌, ◌∷◌, ◌-◌, ◌≤◌, [], IfOk, OnOk, length, map};
ghost use Rattle.resource_map.specs.Pairs.{pair_of};
ghost use Rattle.spirv_code.specs.Frame as frames;
ghost use Rattle.spirv_code.specs.Frame.{bound_of, closing, module_of, opening, opening_label};
ghost use Rattle.spirv_code.specs.Trees.{AreEarlier, root_of};
ghost use Rattle.spirv_table.specs.Tables.{AreFew, plan_of};
ghost use Rattle.spirv_regions.specs.Small.{IsSmall};

use crate::declares::{declare_all, declare_slots};
use crate::decorates::decorate_all;
use crate::head::write_head;
use crate::names::name_all;
use dx_base::OutOfMemory;
use dxil_form::Region;
use resource_map::Binding;
use spirv_emit::{Code, Scene};
use spirv_regions::{Kind, begins_plainly, entry_label, label, onwards, row, tree_place};
use spirv_table::Tables;
use spv_form::{Module, Version, op};
use std::alloc::Global;

/// The place of the root, which is the last region.
fn root_place(list: &[Region]) -> u32
    requires { length list.now ≤ 0x0001_0000 }
    ensures place { result ≡ length list.now - 1 }
    ensures few { result ≤ 0x0001_0000 }
{
    list.len().saturating_sub(1) as u32
}

/// The label of the function's first block: the leaf at which the root begins, or a block that branches to the root.
fn first_label(list: &[Region]) -> u32
    requires few { length list.now ≤ 0x0001_0000 }
    requires earlier { AreEarlier list.now }
    ensures { result ≡ opening_label (root_of list.now) }
{
    let root = root_place(list);
    if begins_plainly(list, root) {
        entry_label(list, root)
    } else {
        label(tree_place(list, root), Kind::First)
    }
}

/// Begins the function, up to its first variable.
fn open_function(code: &mut Code, s: &Scene, list: &[Region]) -> Result<(), OutOfMemory>
    requires { IsSmall s.now list.now }
    ensures { OnOk result (code.new ≡ code.old ++ opening (plan_of s.now.tables.now) (root_of list.now)) }
{
    code.push(op::FUNCTION, &[2, 1, 0, 3])?;
    code.push(op::LABEL, &[first_label(list)])?;
    declare_slots(code, s)
}

/// Declares the type of the function.
fn declare_function(code: &mut Code) -> Result<(), OutOfMemory>
    ensures { OnOk result (code.new ≡ code.old ++ frames.function_types) }
{
    code.push(op::TYPE_VOID, &[2])?;
    code.push(op::TYPE_FUNCTION, &[3, 2])
}

/// Writes all before the code of the regions.
fn write_frame(
    alloc: Global,
    code: &mut Code,
    s: &Scene,
    list: &[Region],
    bindings: &[Binding],
    version: Version,
) -> Result<(), OutOfMemory>
    requires { IsSmall s.now list.now }
    ensures { OnOk result (code.new ≡ code.old ++ frames.frame s.now.program.now list.now (map pair_of bindings.now) version (plan_of s.now.tables.now)) }
{
    write_head(alloc, code, s, version)?;
    name_all(alloc, code, list)?;
    decorate_all(code, s, bindings)?;
    declare_function(code)?;
    declare_all(code, s)?;
    open_function(code, s, list)
}

/// Writes the code of the regions.
fn write_body(alloc: Global, code: &mut Code, s: &Scene, list: &[Region]) -> Result<(), OutOfMemory>
    requires { IsSmall s.now list.now }
    ensures { OnOk result (code.new ≡ code.old ++ frames.body_code s.now.program.now (plan_of s.now.tables.now) (root_of list.now) (length code.old)) }
{
    let root = root_place(list);
    if begins_plainly(list, root) {
        return row(alloc, code, s, list, root);
    }
    onwards(code, entry_label(list, root))?;
    row(alloc, code, s, list, root)
}

/// Returns, and ends the function.
fn close(code: &mut Code) -> Result<(), OutOfMemory>
    ensures { OnOk result (code.new ≡ code.old ++ closing) }
{
    code.push(op::RETURN, &[])?;
    code.push(op::FUNCTION_END, &[])
}

/// A number above all ids.
fn bound(tables: &Tables, count: u32) -> u32
    requires few { AreFew tables.now }
    requires count { count ≤ 0x4000_0000 }
    ensures { result ≡ bound_of (plan_of tables.now) count }
{
    if tables.regions == 1 && tables.slots.len() + tables.table.len() == 0 {
        5
    } else {
        tables.results_from() + count
    }
}

/// Writes the module of a program over its regions, with these bindings of its resources, in a version. The tables have what it declares.
pub fn write(
    alloc: Global,
    s: &Scene,
    list: &[Region],
    bindings: &[Binding],
    version: Version,
) -> Result<Module, OutOfMemory>
    requires { IsSmall s.now list.now }
    ensures { IfOk result (λ m. m ≡ module_of s.now.program.now list.now (map pair_of bindings.now) version (plan_of s.now.tables.now)) }
{
    let mut code = Code::new(alloc);
    write_frame(alloc, &mut code, s, list, bindings, version)?;
    write_body(alloc, &mut code, s, list)?;
    close(&mut code)?;
    let bound = bound(s.tables, code.len() as u32);
    Ok(Module {
        version,
        bound,
        insts: code.into_list(),
    })
}
