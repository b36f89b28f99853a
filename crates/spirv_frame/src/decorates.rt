ghost use Rattle.std.specs.Prelude.{◌≡◌, ◌++◌, map, slice_get, OnOk};
ghost use Rattle.resource_map.specs.Pairs.{pair_of};
ghost use Rattle.spirv_code.specs.Frame.{binding_of, decorations, decorations_of, read_only_of, set_of};
ghost use Rattle.spirv_code.specs.Keys as keys;
ghost use Rattle.spirv_code.specs.Plans.{table_from};
ghost use Rattle.spirv_code.specs.declared.key.Global.TheVariants.{Buffer};
ghost use Rattle.spirv_table.specs.Tables.{AreFew, plan_of};

use dx_base::OutOfMemory;
use dxil_form::{Class, Program};
use resource_map::Binding;
use spirv_code::{BuiltIn, Global, Sort, is_rowed};
use spirv_emit::{Code, Scene};
use spv_form::op;

/// The number of a built-in.
fn built_in_number(number: BuiltIn) -> u32
    ensures { result ≡ keys.built_in_number number }
{
    match number {
        BuiltIn::WorkgroupId => 26,
        BuiltIn::LocalInvocationId => 27,
        BuiltIn::GlobalInvocationId => 28,
        BuiltIn::LocalInvocationIndex => 29,
    }
}

/// The set and the binding of a resource; zeros where there is none.
fn place_of(bindings: &[Binding], r: u32) -> (u32, u32)
    ensures set { result.0 ≡ set_of (slice_get (map pair_of bindings.now) r) }
    ensures binding { result.1 ≡ binding_of (slice_get (map pair_of bindings.now) r) }
{
    match bindings.get(r as usize) {
        Some(binding) => (binding.set, binding.binding),
        None => (0, 0),
    }
}

/// Says of the variable of a read-only resource that it is so.
fn decorate_class(code: &mut Code, p: &Program, id: u32, r: u32) -> Result<(), OutOfMemory>
    ensures { OnOk result (code.new ≡ code.old ++ read_only_of id (slice_get p.now.resources r)) }
{
    match p.resources.get(r as usize) {
        Some(resource) => match resource.class {
            Class::Srv => code.push(op::DECORATE, &[id, 24]),
            Class::Uav | Class::Cbv => Ok(()),
        },
        None => Ok(()),
    }
}

/// Writes the decorations of the variable over a resource.
fn decorate_buffer(
    code: &mut Code,
    p: &Program,
    bindings: &[Binding],
    id: u32,
    r: u32,
) -> Result<(), OutOfMemory>
    ensures { OnOk result (code.new ≡ code.old ++ decorations_of p.now (map pair_of bindings.now) id (Buffer r)) }
{
    let (set, binding) = place_of(bindings, r);
    code.push(op::DECORATE, &[id, 34, set])?;
    code.push(op::DECORATE, &[id, 33, binding])?;
    decorate_class(code, p, id, r)
}

/// Writes the decorations of a key.
fn decorate(
    code: &mut Code,
    p: &Program,
    bindings: &[Binding],
    id: u32,
    key: Global,
) -> Result<(), OutOfMemory>
    ensures { OnOk result (code.new ≡ code.old ++ decorations_of p.now (map pair_of bindings.now) id key) }
{
    match key {
        Global::Plain(Sort::Words(r)) => {
            let stride = if is_rowed(p, r) { 16 } else { 4 };
            code.push(op::DECORATE, &[id, 6, stride])
        }
        Global::Plain(Sort::Block(_)) => {
            code.push(op::DECORATE, &[id, 2])?;
            code.push(op::MEMBER_DECORATE, &[id, 0, 35, 0])
        }
        Global::Buffer(r) => decorate_buffer(code, p, bindings, id, r),
        Global::Input(number) => code.push(op::DECORATE, &[id, 11, built_in_number(number)]),
        Global::Plain(Sort::Int | Sort::Bool | Sort::Triple | Sort::Row | Sort::Array(_))
        | Global::Pointer { .. }
        | Global::Number(_)
        | Global::Truth(_)
        | Global::Shared(_) => Ok(()),
    }
}

/// Writes the decorations of the keys of the table, in its order.
#[tactic(auto, using(crate::proofs::Numbered::decorations_next))]
pub fn decorate_all(code: &mut Code, s: &Scene, bindings: &[Binding]) -> Result<(), OutOfMemory>
    requires { AreFew s.now.tables.now }
    ensures { OnOk result (code.new ≡ code.old ++ decorations s.now.program.now (map pair_of bindings.now) (table_from (plan_of s.now.tables.now)) s.now.tables.now.table.keys) }
{
    let from = s.tables.table_from();
    for (i, key) in s.tables.table.as_slice().iter().enumerate() {
        decorate(code, s.program, bindings, from + i as u32, *key)?;
    }
    Ok(())
}
