ghost use Rattle.std.specs.Prelude.{◌≡◌, IfOk, map};
ghost use Rattle.dxil_form.specs.Sound.{Sound};
ghost use Rattle.spirv_meaning.specs.Bindings.{AreApart, plain_bindings};
ghost use Rattle.resource_map.specs.Pairs.{IsNumbered, pair_of};

use dx_base::{List, OutOfMemory};
use dxil_form::Program;
use spirv_meaning::{plain_binding, plain_bindings_fit};
use std::alloc::Global;

/// By which descriptor set and binding a module names a resource of the program.
#[derive(Clone, Copy, Debug, PartialEq, Eq)]
pub struct Binding {
    /// The place of the resource in the program's resources.
    pub resource: u32,
    pub set: u32,
    pub binding: u32,
}

/// Bindings, in the order of the program's resources.
pub type Bindings = List<Binding>;

/// The binding of each resource by the formula: the set is its register space, and the binding is three times its lower bound and the number of its class.
///
/// No two have the same set and binding.
pub fn map_resources(alloc: Global, p: &Program) -> Result<Bindings, OutOfMemory>
    requires { Sound p.now }
    ensures numbered { IfOk result IsNumbered }
    ensures plain { IfOk result (λ bindings. map pair_of bindings ≡ plain_bindings p.now) }
    ensures apart { IfOk result (λ bindings. AreApart p.now (map pair_of bindings)) }
{
    plain_bindings_fit(p);
    let mut bindings = List::new(alloc);
    for (resource, named) in p.resources.as_slice().iter().enumerate() {
        let (set, binding) = plain_binding(named);
        let kept = Binding {
            resource: resource as u32,
            set,
            binding,
        };
        if bindings.push(kept).is_err() {
            return Err(OutOfMemory);
        }
    }
    Ok(bindings)
}
