ghost use Rattle.std.specs.Prelude.{◌≡◌, ◌≤◌, ◌^◌};
ghost use Rattle.spirv_meaning.specs.Bindings as bindings;

use dxil_form::{Class, Resource};

/// The set and the binding of a resource by the formula: its register space, and three times its lower bound and the number of its class.
pub fn plain_binding(resource: &Resource) -> (u32, u32)
    requires { resource.now.lower ≤ 2 ^ 30 }
    ensures { result ≡ bindings.plain_binding resource.now }
{
    (
        resource.space,
        3 * resource.lower + class_number(resource.class),
    )
}

/// The class in the number of a binding.
fn class_number(class: Class) -> u32
    ensures { result ≡ bindings.class_number class }
{
    match class {
        Class::Srv => 0,
        Class::Uav => 1,
        Class::Cbv => 2,
    }
}
