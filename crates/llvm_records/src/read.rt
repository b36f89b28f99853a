ghost use Rattle.std.specs.Prelude.{◌≡◌};
ghost use Rattle.bitstream_spelling.specs.Framed.{IsFramed};
ghost use Rattle.llvm_types.specs.Types.{types_of};
ghost use Rattle.llvm_values.specs.Values.{values_of};
ghost use Rattle.llvm_bodies.specs.Reading.{BodiesAnswer};
ghost use Rattle.llvm_records.specs.Reading.{RecordsAnswer, facts_in, first_told};

use crate::facts::facts_of;
use bitstream_spelling::Items;
use dx_base::{Fault, OutOfMemory};
use llvm_bodies::{BodyList, read_bodies};
use llvm_types::Types;
use llvm_values::{GlobalList, check_values, list_values};
use std::alloc::Global as Heap;

/// The values of a module by number, and its bodies in order.
#[derive(Debug, Drop)]
pub struct Records {
    pub globals: GlobalList,
    pub bodies: BodyList,
}

/// The bodies behind these values.
fn bodies_behind(
    alloc: Heap,
    items: &Items,
    types: &Types,
    globals: &GlobalList,
) -> Result<BodyList, Fault>
    requires framed { IsFramed items.now.list items.now.fields }
    requires types { types.now.list ≡ types_of items.now.list items.now.fields }
    requires globals { globals.now ≡ values_of items.now.list items.now.fields types.now.list }
    ensures { BodiesAnswer result (facts_in items.now.list items.now.fields) items.now.list items.now.fields }
{
    match facts_of(alloc, types, globals.as_slice()) {
        Ok(facts) => read_bodies(alloc, items, &facts),
        Err(OutOfMemory) => Err(Fault::OutOfMemory),
    }
}

/// Of a fault of the values and the answer on the bodies, the fault that comes first.
fn first_fault(values: Fault, bodies: Result<BodyList, Fault>) -> Fault
    ensures { result ≡ first_told values bodies }
{
    let Fault::Refused { bit, .. } = values else {
        return values;
    };
    match bodies {
        Ok(_) => values,
        Err(Fault::Refused { rule, bit: other }) if other < bit => Fault::Refused {
            rule,
            bit: other,
        },
        Err(Fault::Limit { which, bit: other }) if other < bit => Fault::Limit {
            which,
            bit: other,
        },
        Err(Fault::OutOfMemory) => Fault::OutOfMemory,
        Err(_) => values,
    }
}

/// The values and the bodies of the module, or the first of the rules M1 to M11 that is broken or of the limits of a body that is passed, with its bit. The types are those of the same items.
pub fn read_module_records(alloc: Heap, items: &Items, types: &Types) -> Result<Records, Fault>
    requires framed { IsFramed items.now.list items.now.fields }
    requires types { types.now.list ≡ types_of items.now.list items.now.fields }
    ensures { RecordsAnswer result items.now.list items.now.fields }
{
    let Ok(globals) = list_values(alloc, items, types) else {
        return Err(Fault::OutOfMemory);
    };
    let bodies = bodies_behind(alloc, items, types, &globals);
    match check_values(alloc, items, types) {
        Ok(()) => match bodies {
            Ok(bodies) => Ok(Records { globals, bodies }),
            Err(fault) => Err(fault),
        },
        Err(values) => Err(first_fault(values, bodies)),
    }
}
