ghost use Rattle.std.specs.Prelude.{◌≡◌};
ghost use Rattle.bitstream_spelling.specs.Framed.{IsFramed};
ghost use Rattle.dx_base.specs.First.{IsSound};
ghost use Rattle.llvm_types.specs.Types.{types_of};
ghost use Rattle.llvm_types.specs.Rules.{Broken as BreaksTypes};
ghost use Rattle.llvm_values.specs.Values.{values_of};
ghost use Rattle.llvm_records.specs.Reading.{Broken as BreaksRecords};
ghost use Rattle.llvm_shader.specs.Shader.{ShaderAnswer, FactsStand};

use bitstream_spelling::Items;
use dx_base::Fault;
use llvm_metadata::{Facts, read_metadata, shader_facts};
use llvm_records::{Records, read_module_records};
use llvm_types::{Types, read_types};
use std::alloc::Global;

/// What a module states of a compute shader.
#[derive(Debug, Drop)]
pub struct Shader {
    pub types: Types,
    pub records: Records,
    pub facts: Facts,
}

/// The facts that the metadata of a module with these types and records state.
fn facts_of(alloc: Global, items: &Items, types: &Types, records: &Records) -> Result<Facts, Fault>
    requires framed { IsFramed items.now.list items.now.fields }
    requires types { types.now.list ≡ types_of items.now.list items.now.fields }
    requires globals { records.now.globals ≡ values_of items.now.list items.now.fields types.now.list }
    requires sound_types { IsSound (BreaksTypes items.now.list items.now.fields) }
    requires sound_records { IsSound (BreaksRecords items.now.list items.now.fields) }
    ensures { FactsStand items.now.list items.now.fields result }
{
    match read_metadata(alloc, items, types, records) {
        Ok(meta) => shader_facts(alloc, &meta, types, records),
        Err(fault) => Err(fault),
    }
}

/// The shader that the items of a module state.
///
/// # Errors
///
/// The first refusal of the layers in order: Y1 to Y4, M1 to M11 with the limits of a body, N1 to N4, N5 to N9. Each is asked only where nothing before it is broken. Of the first three the least bit counts, and at one bit the least number, limits last; of N5 to N9 the least number, and of its bits the least. Or want of memory.
pub fn read_shader(alloc: Global, items: &Items) -> Result<Shader, Fault>
    requires { IsFramed items.now.list items.now.fields }
    ensures { ShaderAnswer items.now.list items.now.fields result }
{
    let types = match read_types(alloc, items) {
        Ok(types) => types,
        Err(fault) => return Err(fault),
    };
    let records = match read_module_records(alloc, items, &types) {
        Ok(records) => records,
        Err(fault) => return Err(fault),
    };
    match facts_of(alloc, items, &types, &records) {
        Ok(facts) => Ok(Shader {
            types,
            records,
            facts,
        }),
        Err(fault) => Err(fault),
    }
}
