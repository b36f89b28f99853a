ghost use Rattle.std.specs.Prelude.{◌≡◌, length};
ghost use Rattle.bitstream_spelling.specs.Framed.{IsFramed};
ghost use Rattle.llvm_types.specs.Types.{types_of};
ghost use Rattle.llvm_values.specs.Values.{values_of};
ghost use Rattle.llvm_nodes.specs.Reading.{MetaAnswer};
ghost use Rattle.llvm_facts.specs.Facts.{FactsAnswer};
ghost use Rattle.llvm_facts.specs.Rules.{module_of};

use bitstream_spelling::Items;
use dx_base::Fault;
use llvm_facts::Facts;
use llvm_nodes::{Meta, read_nodes};
use llvm_records::Records;
use llvm_types::Types;
use std::alloc::Global;

/// The metadata of a module with these types and records, which are those of the same items, or the first of the rules N1 to N4 that is broken, with its bit.
pub fn read_metadata(
    alloc: Global,
    items: &Items,
    types: &Types,
    records: &Records,
) -> Result<Meta, Fault>
    requires framed { IsFramed items.now.list items.now.fields }
    requires types { types.now.list ≡ types_of items.now.list items.now.fields }
    requires globals { records.now.globals ≡ values_of items.now.list items.now.fields types.now.list }
    ensures { MetaAnswer result items.now.list items.now.fields (length types.now.list) (length records.now.globals) }
{
    let type_count = types.list.len() as u32;
    let value_count = records.globals.len() as u32;
    read_nodes(alloc, items, type_count, value_count)
}

/// What the metadata of a module with these types and records say of its compute shader, or the first of the rules N5 to N9 that is broken: the one of least
/// number, with the least of its bits.
pub fn shader_facts(
    alloc: Global,
    meta: &Meta,
    types: &Types,
    records: &Records,
) -> Result<Facts, Fault>
    ensures { FactsAnswer result (module_of meta.now types.now.list records.now.globals) meta.now }
{
    llvm_facts::shader_facts(alloc, meta, types, &records.globals)
}
