ghost use Rattle.std.specs.Prelude.{◌≡◌};
ghost use Rattle.bitstream_spelling.specs.Framed.{LiesIn, IsFramed};
ghost use Rattle.llvm_types.specs.Types.{types_of};
ghost use Rattle.llvm_values.specs.Reading.{RulesAnswer, StepAnswer};

use crate::rule::{State, broken_rule, state_after};
use bitstream_spelling::{Item, Items};
use dx_base::{Fault, OutOfMemory, Rule};
use llvm_items::{OpenBlocks, bit_of};
use llvm_types::Types;
use std::alloc::Global as Heap;

/// How far the rules were asked.
#[derive(Drop)]
pub struct RuleReader {
    /// The blocks that are open.
    pub around: OpenBlocks,
    /// What stands before.
    pub state: State,
}

/// Goes past an item, or tells the least rule that is broken there; `behind` are the items behind it.
fn step(
    reader: &mut RuleReader,
    item: Item,
    fields: &[u64],
    types: &Types,
    behind: &[Item],
) -> Result<(), Fault>
    requires { LiesIn fields.now item }
    ensures { StepAnswer result reader.old reader.new fields.now types.now.list behind.now item }
{
    if let Some(rule) = broken_rule(reader.state, &reader.around, item, fields, types, behind) {
        return Err(Fault::Refused {
            rule: Rule::M(rule),
            bit: bit_of(item),
        });
    }
    reader.state = state_after(reader.state, &reader.around, item, fields);
    match reader.around.pass(item) {
        Ok(()) => Ok(()),
        Err(OutOfMemory) => Err(Fault::OutOfMemory),
    }
}

fn check_items(alloc: Heap, list: &[Item], fields: &[u64], types: &Types) -> Result<(), Fault>
    requires framed { IsFramed list.now fields.now }
    requires types { types.now.list ≡ types_of list.now fields.now }
    ensures { RulesAnswer result list.now fields.now }
{
    let mut reader = RuleReader {
        around: OpenBlocks::new(alloc),
        state: State {
            versioned: false,
            bodied: false,
            instructed: false,
            ty: None,
        },
    };
    for (index, item) in list.iter().enumerate() {
        step(&mut reader, *item, fields, types, &list[index + 1..])?;
    }
    Ok(())
}

/// Asks the module and its bodies the rules M1 to M6, and tells the first that is broken, with its bit; the types are those of the same items.
pub fn check_values(alloc: Heap, items: &Items, types: &Types) -> Result<(), Fault>
    requires framed { IsFramed items.now.list items.now.fields }
    requires types { types.now.list ≡ types_of items.now.list items.now.fields }
    ensures { RulesAnswer result items.now.list items.now.fields }
{
    check_items(alloc, items.list.as_slice(), items.fields.as_slice(), types)
}
