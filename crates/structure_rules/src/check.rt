ghost use Rattle.std.specs.Prelude.{◌<◌, ◌^◌, length};
ghost use Rattle.spv_form.specs.Formed.{IsFormed};
ghost use Rattle.spv_form.specs.Words.{start_of};
ghost use Rattle.structure_rules.specs.Checking.{CheckAnswer};

use dx_base::OutOfMemory;
use flow_blocks::blocks_of;
use flow_rules::check_flow;
use module_rules::check_rules;
use spv_form::{CheckFault, Module};
use std::alloc::Global;

/// Checks a module against the rules V1 to V15, and the blocks of one that breaks none against the structure rules S1 to S12 (after SPIR-V 1.6, sections 2.4, 2.11 and 2.16).
///
/// # Errors
///
/// The rule V of least word that is broken, and there of least number; where no rule V is broken, the rule S of least word, and there of least number. A word counts from the first of the module. Or want of memory.
pub fn check_module(alloc: Global, m: &Module) -> Result<(), CheckFault>
    requires formed { IsFormed m.now }
    requires short { start_of m.now.insts (length m.now.insts) < 2 ^ 32 }
    ensures { CheckAnswer result m.now }
{
    match check_rules(alloc, m) {
        Ok(()) => {}
        Err(fault) => return Err(fault),
    }
    match blocks_of(alloc, &m.insts) {
        Ok(blocks) => check_flow(alloc, &blocks),
        Err(OutOfMemory) => Err(CheckFault::OutOfMemory),
    }
}
