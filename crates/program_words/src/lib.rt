//! The words that a program is translated into.
#![tactic(auto)]

ghost use Rattle.std.specs.Prelude.{IfOk};
ghost use Rattle.dxil_form.specs.Sound.{Sound};
ghost use Rattle.program_words.specs.Words.{IsWordsOf};

use dx_base::{OutOfMemory, Words};
use dxil_form::Program;
use phi_demotion::demote;
use program_regions::regions_of;
use resource_map::map_resources;
use spirv_lower::lower;
use spirv_words::write_module;
use spv_form::Version;
use std::alloc::Global;

/// The words of a module of this version that does the same as the program, in every launch and by every schedule. It keeps the rules of a module, and where no ring of the program's branch graph is crossed and few blocks are reachable, its loops are those of the graph. The set of a resource is its register space, and its binding is three times its lower bound and the number of its class.
pub fn words_of(alloc: Global, p: &Program, version: Version) -> Result<Words, OutOfMemory>
    requires { Sound p.now }
    ensures { IfOk result (IsWordsOf p.now version) }
{
    let regions = regions_of(alloc, p)?;
    let slots = demote(alloc, p)?;
    let bindings = map_resources(alloc, p)?;
    let module = lower(alloc, p, &regions, &slots, &bindings, version)?;
    write_module(alloc, &module)
}
