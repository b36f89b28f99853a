ghost use Rattle.std.specs.Prelude.{◌≡◌, ◌≤◌, IfOk, IsTrue, map};
ghost use Rattle.dx_base.specs.First.{IsSound};
ghost use Rattle.dxil_form.specs.Sound.{Sound};
ghost use Rattle.dxil_form.specs.Wired.{Wired};
ghost use Rattle.phi_demotion.specs.Slots.{AreSlots};
ghost use Rattle.resource_map.specs.Pairs.{pair_of};
ghost use Rattle.spv_form.specs.Formed.{IsFormed};
ghost use Rattle.spirv_meaning.specs.Bindings.{AreApart};
ghost use Rattle.spirv_meaning.specs.Same.{Same};
ghost use Rattle.spirv_code.specs.Frame.{module_of};
ghost use Rattle.spirv_table.specs.Tables.{AreFew, plan_of};
ghost use Rattle.chosen_plan.specs.Chosen.{plan_for};
ghost use Rattle.module_sizes.specs.Sizes.{IsSmall};
ghost use Rattle.module_form.specs.Form.{HasForm};
ghost use Rattle.buffer_form.specs.Buffers.{HasBuffers};
ghost use Rattle.site_form.specs.Sites.{HasSites};
ghost use Rattle.act_form.specs.Acts.{HasActs};
ghost use Rattle.act_counts.specs.Laws.{HasFewActs};
ghost use Rattle.flow_rules.specs.Rules.{Broken};
ghost use Rattle.flow_blocks.specs.Numbered.{blocks_of};
ghost use Rattle.program_regions.specs.Chosen.{AreRegions};
ghost use Rattle.variable_counts.specs.Laws.{HasFewVariables};
ghost use Rattle.module_laws.specs.Rules.{KeepsRules};
ghost use Rattle.module_laws.specs.Loops.{HasLoops};
ghost use Rattle.spirv_lower.specs.Counted.{AreCounted};

use crate::passing::wants;
use crate::variables::find_variables;
use act_counts::modules_have_few_acts;
use act_form::module_has_acts;
use buffer_form::module_has_buffers;
use chosen_plan::plans_are_chosen;
use dx_base::OutOfMemory;
use dxil_form::{Program, Region, Regions};
use module_form::module_has_form;
use module_formed::modules_are_formed;
use module_laws::{modules_have_loops, modules_keep_rules};
use module_same::modules_are_same;
use module_sizes::modules_are_small;
use module_structure::modules_keep_structure;
use phi_demotion::Slots;
use phi_entries::Entries;
use resource_map::{Binding, Bindings};
use site_form::module_has_sites;
use spirv_emit::Scene;
use spirv_frame::write;
use spirv_keys::table_of;
use spirv_table::Tables;
use spv_form::{Module, Version};
use std::alloc::Global;
use variable_counts::modules_have_few_variables;

/// What the module of a program declares, over regions and slots that need not be its own.
fn find_tables(
    alloc: Global,
    p: &Program,
    list: &[Region],
    slots: &Slots,
) -> Result<Tables, OutOfMemory>
    requires { AreCounted p.now list.now }
    ensures { IfOk result (λ t. plan_of t ≡ plan_for p.now list.now slots.now) }
{
    let variables = find_variables(alloc, p, list, slots)?;
    let table = table_of(alloc, p, list, wants(p, list), variables.as_slice())?;
    Ok(Tables {
        regions: list.len() as u32,
        slots: variables,
        table,
    })
}

/// Whether the ids of what the tables name fit in a word.
fn are_few(tables: &Tables) -> bool
    requires { tables.now.regions ≤ 0x0001_0000 }
    ensures { IsTrue result → AreFew tables.now }
{
    tables.slots.len() <= 0x0100_0000 && tables.table.len() <= 0x0100_0000
}

/// The module that declares what the tables have.
#[tactic(auto, using(crate::proofs::Counts::small))]
fn write_by(
    alloc: Global,
    p: &Program,
    list: &[Region],
    tables: &Tables,
    bindings: &[Binding],
    version: Version,
) -> Result<Module, OutOfMemory>
    requires counted { AreCounted p.now list.now }
    requires few { AreFew tables.now }
    ensures { IfOk result (λ m. m ≡ module_of p.now list.now (map pair_of bindings.now) version (plan_of tables.now)) }
{
    let entries = Entries::of_blocks(alloc, p.blocks.as_slice())?;
    let s = Scene {
        program: p,
        entries: &entries,
        tables,
    };
    write(alloc, &s, list, bindings, version)
}

/// The module of a program over regions that need not be those of its branch graph, with slots and bindings that need not be its own.
///
/// A module that would declare more than 2^24 variables, or as many types and constants, is refused as want of memory; that of a sound program over its own regions and slots never is, so `lower` does not ask.
pub fn write_program(
    alloc: Global,
    p: &Program,
    list: &[Region],
    slots: &Slots,
    bindings: &[Binding],
    version: Version,
) -> Result<Module, OutOfMemory>
    requires { AreCounted p.now list.now }
    ensures { IfOk result (λ m. m ≡ module_of p.now list.now (map pair_of bindings.now) version (plan_for p.now list.now slots.now)) }
{
    let tables = find_tables(alloc, p, list, slots)?;
    if !are_few(&tables) {
        return Err(OutOfMemory);
    }
    write_by(alloc, p, list, &tables, bindings, version)
}

/// The module of a program over its regions, with the slots of its registers and the bindings of its resources, in a version.
///
/// It does the same as the program, in every launch and by every schedule. Each of its instructions has the operands that its opcode takes. Its bound is at most 4,194,303, and it has fewer than 2^24 words. It declares of itself, of its buffers and of its groupshared arrays what these have to have, and has a site for each block that is reached. It has the accesses, atomics and barriers of these blocks, and no others, so of each kind no more than they have. Its blocks break none of the structure rules; where the regions are those of the program's branch graph, its instructions break none of the rules V1 to V15, its loops and switches are those of the graph, and it has few variables where that is a tree.
#[tactic(auto, using(crate::proofs::Counts::counted))]
pub fn lower(
    alloc: Global,
    p: &Program,
    regions: &Regions,
    slots: &Slots,
    bindings: &Bindings,
    version: Version,
) -> Result<Module, OutOfMemory>
    requires sound { Sound p.now }
    requires wired { Wired p.now regions.now.list }
    requires slots { AreSlots p.now slots.now }
    requires bindings { AreApart p.now (map pair_of bindings.now) }
    ensures module { IfOk result (λ m. m ≡ module_of p.now regions.now.list (map pair_of bindings.now) version (plan_for p.now regions.now.list slots.now)) }
    ensures same { IfOk result (λ m. Same p.now (map pair_of bindings.now) m) }
    ensures formed { IfOk result (λ m. IsFormed m) }
    ensures small { IfOk result (λ m. IsSmall m) }
    ensures form { IfOk result (λ m. HasForm p.now regions.now.list version m) }
    ensures buffers { IfOk result (λ m. HasBuffers p.now (map pair_of bindings.now) m) }
    ensures sites { IfOk result (λ m. HasSites p.now m) }
    ensures acts { IfOk result (λ m. HasActs p.now m) }
    ensures counts { IfOk result (λ m. HasFewActs p.now m) }
    ensures few_variables { IfOk result (λ m. AreRegions p.now regions.now.list → HasFewVariables p.now m) }
    ensures structure { IfOk result (λ m. IsSound (Broken (blocks_of m.insts))) }
    ensures rules { IfOk result (λ m. AreRegions p.now regions.now.list → KeepsRules m) }
    ensures loops { IfOk result (λ m. AreRegions p.now regions.now.list → HasLoops p.now m) }
{
    modules_are_same();
    modules_are_formed();
    modules_are_small();
    plans_are_chosen();
    module_has_form();
    module_has_buffers();
    module_has_sites();
    module_has_acts();
    modules_have_few_acts();
    modules_have_few_variables();
    modules_keep_structure();
    modules_keep_rules();
    modules_have_loops();
    let list = regions.list.as_slice();
    let tables = find_tables(alloc, p, list, slots)?;
    write_by(alloc, p, list, &tables, bindings.as_slice(), version)
}
