ghost use Rattle.std.specs.Prelude.{◌≡◌, ◌++◌, ◌∷◌, ◌+◌, ◌<◌, ◌≤◌, ◌^◌, [], All, IfOk, IfSome, OnOk, length, map};
ghost use Rattle.spirv_code.specs.Plans.{number, passed_label};
ghost use Rattle.spirv_code.specs.Reads.{store_code};
ghost use Rattle.spirv_code.specs.Exits as exits;
ghost use Rattle.spirv_code.specs.Exits.{choose_code, loose, no_block, tested_code, tested_id};
ghost use Rattle.spirv_code.specs.Rows as rows;
ghost use Rattle.spirv_code.specs.Rows.{arm_pairs, dispatch_head, dispatch_tail, footer_code, header_code, when_head};
ghost use Rattle.spirv_code.specs.Trees as trees;
ghost use Rattle.spirv_code.specs.Trees.{arm_label, arms_of, label_at, place_of, tree_at};
ghost use Rattle.spirv_code.specs.declared.key.Slot.TheVariants.{Want};
ghost use Rattle.spirv_table.specs.Known.{env_of};
ghost use Rattle.spirv_table.specs.Tables.{AreFew};
ghost use Rattle.spirv_emit.specs.Scenes.{context_in};
ghost use Rattle.spirv_regions.specs.Small.{IsSmall};
ghost use Rattle.spirv_regions.specs.Ways.{arm_place};

use crate::choices::{choose, push, wanted};
use crate::labels::{Kind, arm_labels, entry_block, entry_label, label, tree_place};
use crate::ways::loose_blocks;
use dx_base::{Cases, List, OutOfMemory};
use dxil_form::{Operand, Region, Term};
use spirv_code::Slot;
use spirv_emit::{Code, Scene, operands_of, read, store};
use spirv_table::Known;
use spv_form::{Inst, Operands, op};
use std::alloc::Global;

/// Writes a branch to a label, and the label.
pub fn onwards(code: &mut Code, label: u32) -> Result<(), OutOfMemory>
    ensures code { OnOk result (code.new ≡ code.old ++ rows.onwards label) }
    ensures size { OnOk result (length code.new ≡ length code.old + 2) }
{
    code.push(op::BRANCH, &[label])?;
    code.push(op::LABEL, &[label])
}

/// Stores that no block is wanted, where any block ever is.
pub fn end(code: &mut Code, s: &Scene) -> Result<(), OutOfMemory>
    requires few { AreFew s.now.tables.now }
    requires blocks { length s.now.program.now.blocks < 2 ^ 32 }
    ensures { OnOk result (code.new ≡ code.old ++ store_code ((context_in s.now).slot Want) (number (context_in s.now) (no_block (context_in s.now)))) }
{
    let none = s.number(s.program.blocks.len() as u32);
    store(code, s.slot(Slot::Want), none)
}

/// Writes the merge of a loop, and the branch into it.
pub fn header(code: &mut Code, place: u32, first: u32) -> Result<(), OutOfMemory>
    requires { place ≤ 0x0001_0000 }
    ensures code { OnOk result (code.new ≡ code.old ++ header_code place first) }
    ensures size { OnOk result (length code.new ≡ length code.old + 3) }
{
    let merge = label(place, Kind::Merge);
    code.push(op::LOOP_MERGE, &[merge, label(place, Kind::Continue), 0])?;
    onwards(code, first)
}

/// Writes the continue target of a loop, which tests whether block k is wanted, and the merge block.
pub fn footer(
    code: &mut Code,
    s: &Scene,
    place: u32,
    k: u32,
    there: u32,
    other: u32,
) -> Result<(), OutOfMemory>
    requires few { AreFew s.now.tables.now }
    requires place { place ≤ 0x0001_0000 }
    ensures { OnOk result (code.new ≡ code.old ++ footer_code (context_in s.now) place (length code.old) k there other) }
{
    onwards(code, label(place, Kind::Continue))?;
    let again = wanted(code, s, k)?;
    code.push(op::BRANCH_CONDITIONAL, &[again, there, other])?;
    code.push(op::LABEL, &[label(place, Kind::Merge)])
}

/// Writes the test before a region that runs only where block k is wanted, and gives the label behind the region.
pub fn when_begins(
    code: &mut Code,
    s: &Scene,
    list: &[Region],
    k: u32,
    place: u32,
) -> Result<u32, OutOfMemory>
    requires { IsSmall s.now list.now }
    ensures code { OnOk result (code.new ≡ code.old ++ when_head (context_in s.now) (length code.old) k (label_at (tree_at list.now place)) (place_of (tree_at list.now place))) }
    ensures passed { IfOk result (λ passed. passed ≡ passed_label (place_of (tree_at list.now place))) }
{
    let passed = label(tree_place(list, place), Kind::Passed);
    let entry = entry_label(list, place);
    let is = wanted(code, s, k)?;
    code.push(op::SELECTION_MERGE, &[passed, 0])?;
    code.push(op::BRANCH_CONDITIONAL, &[is, entry, passed])?;
    code.push(op::LABEL, &[entry])?;
    Ok(passed)
}

/// The place of the first arm that runs for block k.
#[tactic(auto, using(crate::proofs::Arms::arm_below))]
pub fn find_arm(under: u32, k: u32, arms: &[(u32, u32)]) -> Option<u32>
    requires { All (λ arm. arm.1 < under) arms.now }
    ensures found { result ≡ arm_place k arms.now }
    ensures below { IfSome result (λ a. a < under) }
{
    for pair in arms {
        if pair.0 == k {
            return Some(pair.1);
        }
    }
    None
}

/// What a terminator tests.
fn tested(term: &Term) -> Option<Operand>
    ensures { result ≡ exits.tested term.now }
{
    match term {
        Term::If { cond, .. } => Some(*cond),
        Term::Switch { value, .. } => Some(*value),
        Term::Ret | Term::Unreachable | Term::Go(_) => None,
    }
}

/// Reads what a terminator tests, and gives its id; 0 where it tests nothing.
pub fn read_tested(
    code: &mut Code,
    s: &Scene,
    known: &Known,
    term: &Term,
) -> Result<u32, OutOfMemory>
    requires { AreFew s.now.tables.now }
    ensures code { OnOk result (code.new ≡ code.old ++ tested_code (context_in s.now) (env_of known.now) (length code.old) (exits.tested term.now)) }
    ensures id { IfOk result (λ id. id ≡ tested_id (context_in s.now) (env_of known.now) (length code.old) (exits.tested term.now)) }
{
    match tested(term) {
        Some(a) => read(code, s, known, a),
        None => Ok(0),
    }
}

/// Writes the selection among several blocks, of which some have arms.
#[tactic(auto, using(crate::proofs::Selections::chosen_among))]
pub fn choose_among(
    alloc: Global,
    code: &mut Code,
    s: &Scene,
    list: &[Region],
    meet: u32,
    id: u32,
    term: &Term,
    arms: &[(u32, u32)],
    blocks: &[u32],
) -> Result<(), OutOfMemory>
    requires small { IsSmall s.now list.now }
    requires blocks { length blocks.now ≤ 0x0001_0000 }
    ensures { OnOk result (code.new ≡ code.old ++ choose_code (context_in s.now) (length code.old) meet id term.now (arm_label (arms_of (tree_at list.now) arms.now)) (loose (arm_label (arms_of (tree_at list.now) arms.now)) blocks.now)) }
{
    let labels = arm_labels(alloc, list, arms)?;
    let loose = loose_blocks(alloc, &labels, blocks)?;
    choose(alloc, code, s, meet, id, term, &labels, &loose)
}

/// The arms of a dispatch, each with the block that enters it.
pub fn entered(alloc: Global, list: &[Region], arms: &[u32]) -> Result<Cases, OutOfMemory>
    requires { trees.AreEarlier list.now }
    ensures { IfOk result (λ pairs. pairs ≡ map (λ a. (trees.entry_of (tree_at list.now a), a)) arms.now) }
{
    let mut pairs: Cases = List::new(alloc);
    for arm in arms {
        let entry = entry_block(list, *arm);
        if pairs.push((entry, *arm)).is_err() {
            return Err(OutOfMemory);
        }
    }
    Ok(pairs)
}

/// Adds the block and the label of each arm.
fn push_arms(
    operands: &mut Operands,
    list: &[Region],
    arms: &[(u32, u32)],
) -> Result<(), OutOfMemory>
    requires few { length list.now ≤ 0x0001_0000 }
    requires earlier { trees.AreEarlier list.now }
    ensures { OnOk result (operands.new ≡ operands.old ++ arm_pairs (arms_of (tree_at list.now) arms.now)) }
{
    for arm in arms {
        push(operands, arm.0)?;
        push(operands, entry_label(list, arm.1))?;
    }
    Ok(())
}

/// Writes the selection of a dispatch by the block that is wanted.
fn select_arm(
    alloc: Global,
    code: &mut Code,
    s: &Scene,
    list: &[Region],
    place: u32,
    arms: &[(u32, u32)],
) -> Result<(), OutOfMemory>
    requires small { IsSmall s.now list.now }
    requires place { place ≤ 0x0001_0000 }
    ensures { OnOk result (code.new ≡ code.old ++ rows.select_arm (context_in s.now) place (length code.old) (arms_of (tree_at list.now) arms.now)) }
{
    let meet = label(place, Kind::Chosen);
    let value = s.next(code);
    code.push(op::LOAD, &[s.int(), value, s.variable(Slot::Want)])?;
    code.push(op::SELECTION_MERGE, &[meet, 0])?;
    let mut operands = operands_of(alloc, &[value, meet])?;
    push_arms(&mut operands, list, arms)?;
    code.push_inst(Inst {
        opcode: op::SWITCH,
        operands,
    })
}

/// Writes all before the arms of a dispatch.
pub fn dispatch_begins(
    alloc: Global,
    code: &mut Code,
    s: &Scene,
    list: &[Region],
    place: u32,
    arms: &[(u32, u32)],
) -> Result<(), OutOfMemory>
    requires small { IsSmall s.now list.now }
    requires place { place ≤ 0x0001_0000 }
    ensures { OnOk result (code.new ≡ code.old ++ dispatch_head (context_in s.now) place (length code.old) (arms_of (tree_at list.now) arms.now)) }
{
    header(code, place, label(place, Kind::Body))?;
    select_arm(alloc, code, s, list, place, arms)
}

/// Writes all behind the arms of a dispatch.
pub fn dispatch_ends(code: &mut Code, s: &Scene, place: u32) -> Result<(), OutOfMemory>
    requires few { AreFew s.now.tables.now }
    requires blocks { length s.now.program.now.blocks < 2 ^ 32 }
    requires place { place ≤ 0x0001_0000 }
    ensures { OnOk result (code.new ≡ code.old ++ dispatch_tail (context_in s.now) place (length code.old)) }
{
    let none = s.program.blocks.len() as u32;
    let merge = label(place, Kind::Merge);
    code.push(op::LABEL, &[label(place, Kind::Chosen)])?;
    footer(code, s, place, none, merge, label(place, Kind::Header))
}
