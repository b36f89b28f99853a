ghost use Rattle.std.specs.Prelude.{◌≡◌, ◌++◌, ◌∷◌, ◌+◌, ◌<◌, ◌≤◌, [], All, OnOk, length};
ghost use Rattle.spirv_code.specs.Exits.{exit_code};
ghost use Rattle.spirv_code.specs.Rows as rows;
ghost use Rattle.spirv_code.specs.Rows.{arm_code, row_code, when_code};
ghost use Rattle.spirv_code.specs.Trees.{Leaf, Dispatch, arm_label, arms_of, entered_arms, tree_at};
ghost use Rattle.spirv_table.specs.Known.{env_of};
ghost use Rattle.spirv_emit.specs.Scenes.{context_in};
ghost use Rattle.spirv_regions.specs.Small.{IsSmall};
ghost use Rattle.spirv_regions.specs.Ways.{AreFewBlocks};

use crate::choices::want;
use crate::labels::{Kind, entry_label, label, leaf_at, region_at};
use crate::pieces::{
    choose_among, dispatch_begins, dispatch_ends, end, entered, find_arm, footer, header, onwards,
    read_tested, when_begins,
};
use crate::splits::split;
use crate::ways::{cases_in, next_blocks, way_to};
use dx_base::OutOfMemory;
use dxil_form::{Region, Term};
use spirv_code::Way;
use spirv_emit::{Code, Scene};
use spirv_lines::write_block;
use spirv_table::Known;
use spv_form::op;
use std::alloc::Global;

/// Writes a region, from behind its label.
#[tactic(auto, using(crate::proofs::Written::tree_of, crate::proofs::Written::then_written, crate::proofs::Written::loop_written, spirv_code::proofs::TreeLaws::first_below, spirv_code::proofs::TreeLaws::second_below, spirv_code::proofs::TreeLaws::body_below, spirv_code::proofs::TreeLaws::leaf_below, spirv_code::proofs::TreeLaws::arms_below, spirv_code::proofs::TreeLaws::choices_below))]
#[cycle(rows)]
pub fn row(
    alloc: Global,
    code: &mut Code,
    s: &Scene,
    list: &[Region],
    place: u32,
) -> Result<(), OutOfMemory>
    requires { IsSmall s.now list.now }
    ensures { OnOk result (code.new ≡ code.old ++ row_code (context_in s.now) (length code.old) (tree_at list.now place)) }
{
    match region_at(list, place) {
        None => Ok(()),
        Some(Region::Leaf { block }) => leaf(alloc, code, s, list, place, place, *block, &[]),
        Some(Region::Arms { first, arms }) => match leaf_at(list, *first) {
            Some((at, block)) => leaf(alloc, code, s, list, place, at, block, arms.as_slice()),
            None => Ok(()),
        },
        Some(
            Region::Then {
                first,
                second,
                target,
            },
        ) => {
            row(alloc, code, s, list, *first)?;
            when(alloc, code, s, list, *target, *second)
        }
        Some(Region::Loop { body, head }) => {
            header(code, place, entry_label(list, *body))?;
            row(alloc, code, s, list, *body)?;
            let again = label(place, Kind::Header);
            footer(code, s, place, *head, again, label(place, Kind::Merge))
        }
        Some(Region::Dispatch { arms }) => dispatch(alloc, code, s, list, place, arms.as_slice()),
    }
}

/// Writes a region that runs only where block k is wanted.
#[tactic(auto, using(crate::proofs::Written::when_written))]
#[cycle(rows)]
fn when(
    alloc: Global,
    code: &mut Code,
    s: &Scene,
    list: &[Region],
    k: u32,
    place: u32,
) -> Result<(), OutOfMemory>
    requires { IsSmall s.now list.now }
    ensures { OnOk result (code.new ≡ code.old ++ when_code (context_in s.now) (length code.old) k (tree_at list.now place) (λ p. row_code (context_in s.now) p (tree_at list.now place))) }
{
    let passed = when_begins(code, s, list, k, place)?;
    row(alloc, code, s, list, place)?;
    onwards(code, passed)
}

/// Writes an arm of a selection, whose ways meet at this label.
#[tactic(auto, using(crate::proofs::Written::arm_written))]
#[cycle(rows)]
fn arm(
    alloc: Global,
    code: &mut Code,
    s: &Scene,
    list: &[Region],
    meet: u32,
    place: u32,
) -> Result<(), OutOfMemory>
    requires { IsSmall s.now list.now }
    ensures { OnOk result (code.new ≡ code.old ++ arm_code (length code.old) meet (tree_at list.now place) (λ p. row_code (context_in s.now) p (tree_at list.now place))) }
{
    code.push(op::LABEL, &[entry_label(list, place)])?;
    row(alloc, code, s, list, place)?;
    code.push(op::BRANCH, &[meet])
}

/// Writes arms, each of which ends with a branch to the label where all meet.
#[tactic(auto, using(crate::proofs::Written::met_next, crate::proofs::Arms::arm_below))]
#[cycle(rows)]
fn met_arms(
    alloc: Global,
    code: &mut Code,
    s: &Scene,
    list: &[Region],
    under: u32,
    meet: u32,
    arms: &[(u32, u32)],
) -> Result<(), OutOfMemory>
    requires small { IsSmall s.now list.now }
    requires before { All (λ arm. arm.1 < under) arms.now }
    ensures { OnOk result (code.new ≡ code.old ++ rows.met_arms (context_in s.now) meet (length code.old) (arms_of (tree_at list.now) arms.now)) }
{
    for pair in arms {
        arm(alloc, code, s, list, meet, pair.1)?;
    }
    Ok(())
}

/// Writes arms, each of which runs only where its block is wanted.
#[tactic(auto, using(crate::proofs::Written::wanted_next, crate::proofs::Arms::arm_below))]
#[cycle(rows)]
fn wanted_arms(
    alloc: Global,
    code: &mut Code,
    s: &Scene,
    list: &[Region],
    under: u32,
    arms: &[(u32, u32)],
) -> Result<(), OutOfMemory>
    requires small { IsSmall s.now list.now }
    requires before { All (λ arm. arm.1 < under) arms.now }
    ensures { OnOk result (code.new ≡ code.old ++ rows.wanted_arms (context_in s.now) (length code.old) (arms_of (tree_at list.now) arms.now)) }
{
    for pair in arms {
        when(alloc, code, s, list, pair.0, pair.1)?;
    }
    Ok(())
}

/// Writes the arm of a block, or a store that the block is wanted.
#[tactic(auto, using(crate::proofs::Written::arm_found, crate::proofs::Written::arm_missing))]
#[cycle(rows)]
fn one_arm(
    alloc: Global,
    code: &mut Code,
    s: &Scene,
    list: &[Region],
    under: u32,
    k: u32,
    arms: &[(u32, u32)],
) -> Result<(), OutOfMemory>
    requires small { IsSmall s.now list.now }
    requires before { All (λ arm. arm.1 < under) arms.now }
    ensures { OnOk result (code.new ≡ code.old ++ rows.one_arm (context_in s.now) k (length code.old) (arms_of (tree_at list.now) arms.now)) }
{
    match find_arm(under, k, arms) {
        Some(place) => {
            onwards(code, entry_label(list, place))?;
            row(alloc, code, s, list, place)
        }
        None => want(code, s, k),
    }
}

/// Writes a leaf and its arms.
#[tactic(auto, using(crate::proofs::Written::leaf_written, crate::proofs::Written::no_leaf_written))]
#[cycle(rows)]
fn leaf(
    alloc: Global,
    code: &mut Code,
    s: &Scene,
    list: &[Region],
    under: u32,
    place: u32,
    block: u32,
    arms: &[(u32, u32)],
) -> Result<(), OutOfMemory>
    requires small { IsSmall s.now list.now }
    requires place { place ≤ 0x0001_0000 }
    requires before { All (λ arm. arm.1 < under) arms.now }
    ensures { OnOk result (code.new ≡ code.old ++ row_code (context_in s.now) (length code.old) (Leaf place block (arms_of (tree_at list.now) arms.now))) }
{
    let Some(body) = s.program.blocks.get(block as usize) else {
        return end(code, s);
    };
    let blocks = next_blocks(alloc, &body.term)?;
    let way = way_to(blocks.as_slice(), cases_in(&body.term));
    let known = write_block(alloc, code, s, block, body, blocks.as_slice())?;
    let meet = label(place, Kind::Chosen);
    exit(
        alloc,
        code,
        s,
        list,
        under,
        &known,
        meet,
        &body.term,
        blocks.as_slice(),
        way,
        arms,
    )
}

/// Writes how a leaf is left.
#[tactic(auto, using(crate::proofs::Written::chosen_written, crate::proofs::Written::split_written))]
#[cycle(rows)]
fn exit(
    alloc: Global,
    code: &mut Code,
    s: &Scene,
    list: &[Region],
    under: u32,
    known: &Known,
    meet: u32,
    term: &Term,
    blocks: &[u32],
    way: Way,
    arms: &[(u32, u32)],
) -> Result<(), OutOfMemory>
    requires small { IsSmall s.now list.now }
    requires before { All (λ arm. arm.1 < under) arms.now }
    requires blocks { AreFewBlocks way (length blocks.now) }
    ensures { OnOk result (code.new ≡ code.old ++ exit_code (context_in s.now) meet term.now (arm_label (arms_of (tree_at list.now) arms.now)) blocks.now (λ k p. rows.one_arm (context_in s.now) k p (arms_of (tree_at list.now) arms.now)) (λ p. rows.met_arms (context_in s.now) meet p (arms_of (tree_at list.now) arms.now)) (λ p. rows.wanted_arms (context_in s.now) p (arms_of (tree_at list.now) arms.now)) (env_of known.now) way (length code.old)) }
{
    match way {
        Way::Ends => end(code, s),
        Way::Goes(k) => one_arm(alloc, code, s, list, under, k, arms),
        Way::Chooses => {
            let id = read_tested(code, s, known, term)?;
            choose_among(alloc, code, s, list, meet, id, term, arms, blocks)?;
            met_arms(alloc, code, s, list, under, meet, arms)?;
            code.push(op::LABEL, &[meet])
        }
        Way::Splits => {
            let id = read_tested(code, s, known, term)?;
            split(alloc, code, s, id, term)?;
            wanted_arms(alloc, code, s, list, under, arms)
        }
    }
}

/// Writes the selection of a dispatch, and its arms.
#[tactic(auto, using(crate::proofs::Written::dispatch_written, crate::proofs::Arms::entered_is, crate::proofs::Arms::entered_below))]
#[cycle(rows)]
fn dispatch(
    alloc: Global,
    code: &mut Code,
    s: &Scene,
    list: &[Region],
    place: u32,
    arms: &[u32],
) -> Result<(), OutOfMemory>
    requires small { IsSmall s.now list.now }
    requires place { place ≤ 0x0001_0000 }
    requires before { All (λ a. a < place) arms.now }
    ensures { OnOk result (code.new ≡ code.old ++ row_code (context_in s.now) (length code.old) (Dispatch place (entered_arms (tree_at list.now) arms.now))) }
{
    let pairs = entered(alloc, list, arms)?;
    let meet = label(place, Kind::Chosen);
    dispatch_begins(alloc, code, s, list, place, pairs.as_slice())?;
    met_arms(alloc, code, s, list, place, meet, pairs.as_slice())?;
    dispatch_ends(code, s, place)
}
