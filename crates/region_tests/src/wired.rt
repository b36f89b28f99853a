//! A plain check that regions fit together, region by region.

use crate::follow::entry;
use dxil_form::Region;

/// Tells whether a block has a target.
fn has_target(targets: &[Vec<u32>], block: u32, target: u32) -> bool {
    match targets.get(block as usize) {
        Some(list) => list.as_slice().contains(&target),
        None => false,
    }
}

/// How many of the marked blocks have a target.
fn sources(targets: &[Vec<u32>], marks: &[bool], target: u32) -> usize {
    let mut count: usize = 0;
    let mut b: u32 = 0;
    for mark in marks {
        if *mark && has_target(targets, b, target) {
            count = count.saturating_add(1);
        }
        b = b.wrapping_add(1);
    }
    count
}

/// Tells whether each arm is entered by its target, which has one edge into it, from the block.
fn arms_fit(
    targets: &[Vec<u32>],
    marks: &[bool],
    list: &[Region],
    block: u32,
    arms: &[(u32, u32)],
) -> bool {
    for arm in arms {
        if entry(list, arm.1) != Some(arm.0)
            || !has_target(targets, block, arm.0)
            || sources(targets, marks, arm.0) != 1
        {
            return false;
        }
    }
    true
}

/// Tells whether the parts of a region fit it: each is entered by the block for which it is run, a body is no loop, arms stand at a leaf, and only the last region is a
/// dispatch. The marks are of the blocks that are reached.
pub fn fits(targets: &[Vec<u32>], marks: &[bool], list: &[Region], place: u32) -> bool {
    match list.get(place as usize) {
        None => false,
        Some(Region::Leaf { .. }) => true,
        Some(Region::Then { second, target, .. }) => entry(list, *second) == Some(*target),
        Some(Region::Loop { body, head }) => {
            entry(list, *body) == Some(*head)
                && !matches!(list.get(*body as usize), Some(Region::Loop { .. }))
        }
        Some(Region::Dispatch { arms }) => place as usize + 1 == list.len() && arms.len() > 1,
        Some(Region::Arms { first, arms }) => match list.get(*first as usize) {
            Some(Region::Leaf { block }) => {
                arms_fit(targets, marks, list, *block, arms.as_slice())
            }
            _ => false,
        },
    }
}
