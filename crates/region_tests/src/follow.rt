//! A plain check of regions, block by block: where each branch of a program leads in them.

use dxil_form::Region;
use std::alloc::Global;
use std::test::Fail;

/// The place of the leaf that runs first in a region, when the block that enters it is wanted.
pub fn first_leaf(list: &[Region], place: u32) -> Option<u32> {
    let mut at = place;
    for _ in 0..list.len() {
        match list.get(at as usize)? {
            Region::Leaf { .. } => return Some(at),
            Region::Loop { body, .. } => at = *body,
            Region::Then { first, .. } => at = *first,
            Region::Arms { first, .. } => at = *first,
            Region::Dispatch { arms } => at = choice(list, arms.as_slice(), 0)?,
        }
    }
    None
}

/// The block that enters a region, below a dispatch.
pub fn entry(list: &[Region], place: u32) -> Option<u32> {
    let mut at = place;
    for _ in 0..list.len() {
        match list.get(at as usize)? {
            Region::Leaf { block } => return Some(*block),
            Region::Loop { head, .. } => return Some(*head),
            Region::Then { first, .. } => at = *first,
            Region::Arms { first, .. } => at = *first,
            Region::Dispatch { .. } => return None,
        }
    }
    None
}

/// The region of a dispatch that a block enters.
fn choice(list: &[Region], arms: &[u32], block: u32) -> Option<u32> {
    for arm in arms {
        if entry(list, *arm) == Some(block) {
            return Some(*arm);
        }
    }
    None
}

/// The arm for a block.
fn arm_for(arms: &[(u32, u32)], block: u32) -> Option<u32> {
    for arm in arms {
        if arm.0 == block {
            return Some(arm.1);
        }
    }
    None
}

/// Tells whether a region names a place as one of its parts.
fn names(region: &Region, place: u32) -> bool {
    match region {
        Region::Leaf { .. } => false,
        Region::Then { first, second, .. } => *first == place || *second == place,
        Region::Loop { body, .. } => *body == place,
        Region::Dispatch { arms } => arms.as_slice().contains(&place),
        Region::Arms { first, arms } => {
            *first == place || arms.as_slice().iter().any(|arm| arm.1 == place)
        }
    }
}

/// The places of the regions that name a place.
pub fn parents(alloc: Global, list: &[Region], place: u32) -> Result<Vec<u32>, Fail> {
    let mut places = Vec::new(alloc);
    let mut i: u32 = 0;
    for region in list {
        if names(region, place) {
            places.push(i)?;
        }
        i = i.wrapping_add(1);
    }
    Ok(places)
}

/// Where a region goes on when its part at a place wants a block, if it does.
fn goes_on(list: &[Region], region: &Region, part: u32, block: u32) -> Option<u32> {
    match region {
        Region::Then {
            first,
            second,
            target,
        } if *first == part && *target == block => Some(*second),
        Region::Loop { body, head } if *head == block => Some(*body),
        Region::Arms { first, arms } if *first == part => arm_for(arms.as_slice(), block),
        Region::Dispatch { arms } => choice(list, arms.as_slice(), block),
        _ => None,
    }
}

/// The place of the leaf that runs next where the leaf at a place wants a block.
pub fn next_leaf(
    alloc: Global,
    list: &[Region],
    leaf: u32,
    block: u32,
) -> Result<Option<u32>, Fail> {
    let mut at = leaf;
    for _ in 0..list.len() {
        let up = match parents(alloc, list, at)?.first() {
            None => return Ok(None),
            Some(up) => *up,
        };
        if let Some(region) = list.get(up as usize) {
            if let Some(part) = goes_on(list, region, at, block) {
                return Ok(first_leaf(list, part));
            }
        }
        at = up;
    }
    Ok(None)
}

/// The places of the leaves of a block.
pub fn leaf_of(alloc: Global, list: &[Region], wanted: u32) -> Result<Vec<u32>, Fail> {
    let mut places = Vec::new(alloc);
    let mut i: u32 = 0;
    for region in list {
        if let Region::Leaf { block } = region {
            if *block == wanted {
                places.push(i)?;
            }
        }
        i = i.wrapping_add(1);
    }
    Ok(places)
}
