ghost use Rattle.std.specs.Prelude.{◌≡◌, ◌<◌, ◌^◌, IsTrue, length, nat_lt};
ghost use Rattle.std.specs.List.{list_all};
ghost use Rattle.spirv_code.specs.Trees.{AreEarlier};
ghost use Rattle.spirv_lower.specs.Counted.{AreCounted};
ghost use Rattle.lower_tests.specs.Counted as counted;

use dxil_form::{Block, Program, Region};

/// Whether all places are below this one.
fn are_below(places: &[u32], place: u32) -> bool
    ensures { result ≡ list_all (λ a. nat_lt a place) places.now }
{
    places.iter().all(|a| *a < place)
}

/// Whether the regions of all arms stand before this place.
fn are_arms_below(arms: &[(u32, u32)], place: u32) -> bool
    ensures { result ≡ list_all (λ arm. nat_lt arm.1 place) arms.now }
{
    arms.iter().all(|arm| arm.1 < place)
}

/// Whether a region at this place stands behind its parts.
fn is_behind(place: u32, region: &Region) -> bool
    ensures { result ≡ counted.is_behind place region.now }
{
    match region {
        Region::Leaf { .. } => true,
        Region::Then { first, second, .. } => *first < place && *second < place,
        Region::Loop { body, .. } => *body < place,
        Region::Dispatch { arms } => are_below(arms.as_slice(), place),
        Region::Arms { first, arms } => { *first < place && are_arms_below(arms.as_slice(), place) }
    }
}

/// Whether each region stands behind its parts.
fn are_earlier(list: &[Region]) -> bool
    requires { length list.now < 2 ^ 32 }
    ensures { IsTrue result → AreEarlier list.now }
{
    for (place, region) in list.iter().enumerate() {
        if !is_behind(place as u32, region) {
            return false;
        }
    }
    true
}

/// Whether the phis of each block are numbered by words.
fn are_few_phis(blocks: &[Block]) -> bool
    ensures { result ≡ list_all (λ block. nat_lt (length block.phis) 0x1_0000_0000) blocks.now }
{
    blocks.iter().all(|block| block.phis.len() < 0x1_0000_0000)
}

/// Whether the counts of a program and of its regions fit in words, and each region stands behind its parts.
pub fn are_counted(p: &Program, list: &[Region]) -> bool
    ensures { IsTrue result → AreCounted p.now list.now }
{
    if p.blocks.len() >= 0x1_0000_0000 {
        return false;
    }
    if p.shared.len() >= 0x1_0000_0000 {
        return false;
    }
    if !are_few_phis(p.blocks.as_slice()) {
        return false;
    }
    if list.len() > 0x0001_0000 {
        return false;
    }
    are_earlier(list)
}
