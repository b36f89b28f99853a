ghost use Rattle.std.specs.Prelude.{◌≡◌, ◌<◌, ◌≤◌, ℕ, length, nat_eq, slice_get, if◌then◌else◌, IfOk, IfSome, IsSome, OnOk};
ghost use Rattle.std.specs.Option.{option_copied, option_or};
ghost use Rattle.indexmap.specs.IndexMap.{get};
ghost use Rattle.spirv_code.specs.Plans as plans;
ghost use Rattle.spirv_code.specs.Trees as trees;
ghost use Rattle.spirv_code.specs.Trees.{AreEarlier, Arms, arm_label, arms_of, label_at, tree_at, with_arms};
ghost use Rattle.spirv_regions.specs.Ways.{armed, kind_number};

use dx_base::OutOfMemory;
use dxil_form::Region;
use indexmap::IndexMap;
use std::alloc::Global;

/// The labels of a region, by their kinds.
#[derive(Clone, Copy, Debug, PartialEq, Eq)]
pub enum Kind {
    /// Where a leaf begins.
    Site,
    /// The header of a loop.
    Header,
    /// The block of a dispatch that selects.
    Body,
    Continue,
    Merge,
    /// Where the ways of a leaf's branch meet, or those of a dispatch.
    Chosen,
    /// Behind a region that runs only where its block is wanted.
    Passed,
    /// The first block of a function whose root does not begin with a leaf.
    First,
}

/// The label of a region at a place.
pub fn label(place: u32, kind: Kind) -> u32
    requires { place ≤ 0x0001_0000 }
    ensures { result ≡ plans.label place (kind_number kind) }
{
    let number = match kind {
        Kind::Site => 0,
        Kind::Header => 1,
        Kind::Body => 2,
        Kind::Continue => 3,
        Kind::Merge => 4,
        Kind::Chosen => 5,
        Kind::Passed => 6,
        Kind::First => 7,
    };
    4 + 8 * place + number
}

/// The region at a place.
pub fn region_at(list: &[Region], place: u32) -> Option<&Region>
    ensures value { option_copied result ≡ slice_get list.now place }
    ensures within { IsSome result → place < length list.now }
{
    list.get(place as usize)
}

/// The place and the block of the leaf at which arms of a region stand.
pub fn leaf_at(list: &[Region], place: u32) -> Option<(u32, u32)>
    requires { AreEarlier list.now }
    ensures leaf { (arms : Arms) → with_arms (tree_at list.now place) arms ≡ armed result arms }
    ensures within { IfSome result (λ leaf. leaf.0 < length list.now) }
{
    match region_at(list, place) {
        Some(Region::Leaf { block }) => Some((place, *block)),
        Some(Region::Arms { first, .. }) => leaf_at(list, *first),
        Some(Region::Then { .. } | Region::Loop { .. } | Region::Dispatch { .. }) | None => None,
    }
}

/// The label at which a region begins.
pub fn entry_label(list: &[Region], place: u32) -> u32
    requires few { length list.now ≤ 0x0001_0000 }
    requires earlier { AreEarlier list.now }
    ensures { result ≡ label_at (tree_at list.now place) }
{
    match region_at(list, place) {
        Some(Region::Leaf { .. }) => label(place, Kind::Site),
        Some(Region::Then { first, .. }) => entry_label(list, *first),
        Some(Region::Arms { first, .. }) => leaf_label(list, *first),
        Some(Region::Loop { .. } | Region::Dispatch { .. }) => label(place, Kind::Header),
        None => 0,
    }
}

/// The site of the leaf at which arms of a region stand; 0 where none stands.
fn leaf_label(list: &[Region], place: u32) -> u32
    requires few { length list.now ≤ 0x0001_0000 }
    requires earlier { AreEarlier list.now }
    ensures { (arms : Arms) → result ≡ label_at (with_arms (tree_at list.now place) arms) }
{
    match leaf_at(list, place) {
        Some((leaf, _)) => label(leaf, Kind::Site),
        None => 0,
    }
}

/// The block that enters a region.
pub fn entry_block(list: &[Region], place: u32) -> u32
    requires { AreEarlier list.now }
    ensures { result ≡ trees.entry_of (tree_at list.now place) }
{
    match region_at(list, place) {
        Some(Region::Leaf { block }) => *block,
        Some(Region::Then { first, .. }) => entry_block(list, *first),
        Some(Region::Arms { first, .. }) => leaf_block(list, *first),
        Some(Region::Loop { head, .. }) => *head,
        Some(Region::Dispatch { .. }) | None => 0,
    }
}

/// The block of the leaf at which arms of a region stand; 0 where none stands.
fn leaf_block(list: &[Region], place: u32) -> u32
    requires { AreEarlier list.now }
    ensures { (arms : Arms) → result ≡ trees.entry_of (with_arms (tree_at list.now place) arms) }
{
    match leaf_at(list, place) {
        Some((_, block)) => block,
        None => 0,
    }
}

/// The place that a region's labels go by: that of its leaf, where arms stand at one.
pub fn tree_place(list: &[Region], place: u32) -> u32
    requires { AreEarlier list.now }
    ensures place { result ≡ trees.place_of (tree_at list.now place) }
    ensures within { result ≤ length list.now }
{
    match region_at(list, place) {
        Some(Region::Arms { first, .. }) => leaf_place(list, *first),
        Some(
            Region::Leaf { .. }
            | Region::Then { .. }
            | Region::Loop { .. }
            | Region::Dispatch { .. },
        ) => place,
        None => 0,
    }
}

/// The place of the leaf at which arms of a region stand; 0 where none stands.
fn leaf_place(list: &[Region], place: u32) -> u32
    requires { AreEarlier list.now }
    ensures place { (arms : Arms) → result ≡ trees.place_of (with_arms (tree_at list.now place) arms) }
    ensures within { result ≤ length list.now }
{
    match leaf_at(list, place) {
        Some((leaf, _)) => leaf,
        None => 0,
    }
}

/// Whether a region begins with a leaf.
pub fn begins_plainly(list: &[Region], place: u32) -> bool
    requires { AreEarlier list.now }
    ensures { result ≡ trees.begins_plainly (tree_at list.now place) }
{
    match region_at(list, place) {
        Some(Region::Then { first, .. }) => begins_plainly(list, *first),
        Some(Region::Loop { .. } | Region::Dispatch { .. }) => false,
        Some(Region::Leaf { .. } | Region::Arms { .. }) | None => true,
    }
}

/// Notes the label of an arm, unless an earlier arm runs for its block.
#[tactic(auto, using(crate::proofs::ArmLabels::labels_stay, crate::proofs::ArmLabels::label_added))]
fn add_label(labels: &mut IndexMap<u32, u32>, target: u32, label: u32) -> Result<(), OutOfMemory>
    ensures { OnOk result ((k : ℕ) → get nat_eq labels.new k ≡ option_or (get nat_eq labels.old k) (if nat_eq k target then Some label else None)) }
{
    match labels.get(&target) {
        Some(_) => Ok(()),
        None => match labels.insert(target, label) {
            Ok(_) => Ok(()),
            Err(_) => Err(OutOfMemory),
        },
    }
}

/// For each block that has an arm, the label at which its first arm begins.
#[tactic(auto, using(crate::proofs::ArmLabels::labels_next))]
pub fn arm_labels(
    alloc: Global,
    list: &[Region],
    arms: &[(u32, u32)],
) -> Result<IndexMap<u32, u32>, OutOfMemory>
    requires few { length list.now ≤ 0x0001_0000 }
    requires earlier { AreEarlier list.now }
    ensures { IfOk result (λ labels. (k : ℕ) → get nat_eq labels k ≡ arm_label (arms_of (tree_at list.now) arms.now) k) }
{
    let mut labels = IndexMap::new(alloc);
    for arm in arms {
        add_label(&mut labels, arm.0, entry_label(list, arm.1))?;
    }
    Ok(labels)
}
