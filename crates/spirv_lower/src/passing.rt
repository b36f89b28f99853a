ghost use Rattle.std.specs.Prelude.{◌≡◌, Some};
ghost use Rattle.std.specs.List.{list_any};
ghost use Rattle.spirv_code.specs.Further as further;

use dxil_form::{Block, Program, Region, Term};

/// How many pairs one switch instruction takes.
const MOST_PAIRS: usize = 16_383;

/// Whether a block ends in a switch of more cases than one selection takes.
fn has_many_cases(block: &Block) -> bool
    ensures { result ≡ further.many_cases (Some block.now) }
{
    match &block.term {
        Term::Switch { cases, .. } => cases.len() > MOST_PAIRS,
        Term::Ret | Term::Unreachable | Term::Go(_) | Term::If { .. } => false,
    }
}

/// Whether a leaf has such a block.
fn is_split(p: &Program, region: &Region) -> bool
    ensures { result ≡ further.is_split p.now region.now }
{
    match region {
        Region::Leaf { block } => match p.blocks.get(*block as usize) {
            Some(block) => has_many_cases(block),
            None => false,
        },
        Region::Then { .. } | Region::Loop { .. } | Region::Dispatch { .. } | Region::Arms { .. } =>
            { false }
    }
}

/// Whether any leaf has such a block.
pub fn picks(p: &Program, list: &[Region]) -> bool
    ensures { result ≡ further.picks p.now list.now }
{
    for region in list {
        if is_split(p, region) {
            return true;
        }
    }
    false
}

/// Whether a region goes on by which block is wanted.
fn passes(region: &Region) -> bool
    ensures { result ≡ further.passes region.now }
{
    match region {
        Region::Then { .. } | Region::Loop { .. } | Region::Dispatch { .. } => true,
        Region::Leaf { .. } | Region::Arms { .. } => false,
    }
}

/// Whether any region goes on by which block is wanted.
fn any_passes(list: &[Region]) -> bool
    ensures { result ≡ list_any further.passes list.now }
{
    for region in list {
        if passes(region) {
            return true;
        }
    }
    false
}

/// Whether any block is ever wanted.
pub fn wants(p: &Program, list: &[Region]) -> bool
    ensures { result ≡ further.wants p.now list.now }
{
    any_passes(list) || picks(p, list)
}
