ghost use Rattle.std.specs.Prelude.{◌≡◌, ◌↔◌, IsTrue};
ghost use Rattle.dxil_meaning.specs.Source as source;
ghost use Rattle.dxil_meaning.specs.Fits.{SizeFits, SizesFit};

use dx_base::Numbers;
use dxil_form::{Kind, Program, Resource};

/// Tells whether a launch may have these sizes of the resources, in words.
///
/// There must be one size for each resource, four words at least for each row of a constant buffer, and fewer than 2^30 words in each.
pub fn fits_launch(p: &Program, sizes: &Numbers) -> bool
    ensures { IsTrue result ↔ SizesFit p.now sizes.now }
{
    p.resources.len() == sizes.len()
        && p.resources
            .as_slice()
            .iter()
            .zip(sizes.as_slice())
            .all(|(resource, size)| fits(resource, *size))
}

/// Tells whether a resource may have this many words.
fn fits(resource: &Resource, size: u32) -> bool
    ensures { IsTrue result ↔ SizeFits resource.now size }
{
    4 * u64::from(rows_of(resource.kind)) <= u64::from(size) && size < 1 << 30
}

/// The rows of a constant buffer; 0 for another resource.
fn rows_of(kind: Kind) -> u32
    ensures { result ≡ source.rows_of kind }
{
    match kind {
        Kind::Constant { rows } => rows,
        Kind::Raw | Kind::Structured { .. } => 0,
    }
}
