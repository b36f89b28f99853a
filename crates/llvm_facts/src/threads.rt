ghost use Rattle.std.specs.Prelude.{◌≡◌, Some, get_or};
ghost use Rattle.llvm_facts.specs.Values.{node_at};
ghost use Rattle.llvm_facts.specs.Entry as is;

use crate::lookup::Lookup;
use crate::tags::{are_tags, count_tag, is_i32, tagged};

/// The tag of the thread counts.
const THREADS: u32 = 4;

/// The field at a place, or 0.
pub fn field_at(fields: &[u32], at: usize) -> u32
    ensures { result ≡ get_or fields.now at 0 }
{
    match fields.get(at) {
        Some(field) => *field,
        None => 0,
    }
}

/// Whether a field names a node of three `i32` constants.
fn are_counts(lookup: &Lookup, field: u32) -> bool
    ensures { result ≡ is.are_counts lookup.now (node_at lookup.now field) }
{
    match lookup.node(field) {
        Some(fields) => fields.len() == 3 && fields.iter().all(|field| is_i32(lookup, *field)),
        None => false,
    }
}

/// Whether a field names a node of tags that tells three thread counts.
pub fn has_threads(lookup: &Lookup, field: u32) -> bool
    ensures { result ≡ is.has_threads lookup.now (node_at lookup.now field) }
{
    match lookup.node(field) {
        Some(fields) => {
            fields.len() % 2 == 0
                && are_tags(lookup, fields)
                && count_tag(lookup, THREADS, fields) == 1
                && are_counts(lookup, tagged(lookup, THREADS, fields))
        }
        None => false,
    }
}

/// The field that names the thread counts of an entry node.
pub fn counts_field(lookup: &Lookup, entry: &[u32]) -> u32
    ensures { result ≡ is.counts_field lookup.now entry.now }
{
    tagged(lookup, THREADS, lookup.fields(field_at(entry, 4)))
}

/// The thread counts that a field names.
pub fn counts(lookup: &Lookup, field: u32) -> [u32; 3]
    ensures { result ≡ is.counts lookup.now (is.fields_at lookup.now field) }
{
    let fields = lookup.fields(field);
    [
        lookup.number(field_at(fields, 0)),
        lookup.number(field_at(fields, 1)),
        lookup.number(field_at(fields, 2)),
    ]
}

/// Whether a count is 0, the first or second is above 1024, the third above 64, or their product above 1024.
pub fn is_outside(x: u32, y: u32, z: u32) -> bool
    ensures { result ≡ is.is_outside x y z }
{
    x == 0 || y == 0 || z == 0 || 1024 < x || 1024 < y || 64 < z || 1024 < x * y * z
}
