ghost use Rattle.std.specs.Prelude.{◌≡◌, ◌+◌, ◌<◌, ◌^◌, is_some, count_by, if◌then◌else◌};
ghost use Rattle.std.specs.List.{list_all};
ghost use Rattle.llvm_facts.specs.Values.{i32_at};
ghost use Rattle.llvm_facts.specs.Tags as is;

use crate::lookup::Lookup;

/// Whether there is a number, and it is the one that is wanted.
pub fn says(number: Option<u32>, wanted: u32) -> bool
    ensures { result ≡ is.says wanted number }
{
    match number {
        Some(number) => number == wanted,
        None => false,
    }
}

/// Whether a field names an `i32` constant.
pub fn is_i32(lookup: &Lookup, field: u32) -> bool
    ensures { result ≡ is_some (i32_at lookup.now field) }
{
    lookup.i32(field).is_some()
}

/// Whether a field names the `i32` constant that is wanted.
fn is_tag(lookup: &Lookup, tag: u32, field: u32) -> bool
    ensures { result ≡ is.says tag (i32_at lookup.now field) }
{
    says(lookup.i32(field), tag)
}

/// Whether the tags of a node are `i32` constants.
pub fn are_tags(lookup: &Lookup, fields: &[u32]) -> bool
    ensures { result ≡ list_all (λ pair. is_some (i32_at lookup.now pair.0)) (is.pairs fields.now) }
{
    for k in 0..fields.len() / 2 {
        if !is_i32(lookup, fields[2 * k]) {
            return false;
        }
    }
    true
}

/// The count, one more where it is so.
fn counted(count: usize, so: bool) -> usize
    requires { count < 2 ^ 63 }
    ensures { result ≡ (if so then count + 1 else count) }
{
    if so { count + 1 } else { count }
}

/// How many pairs of a node have the tag.
pub fn count_tag(lookup: &Lookup, tag: u32, fields: &[u32]) -> usize
    ensures { result ≡ count_by (is.has_tag lookup.now tag) (is.pairs fields.now) }
{
    let mut count = 0;
    for k in 0..fields.len() / 2 {
        count = counted(count, is_tag(lookup, tag, fields[2 * k]));
    }
    count
}

/// The field of the first pair of a node that has the tag, or 0.
pub fn tagged(lookup: &Lookup, tag: u32, fields: &[u32]) -> u32
    ensures { result ≡ is.tagged lookup.now tag fields.now }
{
    for k in 0..fields.len() / 2 {
        if is_tag(lookup, tag, fields[2 * k]) {
            return fields[2 * k + 1];
        }
    }
    0
}
