ghost use Rattle.std.specs.Prelude.{◌≡◌, ◌+◌, ◌<◌, ◌^◌, length, IfOk, if◌then◌else◌};
ghost use Rattle.bitstream_spelling.specs.Framed.{IsFramed};
ghost use Rattle.llvm_values.specs.Values.{body_count, value_count};

use crate::module::{has_body, takes_value};
use bitstream_spelling::{Item, Items};
use dx_base::OutOfMemory;
use llvm_items::OpenBlocks;
use std::alloc::Global as Heap;

/// The count, one more where the item counts.
pub fn counted(count: u32, counts: bool) -> u32
    requires { count + 1 < 2 ^ 32 }
    ensures { result ≡ (if counts then count + 1 else count) }
{
    if counts { count + 1 } else { count }
}

fn values_in(alloc: Heap, list: &[Item]) -> Result<u32, OutOfMemory>
    requires { length list.now < 2 ^ 32 }
    ensures { IfOk result (λ count. count ≡ value_count list.now) }
{
    let mut around = OpenBlocks::new(alloc);
    let mut count = 0u32;
    for item in list {
        count = counted(count, takes_value(&around, *item));
        around.pass(*item)?;
    }
    Ok(count)
}

fn bodies_in(alloc: Heap, list: &[Item], fields: &[u64]) -> Result<u32, OutOfMemory>
    requires { IsFramed list.now fields.now }
    ensures { IfOk result (λ count. count ≡ body_count list.now fields.now) }
{
    let mut around = OpenBlocks::new(alloc);
    let mut count = 0u32;
    for item in list {
        count = counted(count, has_body(&around, *item, fields));
        around.pass(*item)?;
    }
    Ok(count)
}

/// How many values the module has.
pub fn count_values(alloc: Heap, items: &Items) -> Result<u32, OutOfMemory>
    requires { IsFramed items.now.list items.now.fields }
    ensures { IfOk result (λ count. count ≡ value_count items.now.list) }
{
    values_in(alloc, items.list.as_slice())
}

/// How many functions of the module have a body.
pub fn count_bodies(alloc: Heap, items: &Items) -> Result<u32, OutOfMemory>
    requires { IsFramed items.now.list items.now.fields }
    ensures { IfOk result (λ count. count ≡ body_count items.now.list items.now.fields) }
{
    bodies_in(alloc, items.list.as_slice(), items.fields.as_slice())
}
