ghost use Rattle.std.specs.Prelude.{◌≡◌, ◌<◌, ◌≤◌, ◌+◌, ◌^◌, IfOk, length, count_by, if◌then◌else◌};
ghost use Rattle.program_maker.specs.Order as is;

use crate::order::Keyed;
use dx_base::OutOfMemory;
use std::alloc::Global;

/// One more, if this one counts.
pub fn counted(count: u32, counts: bool) -> u32
    requires { count + 1 < 2 ^ 32 }
    ensures { result ≡ count + (if counts then 1 else 0) }
{
    if counts { count + 1 } else { count }
}

fn rank_all(ranks: &mut [u32], named: &[bool], order: &[Keyed])
    requires same_length { length ranks.old ≡ length named.now }
    requires places { is.ArePlaces (length named.now) order.now }
    requires few { count_by (is.is_named named.now) order.now ≤ 1024 }
    ensures { is.AreRanks named.now order.now ranks.new }
{
    let mut count = 0;
    for entry in order {
        ranks[entry.1] = count;
        count = counted(count, named[entry.1]);
    }
}

/// How many named rows stand before each row, by the row's place.
pub fn ranks_of(alloc: Global, named: &[bool], order: &[Keyed]) -> Result<Vec<u32>, OutOfMemory>
    requires places { is.ArePlaces (length named.now) order.now }
    requires few { count_by (is.is_named named.now) order.now ≤ 1024 }
    ensures { IfOk result (λ ranks. is.AreRanks named.now order.now ranks.items) }
{
    let Ok(mut ranks) = vec![in alloc; 0; named.len()] else {
        return Err(OutOfMemory);
    };
    rank_all(ranks.as_mut_slice(), named, order);
    Ok(ranks)
}
