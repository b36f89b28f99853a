ghost use Rattle.std.specs.Prelude.{◌≡◌, ◌+◌, ◌-◌, ◌<◌, ◌≤◌, ◌^◌, ℕ, length, slice_index, replicate, IfOk};
ghost use Rattle.flow_scans.specs.Spans.{Below, AreLeastFirsts, AreGreatestEnds, AreFirstEnds, AreLastOvers, FirstBehind, FirstsBehind, LastBefore, LastsBefore, LastsHolding, LowerStep, UpperStep};

use dx_base::OutOfMemory;
use std::alloc::Global;

/// Two numbers of blocks: those from `first` on and before `end`, or an edge.
#[derive(Clone, Copy, Debug)]
pub struct Span {
    pub first: u32,
    pub end: u32,
}

/// As many equal numbers.
pub(crate) fn same_numbers(
    alloc: Global,
    number: u32,
    count: usize,
) -> Result<Vec<u32>, OutOfMemory>
    ensures items { IfOk result (λ v. v.items ≡ replicate count number) }
    ensures len { IfOk result (λ v. length v.items ≡ count) }
{
    match vec![in alloc; number; count] {
        Ok(numbers) => Ok(numbers),
        Err(_) => Err(OutOfMemory),
    }
}

fn lower(table: &mut Vec<u32>, span: Span)
    requires { span.end < length table.old.items }
    ensures len { length table.new.items ≡ length table.old.items }
    ensures step { LowerStep table.old.items table.new.items span }
{
    let at = span.end as usize;
    if span.first < table[at] {
        table[at] = span.first;
    }
}

fn raise(table: &mut Vec<u32>, span: Span)
    requires { span.first < length table.old.items }
    ensures len { length table.new.items ≡ length table.old.items }
    ensures step { UpperStep table.old.items table.new.items span }
{
    let at = span.first as usize;
    if table[at] < span.end {
        table[at] = span.end;
    }
}

/// The least first number of the spans with each end, or `u32::MAX` where there is none.
pub fn least_firsts(alloc: Global, spans: &[Span], count: usize) -> Result<Vec<u32>, OutOfMemory>
    requires { Below count spans.now }
    ensures len { IfOk result (λ v. length v.items ≡ count) }
    ensures each { IfOk result (λ v. AreLeastFirsts spans.now count v.items) }
{
    let mut table = same_numbers(alloc, u32::MAX, count)?;
    for span in spans {
        lower(&mut table, *span);
    }
    Ok(table)
}

/// The greatest end of the spans with each first number, or 0 where there is none.
pub fn greatest_ends(alloc: Global, spans: &[Span], count: usize) -> Result<Vec<u32>, OutOfMemory>
    requires { Below count spans.now }
    ensures len { IfOk result (λ v. length v.items ≡ count) }
    ensures each { IfOk result (λ v. AreGreatestEnds spans.now count v.items) }
{
    let mut table = same_numbers(alloc, 0, count)?;
    for span in spans {
        raise(&mut table, *span);
    }
    Ok(table)
}

/// The least end behind q of a span that begins early enough, found by going from one answer to the next: together they are the stack.
fn climb_up(near: &[u32], out: &[u32], q: usize, gap: u32) -> usize
    requires len { length out.now ≡ length near.now }
    requires within { q < length near.now }
    requires known { FirstsBehind near.now gap (q + 1) out.now }
    ensures { FirstBehind near.now gap q result }
{
    let mut c = q + 1;
    while c < near.len() && near[c] as u64 + gap as u64 > q as u64 {
        c = out[c] as usize;
    }
    c
}

/// For each block the least end behind it of a span whose first number lies at least `gap` before it, or the count where there is none.
pub fn first_ends(
    alloc: Global,
    spans: &[Span],
    count: usize,
    gap: u32,
) -> Result<Vec<u32>, OutOfMemory>
    requires below { Below count spans.now }
    requires count { count < 2 ^ 32 }
    ensures len { IfOk result (λ v. length v.items ≡ count) }
    ensures each { IfOk result (λ v. AreFirstEnds spans.now gap count v.items) }
{
    let near = least_firsts(alloc, spans, count)?;
    let mut out = same_numbers(alloc, 0, count)?;
    let mut q = count;
    while q > 0 {
        q -= 1;
        out[q] = climb_up(near.as_slice(), out.as_slice(), q, gap) as u32;
    }
    Ok(out)
}

/// One more than the last first number before q of a span that reaches over q, or 0.
fn climb_down(far: &[u32], out: &[u32], q: usize) -> usize
    requires len { length out.now ≡ length far.now }
    requires within { q < length far.now }
    requires known { LastsBefore far.now q out.now }
    ensures { LastBefore far.now q result }
{
    let mut c = q;
    while c > 0 && far[c - 1] as usize <= q {
        c = out[c - 1] as usize;
    }
    c
}

fn lasts_before(alloc: Global, far: &[u32]) -> Result<Vec<u32>, OutOfMemory>
    requires { length far.now < 2 ^ 32 }
    ensures len { IfOk result (λ v. length v.items ≡ length far.now) }
    ensures each { IfOk result (λ v. LastsBefore far.now (length far.now) v.items) }
{
    let mut out = same_numbers(alloc, 0, far.len())?;
    for q in 0..far.len() {
        out[q] = climb_down(far, out.as_slice(), q) as u32;
    }
    Ok(out)
}

/// Takes the spans in that begin at the block itself.
fn take_own(far: &[u32], out: &mut Vec<u32>)
    requires small { length far.now < 2 ^ 32 }
    requires len { length out.old.items ≡ length far.now }
    requires known { LastsBefore far.now (length far.now) out.old.items }
    ensures len { length out.new.items ≡ length far.now }
    ensures each { LastsHolding far.now (length far.now) out.new.items }
{
    for q in 0..far.len() {
        if far[q] as usize > q {
            out[q] = q as u32 + 1;
        }
    }
}

/// For each block one more than the last first number before it of a span that reaches over it, or 0 where there is none.
pub fn last_overs(alloc: Global, spans: &[Span], count: usize) -> Result<Vec<u32>, OutOfMemory>
    requires below { Below count spans.now }
    requires count { count < 2 ^ 32 }
    ensures len { IfOk result (λ v. length v.items ≡ count) }
    ensures each { IfOk result (λ v. AreLastOvers spans.now 1 count v.items) }
{
    let far = greatest_ends(alloc, spans, count)?;
    let out = lasts_before(alloc, far.as_slice())?;
    Ok(out)
}

/// For each block one more than the last first number of a span that holds it, or 0 where there is none.
pub fn last_holders(alloc: Global, spans: &[Span], count: usize) -> Result<Vec<u32>, OutOfMemory>
    requires below { Below count spans.now }
    requires count { count < 2 ^ 32 }
    ensures len { IfOk result (λ v. length v.items ≡ count) }
    ensures each { IfOk result (λ v. AreLastOvers spans.now 0 count v.items) }
{
    let far = greatest_ends(alloc, spans, count)?;
    let mut out = lasts_before(alloc, far.as_slice())?;
    take_own(far.as_slice(), &mut out);
    Ok(out)
}
