ghost use Rattle.std.specs.Prelude.{◌≡◌, ◌<◌, length};
ghost use Rattle.flow_scans.specs.Spans.{Below};

use flow_scans::{
    RangeMax, Runs, Span, first_ends, greatest_ends, last_holders, last_overs, least_firsts,
};
use std::alloc::Global;
use std::process::Abort;
use std::test::Fail;

fn span(first: u32, end: u32) -> Span {
    Span { first, end }
}

/// Stops where a span names a block that is not below the count.
fn expect_below(rt: &impl Abort, spans: &[Span], count: usize)
    ensures { Below count spans.now }
{
    for at in spans {
        assert!(rt; (at.first as usize) < count);
        assert!(rt; (at.end as usize) < count);
    }
}

fn expect_equal(rt: &impl Abort, found: &[u32], want: &[u32]) {
    assert_eq!(rt; found, want);
}

#[test]
fn spans_that_cross_or_end_early_are_told_block_by_block(rt: HostRuntime) -> Result<(), Fail> {
    let alloc = rt.alloc();
    let spans = [span(0, 6), span(1, 3), span(2, 5), span(4, 4), span(5, 1)];
    expect_below(&rt, spans.as_slice(), 7);
    let none = u32::MAX;
    expect_equal(
        &rt,
        &least_firsts(alloc, &spans, 7)?,
        &[none, 5, none, 1, 4, 2, 0],
    );
    expect_equal(
        &rt,
        &greatest_ends(alloc, &spans, 7)?,
        &[6, 3, 5, 0, 4, 1, 0],
    );
    expect_equal(
        &rt,
        &first_ends(alloc, &spans, 7, 0)?,
        &[6, 3, 3, 5, 5, 6, 7],
    );
    expect_equal(
        &rt,
        &first_ends(alloc, &spans, 7, 1)?,
        &[7, 6, 3, 5, 5, 6, 7],
    );
    expect_equal(&rt, &last_overs(alloc, &spans, 7)?, &[0, 1, 2, 3, 3, 1, 0]);
    expect_equal(
        &rt,
        &last_holders(alloc, &spans, 7)?,
        &[1, 2, 3, 3, 3, 1, 0],
    );
    Ok(())
}

#[test]
fn a_range_is_empty_or_has_a_number_above_a_bound(rt: HostRuntime) -> Result<(), Fail> {
    let alloc = rt.alloc();
    let values = Vec::from_slice(alloc, &[3, 1, 4, 1, 5, 9, 2])?;
    let table = RangeMax::new(alloc, values)?;
    for (from, to, bound, want) in [
        (0, 7, 8, true),
        (0, 7, 9, false),
        (0, 5, 4, true),
        (0, 4, 4, false),
        (3, 3, 0, false),
        (5, 2, 0, false),
        (6, 7, 1, true),
        (6, 7, 2, false),
        (1, 4, 3, true),
    ] {
        assert!(rt; to <= 7);
        assert_eq!(rt; table.exceeds(from, to, bound), want, "{from} to {to}");
    }
    Ok(())
}

fn next(seed: &mut u32) -> u32 {
    *seed = seed.wrapping_mul(1664525).wrapping_add(1013904223);
    *seed >> 16
}

/// Looks up ranges of as many numbers, and goes through each range beside it.
fn expect_as_a_scan(rt: &impl Abort, alloc: Global, count: usize) -> Result<(), Fail> {
    let mut seed = 1;
    let mut values = Vec::new(alloc);
    for _ in 0..count {
        values.push(next(&mut seed))?;
    }
    assert!(rt; values.len() <= 5000);
    let table = RangeMax::new(alloc, values.clone()?)?;
    for _ in 0..100 {
        let from = next(&mut seed) as usize % (values.len() + 1);
        let to = next(&mut seed) as usize % (values.len() + 1);
        let most = values
            .iter()
            .take(to)
            .skip(from)
            .fold(0, |most: u32, value: &u32| most.max(*value));
        assert!(rt; !table.exceeds(from, to, most), "{from} to {to}");
        assert!(rt;
            most == 0 || table.exceeds(from, to, most - 1),
            "{from} to {to}"
        );
    }
    Ok(())
}

#[test]
fn ranges_of_lists_about_the_widths_of_chunks_are_as_a_scan_finds_them(
    rt: HostRuntime,
) -> Result<(), Fail> {
    for count in [0, 1, 15, 16, 17, 255, 256, 257, 5000] {
        expect_as_a_scan(&rt, rt.alloc(), count)?;
    }
    Ok(())
}

fn expect_kept(rt: &impl Abort, alloc: Global, numbers: &[u32]) -> Result<(), Fail> {
    assert!(rt; numbers.len() < 100);
    let runs = Runs::of(alloc, numbers)?;
    assert_eq!(rt; runs.len(), numbers.len());
    for (place, number) in numbers.iter().enumerate() {
        assert!(rt; place < runs.len());
        assert_eq!(rt; runs.at(place), *number, "at {place}");
    }
    Ok(())
}

#[test]
fn runs_keep_each_number(rt: HostRuntime) -> Result<(), Fail> {
    let alloc = rt.alloc();
    expect_kept(&rt, alloc, &[])?;
    expect_kept(&rt, alloc, &[7, 7, 7])?;
    expect_kept(&rt, alloc, &[3, 1, 0, 2])?;
    expect_kept(&rt, alloc, &[5, 0, 0, 0, 5])?;
    Ok(())
}
