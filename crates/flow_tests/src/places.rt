ghost use Rattle.std.specs.Prelude.{◌<◌, ◌^◌, length};

use key_places::FirstPlaces;
use std::alloc::{AllocError, Global};
use std::process::Abort;
use std::test::Fail;

/// The first places of keys that stand at their places.
fn first_places(alloc: Global, keys: &[u32]) -> Result<FirstPlaces, AllocError>
    requires { length keys.now < 2 ^ 32 }
{
    let mut pairs = Vec::with_capacity(alloc, keys.len())?;
    for (place, key) in keys.iter().enumerate() {
        pairs.push((*key, place as u32))?;
    }
    Ok(FirstPlaces::of(pairs))
}

fn expect_first(
    rt: &impl Abort,
    alloc: Global,
    keys: &[u32],
    key: u32,
    want: Option<u32>,
) -> Result<(), Fail> {
    assert!(rt; keys.len() < 100);
    assert_eq!(rt;
        first_places(alloc, keys)?.get(key),
        want,
        "{key} in {keys:?}"
    );
    Ok(())
}

#[test]
fn a_key_has_the_place_at_which_it_stands_first(rt: HostRuntime) -> Result<(), Fail> {
    let alloc = rt.alloc();
    expect_first(&rt, alloc, &[], 0, None)?;
    expect_first(&rt, alloc, &[4, 9, 4, 9, 4], 9, Some(1))?;
    expect_first(&rt, alloc, &[u32::MAX, 0, u32::MAX], u32::MAX, Some(0))?;
    for (key, want) in [
        (8, Some(0)),
        (2, Some(1)),
        (6, Some(2)),
        (1, None),
        (5, None),
        (9, None),
    ] {
        expect_first(&rt, alloc, &[8, 2, 6, 2, 8, 6], key, want)?;
    }
    Ok(())
}
