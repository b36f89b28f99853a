//! Regions as short texts.

use dxil_form::Region;
use std::alloc::Global;
use std::test::Fail;

/// The text of the region at a place, if it is there.
fn text(texts: &[String], place: u32) -> &str {
    match texts.get(place as usize) {
        Some(text) => text.as_str(),
        None => "?",
    }
}

/// The texts of the regions at some places, with spaces between them.
fn joined(alloc: Global, texts: &[String], places: &[u32]) -> Result<String, Fail> {
    let mut all = String::new(alloc);
    for (i, place) in places.iter().enumerate() {
        if i > 0 {
            all.push(' ')?;
        }
        all.push_str(text(texts, *place))?;
    }
    Ok(all)
}

/// The places of arms.
fn places(alloc: Global, arms: &[(u32, u32)]) -> Result<Vec<u32>, Fail> {
    let mut places = Vec::new(alloc);
    for arm in arms {
        places.push(arm.1)?;
    }
    Ok(places)
}

/// A leaf is its block, `(a>b)` goes on, `[a]` goes round, `{a|b c}` has arms, and `<a b>` dispatches.
fn region_text(alloc: Global, texts: &[String], region: &Region) -> Result<String, Fail> {
    match region {
        Region::Leaf { block } => Ok(format!(in alloc; "{block}")?),
        Region::Then { first, second, .. } => {
            Ok(format!(in alloc; "({}>{})", text(texts, *first), text(texts, *second))?)
        }
        Region::Loop { body, .. } => Ok(format!(in alloc; "[{}]", text(texts, *body))?),
        Region::Dispatch { arms } => {
            let arms = joined(alloc, texts, arms.as_slice())?;
            Ok(format!(in alloc; "<{arms}>")?)
        }
        Region::Arms { first, arms } => {
            let places = places(alloc, arms.as_slice())?;
            let arms = joined(alloc, texts, &places)?;
            Ok(format!(in alloc; "{{{}|{arms}}}", text(texts, *first))?)
        }
    }
}

/// The text of the last region.
pub fn show(alloc: Global, list: &[Region]) -> Result<String, Fail> {
    let mut texts = Vec::new(alloc);
    for region in list {
        let next = region_text(alloc, &texts, region)?;
        texts.push(next)?;
    }
    match texts.pop() {
        Some(last) => Ok(last),
        None => Ok(String::new(alloc)),
    }
}
