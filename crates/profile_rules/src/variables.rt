ghost use Rattle.std.specs.Prelude.{◌≡◌, length, []};
ghost use Rattle.profile_rules.specs.Seen.{IsPlaceNoted};

use profile_lines::Pool;
use profile_tables::{Place, words_at};

/// The groupshared variables that are named.
#[derive(Debug, Drop)]
pub struct Variables {
    /// Whether a variable is named, by its number.
    pub named: Vec<bool>,
    /// The words of those that are.
    pub words: u64,
}

/// Notes the variable of a place.
fn note(named: &mut [bool], words: &mut u64, pool: &Pool, place: Option<Place>)
    ensures { IsPlaceNoted pool.now place named.old named.new words.old words.new }
{
    let before = *words;
    let Some(place) = place else {
        return;
    };
    let variable = place.variable as usize;
    if variable < named.len() && !named[variable] {
        named[variable] = true;
        *words = before.saturating_add(words_at(pool, place.variable));
    }
}

impl Variables {
    /// Notes the variable of a place that a line names.
    pub fn note(&mut self, pool: &Pool, place: Option<Place>)
        ensures { IsPlaceNoted pool.now place self.old.named.items self.new.named.items self.old.words self.new.words }
    {
        note(self.named.as_mut_slice(), &mut self.words, pool, place);
    }
}
