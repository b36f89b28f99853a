ghost use Rattle.std.specs.Prelude.{◌≡◌, ℕ, nat_lt};
ghost use Rattle.std.specs.FinMap as map;
ghost use Rattle.key_places.specs.Places.{first_place, AreInOrder};

use std::marker::Model;

const _: () = prove!(size_of::<(u32, u32)>() == 8);

/// The first place of each key. Contracts see the map from keys to places.
#[derive(Debug, Drop)]
pub struct FirstPlaces {
    /// By key, and then by place.
    sorted: Vec<(u32, u32)>,
}

impl Model for FirstPlaces {
    ghost use Rattle.std.specs.Prelude.{ℕ};
    ghost use Rattle.std.specs.Ordering.{nat_cmp};
    ghost use Rattle.std.specs.List.Sorted.{IsNonDecreasingBy};
    ghost use Rattle.std.specs.FinMap as map;
    ghost use Rattle.std.specs.Coded.{coded_ℕ};

    ghost Value = { map.FinMap nat_cmp ℕ };

    ghost coded = { map.code coded_ℕ coded_ℕ };

    ghost view = { λ s. map.from_entries s.sorted.items };

    ghost invariant = { λ s. IsNonDecreasingBy (λ pair. pair.0) s.sorted.items };
}

impl FirstPlaces {
    /// Keeps the first place of each key.
    pub fn of(mut pairs: Vec<(u32, u32)>) -> FirstPlaces
        requires { AreInOrder pairs.items }
        ensures { (key : ℕ) → map.get result key ≡ first_place pairs.items key }
    {
        pairs.sort_unstable();
        FirstPlaces { sorted: pairs }
    }

    /// The first place of a key; `None` where it has none.
    pub fn get(&self, key: u32) -> Option<u32>
        ensures { result ≡ map.get self.now key }
    {
        let sorted = self.sorted.as_slice();
        let before = sorted.partition_point(
            |pair: &(u32, u32)| -> bool
                ensures { result ≡ nat_lt pair.now.0 key }
            { pair.0 < key },
        );
        let (found, place) = sorted.get(before).copied()?;
        if found == key { Some(place) } else { None }
    }
}
