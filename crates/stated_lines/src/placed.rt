ghost use Rattle.std.specs.Prelude.{◌≡◌};
ghost use Rattle.stated_program.specs.Accesses.{buffer, array};
ghost use Rattle.stated_lines.specs.Places.{ArePlaced as AreTables, IsInModule};

use dx_base::Numbers;
use dxil_form::Target;
use profile_tables::{Place, Scope};
use std::marker::Model;

/// The body of the entry function, with the places of its rows and variables in the program.
#[derive(Drop)]
pub struct Placed<'a> {
    scope: &'a Scope<'a>,
    ranks: Vec<u32>,
    arrays: Numbers,
}

impl<'a> Model for Placed<'a> {
    ghost use Rattle.profile_tables.specs.EntryBody.{EntryBody};
    ghost use Rattle.stated_lines.specs.Places.{ArePlaced};

    ghost Value = { EntryBody };

    ghost view = { λ s. s.scope.now };

    ghost invariant = { λ s. ArePlaced s.scope.now s.ranks.items s.arrays };
}

impl<'a> Placed<'a> {
    /// The body with these tables.
    pub fn new(scope: &'a Scope<'a>, ranks: Vec<u32>, arrays: Numbers) -> Placed<'a>
        requires { AreTables scope.now ranks.items arrays }
        ensures { result ≡ scope.now }
    {
        Placed {
            scope,
            ranks,
            arrays,
        }
    }

    pub fn scope(&self) -> &'a Scope<'a>
        ensures { result.now ≡ self.now }
    {
        self.scope
    }

    /// The memory of a buffer, by the place of its row.
    pub fn buffer(&self, row: Option<usize>) -> Target
        ensures { result ≡ buffer self.now row }
    {
        match row {
            Some(row) => match self.ranks.as_slice().get(row) {
                Some(rank) => Target::Buffer(*rank),
                None => Target::Buffer(0),
            },
            None => Target::Buffer(0),
        }
    }

    /// The memory of a groupshared array, by a place in it.
    pub fn array(&self, place: Option<Place>) -> Target
        requires { IsInModule self.now place }
        ensures { result ≡ array self.now place }
    {
        match place {
            Some(place) => match self.arrays.get(place.variable as usize) {
                Some(array) => Target::Shared(*array),
                None => Target::Shared(0),
            },
            None => Target::Shared(0),
        }
    }
}
