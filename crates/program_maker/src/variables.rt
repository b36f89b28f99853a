ghost use Rattle.std.specs.Prelude.{◌≡◌, ◌<◌, ◌^◌, ◌∷◌, ◌++◌, [], IfOk, OnOk, length, get_or, true, false, ℕ, if◌then◌else◌};
ghost use Rattle.profile_tables.specs.Places.{words_at as words_in};
ghost use Rattle.program_maker.specs.Marks.{AreCounts, words_marked};

use crate::ranks::counted;
use dx_base::{List, Numbers, OutOfMemory};
use profile_lines::Pool;
use profile_tables::words_at;
use std::alloc::Global;

/// How many variables are named before each one.
pub fn arrays_of(alloc: Global, named: &[bool]) -> Result<Numbers, OutOfMemory>
    requires { length named.now < 2 ^ 32 }
    ensures { IfOk result (λ arrays. AreCounts named.now arrays) }
{
    let mut arrays = List::new(alloc);
    let mut count = 0;
    for is_named in named {
        if arrays.push(count).is_err() {
            return Err(OutOfMemory);
        }
        count = counted(count, *is_named);
    }
    Ok(arrays)
}

fn add_words(
    shared: &mut Numbers,
    pool: &Pool,
    variable: u32,
    is_named: bool,
) -> Result<(), OutOfMemory>
    requires { is_named ≡ true → words_in pool.now variable < 2 ^ 32 }
    ensures { OnOk result (shared.new ≡ shared.old ++ (if is_named then words_in pool.now variable ∷ [] else [])) }
{
    if !is_named {
        return Ok(());
    }
    match shared.push(words_at(pool, variable) as u32) {
        Ok(()) => Ok(()),
        Err(_) => Err(OutOfMemory),
    }
}

/// The words of each variable that is named.
pub fn shared_of(alloc: Global, pool: &Pool, named: &[bool]) -> Result<Numbers, OutOfMemory>
    requires few { length named.now < 2 ^ 32 }
    requires small { (v : ℕ) → get_or named.now v false ≡ true → words_in pool.now v < 2 ^ 32 }
    ensures { IfOk result (λ shared. shared ≡ words_marked pool.now named.now) }
{
    let mut shared = List::new(alloc);
    for variable in 0..named.len() {
        add_words(&mut shared, pool, variable as u32, named[variable])?;
    }
    Ok(shared)
}
