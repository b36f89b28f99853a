ghost use Rattle.std.specs.Prelude.{◌≡◌, IfOk, length, replicate, false, []};
ghost use Rattle.profile_tables.specs.Places.{is_named_by};
ghost use Rattle.profile_tables.specs.Resources.{is_row_named};
ghost use Rattle.program_maker.specs.Marks.{AreMarks, IsMarked, variable_of as variable_in};

use dx_base::OutOfMemory;
use profile_tables::{Place, Scope, place_named};
use std::alloc::Global;

/// So many marks that are not set.
fn unset(alloc: Global, count: usize) -> Result<Vec<bool>, OutOfMemory>
    ensures { IfOk result (λ marks. marks.items ≡ replicate count false) }
{
    match vec![in alloc; false; count] {
        Ok(marks) => Ok(marks),
        Err(_) => Err(OutOfMemory),
    }
}

/// Sets the mark of a place, if there is one.
fn mark(marks: &mut [bool], place: Option<usize>)
    ensures { IsMarked place marks.old marks.new }
{
    let Some(place) = place else {
        return;
    };
    if place < marks.len() {
        marks[place] = true;
    }
}

fn variable_of(place: Option<Place>) -> Option<usize>
    ensures { result ≡ variable_in place }
{
    match place {
        Some(place) => Some(place.variable as usize),
        None => None,
    }
}

fn mark_rows(marks: &mut [bool], scope: &Scope)
    requires { AreMarks (length scope.now.rows) (is_row_named scope.now []) marks.old }
    ensures { AreMarks (length scope.now.rows) (is_row_named scope.now scope.now.lines) marks.new }
{
    for line in scope.lines() {
        mark(marks, scope.row_named(line));
    }
}

fn mark_variables(marks: &mut [bool], scope: &Scope)
    requires { AreMarks (length scope.now.pool.globals) (is_named_by scope.now []) marks.old }
    ensures { AreMarks (length scope.now.pool.globals) (is_named_by scope.now scope.now.lines) marks.new }
{
    for line in scope.lines() {
        mark(marks, variable_of(place_named(scope, line)));
    }
}

/// Which rows the body names, by their places.
pub fn rows_named(alloc: Global, scope: &Scope) -> Result<Vec<bool>, OutOfMemory>
    ensures { IfOk result (λ marks. AreMarks (length scope.now.rows) (is_row_named scope.now scope.now.lines) marks.items) }
{
    let mut marks = unset(alloc, scope.rows().len())?;
    mark_rows(marks.as_mut_slice(), scope);
    Ok(marks)
}

/// Which variables of the module the body names, by their numbers.
pub fn variables_named(alloc: Global, scope: &Scope) -> Result<Vec<bool>, OutOfMemory>
    ensures { IfOk result (λ marks. AreMarks (length scope.now.pool.globals) (is_named_by scope.now scope.now.lines) marks.items) }
{
    let mut marks = unset(alloc, scope.pool().globals().len())?;
    mark_variables(marks.as_mut_slice(), scope);
    Ok(marks)
}
