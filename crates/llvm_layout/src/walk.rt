ghost use Rattle.std.specs.Prelude.{◌≡◌, ◌+◌, ◌≤◌, ◌<◌, ◌^◌, length, map, Some, None};
ghost use Rattle.llvm_layout.specs.Table.{seen, states, rows_of};
ghost use Rattle.llvm_layout.specs.Reads.{walk as walked, nothing, TakenAnswer, IsRoomy, IsRoomyAfter, RepeatAnswer, FormAnswer, LayoutAnswer, HasLayout};

use crate::code::CALL;
use crate::letter::{Around, Form, Letter, Parts, Taken, take_letter};
use crate::table::{call_forms_of, forms_of};
use dx_base::{List, OutOfMemory};
use std::alloc::Global;

/// The bit of a call's convention that says that the callee's type is stated.
const STATES_TYPE: u64 = 1 << 15;

/// Takes the fields of a row of letters.
fn walk(x: Around, letters: &[Letter], parts: &mut Parts, fields: &[u64], at: usize) -> Taken
    requires room { IsRoomy parts.old fields.now at }
    ensures answer { TakenAnswer result (walked x letters.now parts.old fields.now at) parts.new }
    ensures room { IsRoomyAfter result parts.new fields.now (at + length letters.now) }
{
    let mut place = at;
    for letter in letters {
        match take_letter(x, *letter, parts, fields, place) {
            Taken::To(next) => place = next,
            Taken::Misfit => return Taken::Misfit,
            Taken::Full => return Taken::Full,
        }
    }
    Taken::To(place)
}

/// Takes a row of letters again and again, up to the last field.
fn repeat(x: Around, again: &[Letter], parts: &mut Parts, fields: &[u64], at: usize) -> Taken
    requires room { IsRoomy parts.old fields.now at }
    ensures { RepeatAnswer result x again.now fields.now parts.old at parts.new }
{
    let mut place = at;
    if again.len() == 0 {
        return if place < fields.len() {
            Taken::Misfit
        } else {
            Taken::To(place)
        };
    }
    while place < fields.len() {
        match walk(x, again, parts, fields, place) {
            Taken::To(next) => place = next,
            Taken::Misfit => return Taken::Misfit,
            Taken::Full => return Taken::Full,
        }
    }
    Taken::To(place)
}

/// The parts that the fields say by one row of the table, if they fit it.
fn read_form(
    alloc: Global,
    x: Around,
    form: Form,
    fields: &[u64],
) -> Result<Option<Parts>, OutOfMemory>
    requires { length fields.now ≤ 2 ^ 24 }
    ensures { FormAnswer result x (seen form) fields.now }
{
    let mut parts = Parts {
        numbers: List::new(alloc),
        types: List::new(alloc),
        plain: List::new(alloc),
    };
    match walk(x, form.head, &mut parts, fields, 0) {
        Taken::To(place) => match repeat(x, form.again, &mut parts, fields, place) {
            Taken::To(_) => Ok(Some(parts)),
            Taken::Misfit => Ok(None),
            Taken::Full => Err(OutOfMemory),
        },
        Taken::Misfit => Ok(None),
        Taken::Full => Err(OutOfMemory),
    }
}

/// The parts that the fields say by the first row that they fit.
fn read_layout(
    alloc: Global,
    x: Around,
    forms: &[Form],
    fields: &[u64],
) -> Result<Option<Parts>, OutOfMemory>
    requires { length fields.now ≤ 2 ^ 24 }
    ensures { LayoutAnswer result x (map seen forms.now) fields.now }
{
    for form in forms {
        match read_form(alloc, x, *form, fields) {
            Ok(Some(parts)) => return Ok(Some(parts)),
            Ok(None) => {}
            Err(e) => return Err(e),
        }
    }
    Ok(None)
}

/// Whether a call with these fields states its callee's type.
pub fn is_stated(fields: &[u64]) -> bool
    ensures { result ≡ states fields.now }
{
    match fields.get(1) {
        Some(convention) => *convention / STATES_TYPE % 2 == 1,
        None => false,
    }
}

/// The parts that a record's fields say, if they have a layout of its code; no record has two readings.
///
/// Each field is read at most once for each of the code's layouts, of which there are three at most.
pub fn read_record(
    alloc: Global,
    x: Around,
    code: u64,
    fields: &[u64],
) -> Result<Option<Parts>, OutOfMemory>
    requires { length fields.now ≤ 2 ^ 24 }
    ensures exact { LayoutAnswer result x (rows_of code fields.now) fields.now }
    ensures only { (p q : Parts) → HasLayout x (rows_of code fields.now) fields.now p → HasLayout x (rows_of code fields.now) fields.now q → p ≡ q }
{
    if code == CALL {
        read_layout(alloc, x, call_forms_of(is_stated(fields)), fields)
    } else {
        read_layout(alloc, x, forms_of(code), fields)
    }
}
