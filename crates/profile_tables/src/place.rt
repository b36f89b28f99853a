ghost use Rattle.std.specs.Prelude.{◌≡◌};
ghost use Rattle.std.specs.Option.{option_copied};
ghost use Rattle.profile_tables.specs.Places as is;

use crate::kind::is_kind;
use crate::scope::Scope;
use llvm_bodies::Line;
use llvm_layout::code::{ATOMICRMW, CMPXCHG, GEP, LOAD, STORE};
use llvm_types::LlvmType;
use llvm_values::{ConstKind, Global};
use profile_lines::{Pool, ValueKind, carried, is_variable, operand};

/// A place in a variable of the module.
#[derive(Clone, Copy, Debug, PartialEq, Eq)]
pub struct Place {
    /// The number of the variable.
    pub variable: u32,
    /// The value that is its index in words; none for the variable itself, which is its first word.
    pub index: Option<u32>,
    /// Whether the variable and the place are such as a program may name.
    pub sound: bool,
}

/// Whether a type is `i32`.
pub fn is_i32(ty: Option<&LlvmType>) -> bool
    ensures { result ≡ is.is_i32 (option_copied ty.entry) }
{
    match ty {
        Some(LlvmType::Integer(width)) => *width == 32,
        _ => false,
    }
}

/// How many elements an array of `i32` has.
fn array_of(pool: &Pool, ty: u32) -> Option<u64>
    ensures { result ≡ is.array_of pool.now.types ty }
{
    match pool.ty(ty) {
        Some(LlvmType::Array { count, of }) => {
            if is_i32(pool.ty(*of)) {
                Some(*count)
            } else {
                None
            }
        }
        _ => None,
    }
}

fn at_least_one(count: Option<u64>) -> Option<u64>
    ensures { result ≡ is.at_least_one count }
{
    match count {
        Some(count) => { if count > 0 { Some(count) } else { None } }
        None => None,
    }
}

/// The words of a variable of a type.
fn words_of(pool: &Pool, ty: u32) -> Option<u64>
    ensures { result ≡ is.words_of pool.now.types ty }
{
    if is_i32(pool.ty(ty)) {
        Some(1)
    } else {
        at_least_one(array_of(pool, ty))
    }
}

/// The words of the variable with a number, or 0.
pub fn words_at(pool: &Pool, variable: u32) -> u64
    ensures { result ≡ is.words_at pool.now variable }
{
    match pool.globals().get(variable as usize) {
        Some(Global::Variable { ty, .. }) => words_of(pool, *ty).unwrap_or(0),
        _ => 0,
    }
}

fn is_undef(value: Option<&Global>) -> bool
    ensures { result ≡ is.is_undef (option_copied value.entry) }
{
    match value {
        Some(Global::Constant { kind, .. }) => match kind {
            ConstKind::Undef => true,
            _ => false,
        },
        _ => false,
    }
}

fn may_begin_with(pool: &Pool, init: Option<u32>) -> bool
    ensures { result ≡ is.may_begin_with pool.now.globals init }
{
    match init {
        Some(number) => is_undef(pool.globals().get(number as usize)),
        None => true,
    }
}

/// Whether a value is a groupshared variable that a program may name.
fn is_shared(pool: &Pool, value: Option<&Global>) -> bool
    ensures { result ≡ is.is_shared pool.now (option_copied value.entry) }
{
    match value {
        Some(
            Global::Variable {
                ty,
                space,
                init,
                ..
            },
        ) => *space == 3 && words_of(pool, *ty).is_some() && may_begin_with(pool, *init),
        _ => false,
    }
}

fn type_of_variable(value: Option<&Global>) -> Option<u32>
    ensures { result ≡ is.type_of_variable (option_copied value.entry) }
{
    match value {
        Some(Global::Variable { ty, .. }) => Some(*ty),
        _ => None,
    }
}

fn are_same_arrays(a: Option<u64>, b: Option<u64>) -> bool
    ensures { result ≡ is.are_same_arrays a b }
{
    match a {
        Some(n) => match b {
            Some(m) => n == m,
            None => false,
        },
        None => false,
    }
}

/// Whether a GEP with this source type goes into a variable of a type.
fn has_source(pool: &Pool, ty: Option<u32>, source: Option<u32>) -> bool
    ensures { result ≡ is.has_source pool.now.types ty source }
{
    match ty {
        Some(ty) => match source {
            Some(source) => are_same_arrays(array_of(pool, ty), array_of(pool, source)),
            None => array_of(pool, ty).is_some(),
        },
        None => false,
    }
}

/// Whether a GEP of so many indices is such as a program may name.
fn is_sound(
    scope: &Scope,
    variable: u32,
    source: Option<u32>,
    count: usize,
    first: u32,
    second: u32,
) -> bool
    ensures { result ≡ is.is_sound scope.now variable source count first second }
{
    let pool = scope.pool();
    is_shared(pool, pool.stated(variable))
        && has_source(pool, type_of_variable(pool.stated(variable)), source)
        && count == 2
        && pool.is_zero(first)
        && is_kind(scope.kind(second), ValueKind::Int)
}

/// The place that a GEP makes, where its base is a variable.
fn place_made(scope: &Scope, line: &Line) -> Option<Place>
    ensures { result ≡ is.place_made scope.now line.now }
{
    let variable = operand(line, 0);
    if !is_variable(scope.pool().stated(variable)) {
        return None;
    }
    let count = line.numbers.len().saturating_sub(1);
    let source = carried(line, 0);
    Some(Place {
        variable,
        index: line.value,
        sound: is_sound(
            scope,
            variable,
            source,
            count,
            operand(line, 1),
            operand(line, 2),
        ),
    })
}

fn argument_of(args: &[(u32, u32)], n: usize) -> u32
    ensures { result ≡ is.argument_of args.now n }
{
    match args.get(n) {
        Some(pair) => pair.1,
        None => 0,
    }
}

/// The place of a constant GEP, where its base is a variable.
fn constant_place(scope: &Scope, source: Option<u32>, args: &[(u32, u32)]) -> Option<Place>
    ensures { result ≡ is.constant_place scope.now source args.now }
{
    let variable = argument_of(args, 0);
    if !is_variable(scope.pool().stated(variable)) {
        return None;
    }
    let count = args.len().saturating_sub(1);
    let second = argument_of(args, 2);
    let sound = scope.pool().stated(second).is_some()
        && is_sound(scope, variable, source, count, argument_of(args, 1), second);
    Some(Place {
        variable,
        index: Some(second),
        sound,
    })
}

/// The place that the line makes which gives a value.
fn place_set(scope: &Scope, line: Option<&Line>) -> Option<Place>
    ensures { result ≡ is.place_set scope.now (option_copied line.entry) }
{
    match line {
        Some(line) => {
            if line.code as u64 == GEP {
                place_made(scope, line)
            } else {
                None
            }
        }
        None => None,
    }
}

/// The place that a value is.
#[tactic(auto, unfolding(crate::specs::Places::place_of))]
pub fn place_of(scope: &Scope, number: u32) -> Option<Place>
    ensures { result ≡ is.place_of scope.now number }
{
    match scope.pool().stated(number) {
        Some(Global::Variable { .. }) => Some(Place {
            variable: number,
            index: None,
            sound: is_shared(scope.pool(), scope.pool().stated(number)),
        }),
        Some(Global::Function { .. }) => None,
        Some(Global::Constant { kind, .. }) => match kind {
            ConstKind::Gep { source, args } => constant_place(scope, *source, args.as_slice()),
            _ => None,
        },
        None => place_set(scope, scope.setter(number)),
    }
}

fn accesses(code: u64) -> bool
    ensures { result ≡ is.accesses code }
{
    match code {
        LOAD | ATOMICRMW | STORE | CMPXCHG => true,
        _ => false,
    }
}

/// The place that a line names.
#[tactic(auto, unfolding(crate::specs::Places::place_named))]
pub fn place_named(scope: &Scope, line: &Line) -> Option<Place>
    ensures { result ≡ is.place_named scope.now line.now }
{
    if line.code as u64 == GEP {
        place_made(scope, line)
    } else if accesses(line.code as u64) {
        place_of(scope, operand(line, 0))
    } else {
        None
    }
}
