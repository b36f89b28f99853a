ghost use Rattle.std.specs.Prelude.{◌≡◌, ◌<◌, ◌^◌, length, slice_get};
ghost use Rattle.std.specs.Option.{option_copied};
ghost use Rattle.profile_lines.specs.Calls.{operation as is_operation};
ghost use Rattle.profile_rules.specs.Asked as is;

use crate::kinds::is_of_kind;
use dxil_form::OpKind;
use llvm_bodies::Line;
use llvm_types::LlvmType;
use profile_lines::{
    Argument, Outcome, Pool, ValueKind, ValueType, arguments_of, call_type, operation, outcome_of,
};
use profile_tables::{Scope, is_i32};

fn is_word(pool: &Pool, fields: &[u32], place: usize) -> bool
    ensures { result ≡ is.is_word pool.now (slice_get fields.now place) }
{
    match fields.get(place) {
        Some(ty) => is_i32(pool.ty(*ty)),
        None => false,
    }
}

/// Whether a type is that of what an operation gives.
fn is_result(pool: &Pool, outcome: Outcome, ty: Option<&LlvmType>) -> bool
    ensures { result ≡ is.is_result pool.now outcome (option_copied ty.entry) }
{
    match outcome {
        Outcome::Number => is_i32(ty),
        Outcome::Handle => match ty {
            Some(LlvmType::Struct { .. }) => true,
            _ => false,
        },
        Outcome::Parts => match ty {
            Some(LlvmType::Struct { fields }) => {
                let fields = fields.as_slice();
                is_word(pool, fields, 0)
                    && is_word(pool, fields, 1)
                    && is_word(pool, fields, 2)
                    && is_word(pool, fields, 3)
            }
            _ => false,
        },
        Outcome::Nothing => match ty {
            Some(LlvmType::Void) => true,
            _ => false,
        },
    }
}

fn type_behind<'a>(pool: &Pool<'a>, ty: ValueType) -> Option<&'a LlvmType>
    ensures { option_copied result ≡ is.type_behind pool.now ty }
{
    match ty {
        ValueType::Numbered(ty) => pool.ty(ty),
        _ => None,
    }
}

/// Whether a call has the arguments and the result of an operation.
pub fn fits(pool: &Pool, line: &Line, op: OpKind) -> bool
    ensures { result ≡ is.fits pool.now line.now op }
{
    line.numbers.len() == arguments_of(op).len() + 2
        && is_result(
            pool,
            outcome_of(op),
            type_behind(pool, call_type(pool, line)),
        )
}

fn is_number(argument: Argument) -> bool
    ensures { result ≡ is.is_number argument }
{
    match argument {
        Argument::Number => true,
        _ => false,
    }
}

/// Whether the arguments of a call that have to be are `i32`.
fn are_numbers(scope: &Scope, line: &Line, arguments: &[Argument]) -> bool
    requires { length arguments.now < 2 ^ 32 }
    ensures { result ≡ is.are_numbers scope.now line.now 2 arguments.now }
{
    for index in 0..arguments.len() {
        if is_number(arguments[index]) && !is_of_kind(scope, line, index + 2, ValueKind::Int) {
            return false;
        }
    }
    true
}

/// Whether the arguments of a call are of the kinds that its operation takes, where it is one that fits.
pub fn are_arguments(scope: &Scope, line: &Line) -> bool
    ensures { result ≡ is.are_arguments scope.now line.now (is_operation scope.now.pool line.now) }
{
    match operation(scope.pool(), line) {
        Some(op) => !fits(scope.pool(), line, op) || are_numbers(scope, line, arguments_of(op)),
        None => true,
    }
}
