ghost use Rattle.std.specs.Prelude.{◌≡◌, ◌<◌, ◌≤◌, ◌^◌, ◌&&◌, not, is_some, length, slice_get, All};
ghost use Rattle.profile_lines.specs.Calls.{is_named as named_by, opcode as opcode_by, operation as operation_by};
ghost use Rattle.profile_rules.specs.Helping.{IsSmall};
ghost use Rattle.profile_rules.specs.Rules as is;

use crate::arguments::fits;
use dxil_form::OpKind;
use llvm_bodies::Line;
use llvm_layout::code::CALL;
use profile_lines::{Argument, Pool, argument_at, arguments_of, is_named, opcode, operation};

fn is_call(line: &Line) -> bool
    ensures { result ≡ is.is_call line.now }
{
    line.code as u64 == CALL
}

/// Whether a line breaks P13.
pub fn p13(pool: &Pool, line: &Line) -> bool
    ensures { result ≡ (is.is_call line.now && not (named_by pool.now line.now)) }
{
    is_call(line) && !is_named(pool, line)
}

/// Whether a line breaks P14.
pub fn p14(pool: &Pool, line: &Line) -> bool
    ensures { result ≡ (is.is_call line.now && not (is_some (opcode_by pool.now line.now))) }
{
    is_call(line) && opcode(pool, line).is_none()
}

/// Whether a line breaks P15.
pub fn p15(pool: &Pool, line: &Line) -> bool
    ensures { result ≡ (is.is_call line.now && not (is_some (operation_by pool.now line.now))) }
{
    is_call(line) && operation(pool, line).is_none()
}

/// Whether a line breaks P16.
pub fn p16(pool: &Pool, line: &Line) -> bool
    ensures { result ≡ (is.is_call line.now && is.is_misfit pool.now line.now (operation_by pool.now line.now)) }
{
    is_call(line)
        && match operation(pool, line) {
            Some(op) => !fits(pool, line, op),
            None => false,
        }
}

fn number_at(numbers: &[u32], place: usize) -> Option<u32>
    ensures { result ≡ slice_get numbers.now place }
{
    match numbers.get(place) {
        Some(number) => Some(*number),
        None => None,
    }
}

/// Whether an argument that has to be a constant is one.
fn is_given(pool: &Pool, line: &Line, place: usize, argument: Argument) -> bool
    requires { IsSmall argument }
    ensures { result ≡ is.is_given pool.now line.now place argument }
{
    match argument {
        Argument::Constant(width) => pool
            .constant_given(width, number_at(line.numbers.as_slice(), place))
            .is_some(),
        _ => true,
    }
}

fn are_given(pool: &Pool, line: &Line, arguments: &[Argument]) -> bool
    requires few { length arguments.now < 2 ^ 32 }
    requires small { All IsSmall arguments.now }
    ensures { result ≡ is.are_given pool.now line.now 2 arguments.now }
{
    for index in 0..arguments.len() {
        if !is_given(pool, line, index + 2, arguments[index]) {
            return false;
        }
    }
    true
}

fn is_within(least: u32, most: u32, number: Option<u32>) -> bool
    ensures { result ≡ is.is_within least most number }
{
    match number {
        Some(number) => least <= number && number <= most,
        None => false,
    }
}

/// Whether a constant argument is in a range.
fn is_in(pool: &Pool, line: &Line, n: usize, width: u32, least: u32, most: u32) -> bool
    requires few { n < 2 ^ 32 }
    requires narrow { width ≤ 32 }
    ensures { result ≡ is.is_in pool.now line.now n width least most }
{
    is_within(
        least,
        most,
        pool.constant_given(width, argument_at(line, n)),
    )
}

/// Whether the constant arguments of a call are in their ranges.
fn are_in_range(pool: &Pool, line: &Line, op: OpKind) -> bool
    ensures { result ≡ is.are_in_range pool.now line.now op }
{
    match op {
        OpKind::CreateHandle => { is_in(pool, line, 1, 8, 0, 2) && is_in(pool, line, 4, 1, 0, 0) }
        OpKind::BufferStore => is_in(pool, line, 8, 8, 1, 15),
        OpKind::AtomicBinOp => is_in(pool, line, 2, 32, 0, 8),
        OpKind::Barrier => is_in(pool, line, 1, 32, 1, 15),
        OpKind::ThreadId => is_in(pool, line, 1, 32, 0, 2),
        OpKind::GroupId => is_in(pool, line, 1, 32, 0, 2),
        OpKind::ThreadIdInGroup => is_in(pool, line, 1, 32, 0, 2),
        OpKind::RawLoad => is_in(pool, line, 4, 8, 1, 15),
        OpKind::RawStore => is_in(pool, line, 8, 8, 1, 15),
        _ => true,
    }
}

/// Whether a line breaks P17.
pub fn p17(pool: &Pool, line: &Line) -> bool
    ensures { result ≡ is.has_bad_constant pool.now line.now (operation_by pool.now line.now) }
{
    match operation(pool, line) {
        Some(op) => !are_given(pool, line, arguments_of(op)) || !are_in_range(pool, line, op),
        None => false,
    }
}
