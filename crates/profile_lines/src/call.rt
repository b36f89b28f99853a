ghost use Rattle.std.specs.Prelude.{◌≡◌, ◌<◌, ◌^◌, nat_eq, codes};
ghost use Rattle.std.specs.List.{starts_with};
ghost use Rattle.profile_lines.specs.Calls as is;

use crate::pool::Pool;
use dxil_form::{OpKind, op_of};
use llvm_bodies::Line;
use llvm_layout::code::CALL;
use llvm_values::Global;

/// What an argument of a DXIL operation has to be.
#[derive(Clone, Copy, Debug, PartialEq, Eq)]
pub enum Argument {
    /// A handle of a resource.
    Handle,
    /// An `i32`.
    Number,
    /// A constant of an integer type of so many bits.
    Constant(u32),
}

/// What a DXIL operation gives.
#[derive(Clone, Copy, Debug, PartialEq, Eq)]
pub enum Outcome {
    /// An `i32`.
    Number,
    /// A handle of a resource.
    Handle,
    /// A structure that begins with four `i32`.
    Parts,
    Nothing,
}

use Argument::{Constant, Handle, Number};

/// The number at an operand place, or 0.
pub fn operand(line: &Line, place: usize) -> u32
    ensures { result ≡ is.operand line.now place }
{
    match line.numbers.get(place) {
        Some(number) => *number,
        None => 0,
    }
}

/// The other field at a place, or 0.
pub fn plain(line: &Line, place: usize) -> u64
    ensures { result ≡ is.plain line.now place }
{
    match line.plain.get(place) {
        Some(field) => *field,
        None => 0,
    }
}

/// The type number that the record carries at an operand place.
pub fn carried(line: &Line, place: u32) -> Option<u32>
    ensures { result ≡ is.carried line.now place }
{
    for pair in line.types.as_slice() {
        if pair.0 == place {
            return Some(pair.1);
        }
    }
    None
}

/// An argument of a call, the first of which is the opcode.
pub fn argument_at(line: &Line, n: usize) -> Option<u32>
    requires { n < 2 ^ 32 }
    ensures { result ≡ is.argument line.now n }
{
    match line.numbers.get(n + 1) {
        Some(number) => Some(*number),
        None => None,
    }
}

/// The operation with an opcode.
fn operation_of(code: Option<u32>) -> Option<OpKind>
    ensures { result ≡ is.operation_of code }
{
    match code {
        Some(code) => op_of(code),
        None => None,
    }
}

fn begins(name: &[u8]) -> bool
    ensures { result ≡ starts_with nat_eq name.now (codes "dx.op.") }
{
    name.starts_with(b"dx.op.")
}

/// Whether a callee's name begins with `dx.op.`.
pub fn is_named(pool: &Pool, line: &Line) -> bool
    ensures { result ≡ is.is_named pool.now line.now }
{
    match pool.stated(operand(line, 0)) {
        Some(Global::Function { name, .. }) => begins(name.as_slice()),
        Some(Global::Variable { .. }) => begins(&[]),
        Some(Global::Constant { .. }) => begins(&[]),
        None => begins(&[]),
    }
}

/// The opcode of a call.
pub fn opcode(pool: &Pool, line: &Line) -> Option<u32>
    ensures { result ≡ is.opcode pool.now line.now }
{
    pool.constant_given(32, argument_at(line, 0))
}

/// The DXIL operation that a line calls.
#[tactic(auto, unfolding(crate::specs::Calls::operation))]
pub fn operation(pool: &Pool, line: &Line) -> Option<OpKind>
    ensures { result ≡ is.operation pool.now line.now }
{
    if line.code as u64 == CALL && is_named(pool, line) {
        operation_of(opcode(pool, line))
    } else {
        None
    }
}

/// What an operation takes behind its opcode.
pub fn arguments_of(op: OpKind) -> &'static [Argument]
    ensures { result.now ≡ is.arguments op }
{
    match op {
        OpKind::Bfrev => &[Number],
        OpKind::Countbits => &[Number],
        OpKind::IMax => &[Number, Number],
        OpKind::IMin => &[Number, Number],
        OpKind::UMax => &[Number, Number],
        OpKind::UMin => &[Number, Number],
        OpKind::IMad => &[Number, Number, Number],
        OpKind::UMad => &[Number, Number, Number],
        OpKind::CreateHandle => &[Constant(8), Constant(32), Constant(32), Constant(1)],
        OpKind::CBufferLoad => &[Handle, Number],
        OpKind::BufferLoad => &[Handle, Number, Number],
        OpKind::BufferStore => &[
            Handle,
            Number,
            Number,
            Number,
            Number,
            Number,
            Number,
            Constant(8),
        ],
        OpKind::AtomicBinOp => &[Handle, Constant(32), Number, Number, Number, Number],
        OpKind::AtomicCompareExchange => &[Handle, Number, Number, Number, Number, Number],
        OpKind::Barrier => &[Constant(32)],
        OpKind::ThreadId => &[Constant(32)],
        OpKind::GroupId => &[Constant(32)],
        OpKind::ThreadIdInGroup => &[Constant(32)],
        OpKind::FlatId => &[],
        OpKind::RawLoad => &[Handle, Number, Number, Constant(8), Constant(32)],
        OpKind::RawStore => &[
            Handle,
            Number,
            Number,
            Number,
            Number,
            Number,
            Number,
            Constant(8),
            Constant(32),
        ],
    }
}

/// What an operation gives.
pub fn outcome_of(op: OpKind) -> Outcome
    ensures { result ≡ is.outcome op }
{
    match op {
        OpKind::CreateHandle => Outcome::Handle,
        OpKind::CBufferLoad => Outcome::Parts,
        OpKind::BufferLoad => Outcome::Parts,
        OpKind::RawLoad => Outcome::Parts,
        OpKind::BufferStore => Outcome::Nothing,
        OpKind::RawStore => Outcome::Nothing,
        OpKind::Barrier => Outcome::Nothing,
        _ => Outcome::Number,
    }
}
