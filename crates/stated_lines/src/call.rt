ghost use Rattle.std.specs.Prelude.{◌≡◌, ◌<◌, ◌≤◌, true};
ghost use Rattle.profile_lines.specs.Calls.{operation as operation_by};
ghost use Rattle.stated_program.specs.Instructions as is;
ghost use Rattle.stated_lines.specs.Places.{is_id, IsNarrow};

use crate::access::address;
use crate::codes::{atomic_of, barrier_of};
use crate::placed::Placed;
use dxil_form::{Addr, IdOp, Instr, OneOp, OpKind, Operand, Reg, Target, TwoOp};
use llvm_bodies::Line;
use profile_lines::{argument_at, operand, operation};
use profile_tables::{operand_of, register};

/// The number of the value that a line gives, or 0.
pub fn number_of(line: &Line) -> u32
    ensures { result ≡ is.number_of line.now }
{
    match line.value {
        Some(number) => number,
        None => 0,
    }
}

/// The register of the value that a line gives.
pub fn set_by(line: &Line) -> Reg
    ensures { result ≡ is.set_by line.now }
{
    register(number_of(line))
}

/// The operand at a place.
pub fn at(placed: &Placed, line: &Line, place: usize) -> Operand
    ensures { result ≡ is.at placed.now line.now place }
{
    operand_of(placed.scope(), operand(line, place))
}

/// A constant argument, by its place behind the opcode, or 0.
fn constant_at(placed: &Placed, line: &Line, n: usize, width: u32) -> u32
    requires few { n ≤ 16 }
    requires narrow { width ≤ 32 }
    ensures { result ≡ is.constant_at placed.now line.now n width }
{
    match placed
        .scope()
        .pool()
        .constant_given(width, argument_at(line, n))
    {
        Some(number) => number,
        None => 0,
    }
}

/// The address of an access to a buffer, by the places of its coordinates.
fn address_at(placed: &Placed, line: &Line, first: usize, second: usize) -> Addr
    requires a { first ≤ 16 }
    requires b { second ≤ 16 }
    ensures { result ≡ is.address_at placed.now line.now first second }
{
    let scope = placed.scope();
    let row = scope.row_at(scope.handle_row(line));
    address(
        row,
        at(placed, line, first + 1),
        at(placed, line, second + 1),
    )
}

fn target(placed: &Placed, line: &Line) -> Target
    ensures { result ≡ is.target placed.now line.now }
{
    placed.buffer(placed.scope().handle_row(line))
}

fn load_of(placed: &Placed, line: &Line) -> Instr
    ensures { result ≡ is.load_of placed.now line.now }
{
    Instr::Load {
        to: number_of(line),
        mask: placed.scope().mask(number_of(line)),
        target: target(placed, line),
        addr: address_at(placed, line, 2, 3),
    }
}

/// The mask of a store.
fn mask_at(placed: &Placed, line: &Line) -> u8
    ensures { result ≡ is.constant_at placed.now line.now 8 8 }
{
    constant_at(placed, line, 8, 8) as u8
}

fn store_of(placed: &Placed, line: &Line) -> Instr
    ensures { result ≡ is.store_of placed.now line.now }
{
    Instr::Store {
        mask: mask_at(placed, line),
        target: target(placed, line),
        addr: address_at(placed, line, 2, 3),
        x: at(placed, line, 5),
        y: at(placed, line, 6),
        z: at(placed, line, 7),
        w: at(placed, line, 8),
    }
}

fn one(placed: &Placed, line: &Line, op: OneOp) -> Instr
    ensures { result ≡ Instr.One (is.set_by line.now) op (is.at placed.now line.now 2) }
{
    Instr::One {
        to: set_by(line),
        op,
        a: at(placed, line, 2),
    }
}

fn two(placed: &Placed, line: &Line, op: TwoOp) -> Instr
    ensures { result ≡ Instr.Two (is.set_by line.now) op (is.at placed.now line.now 2) (is.at placed.now line.now 3) }
{
    Instr::Two {
        to: set_by(line),
        op,
        a: at(placed, line, 2),
        b: at(placed, line, 3),
    }
}

fn mad(placed: &Placed, line: &Line) -> Instr
    ensures { result ≡ Instr.Mad (is.set_by line.now) (is.at placed.now line.now 2) (is.at placed.now line.now 3) (is.at placed.now line.now 4) }
{
    Instr::Mad {
        to: set_by(line),
        a: at(placed, line, 2),
        b: at(placed, line, 3),
        c: at(placed, line, 4),
    }
}

fn id(placed: &Placed, line: &Line, op: IdOp) -> Instr
    requires { is.constant_at placed.now line.now 1 32 < 256 }
    ensures { result ≡ Instr.Id (is.set_by line.now) op (is.constant_at placed.now line.now 1 32) }
{
    Instr::Id {
        to: set_by(line),
        op,
        part: constant_at(placed, line, 1, 32) as u8,
    }
}

fn atomic(placed: &Placed, line: &Line) -> Instr
    ensures { result ≡ is.call_of placed.now line.now OpKind.AtomicBinOp }
{
    Instr::Atomic {
        to: set_by(line),
        op: atomic_of(constant_at(placed, line, 2, 32)),
        target: target(placed, line),
        addr: address_at(placed, line, 3, 4),
        value: at(placed, line, 7),
    }
}

fn swap(placed: &Placed, line: &Line) -> Instr
    ensures { result ≡ is.call_of placed.now line.now OpKind.AtomicCompareExchange }
{
    Instr::Swap {
        to: number_of(line),
        target: target(placed, line),
        addr: address_at(placed, line, 2, 3),
        compare: at(placed, line, 6),
        value: at(placed, line, 7),
    }
}

/// The instruction of a call of an operation.
fn call_of(placed: &Placed, line: &Line, op: OpKind) -> Instr
    requires { is_id op ≡ true → is.constant_at placed.now line.now 1 32 < 256 }
    ensures { result ≡ is.call_of placed.now line.now op }
{
    match op {
        OpKind::Bfrev => one(placed, line, OneOp::Bfrev),
        OpKind::Countbits => one(placed, line, OneOp::Countbits),
        OpKind::IMax => two(placed, line, TwoOp::IMax),
        OpKind::IMin => two(placed, line, TwoOp::IMin),
        OpKind::UMax => two(placed, line, TwoOp::UMax),
        OpKind::UMin => two(placed, line, TwoOp::UMin),
        OpKind::IMad => mad(placed, line),
        OpKind::UMad => mad(placed, line),
        OpKind::CreateHandle => Instr::Nothing,
        OpKind::CBufferLoad => load_of(placed, line),
        OpKind::BufferLoad => load_of(placed, line),
        OpKind::BufferStore => store_of(placed, line),
        OpKind::AtomicBinOp => atomic(placed, line),
        OpKind::AtomicCompareExchange => swap(placed, line),
        OpKind::Barrier => barrier_of(constant_at(placed, line, 1, 32)),
        OpKind::ThreadId => id(placed, line, IdOp::Thread),
        OpKind::GroupId => id(placed, line, IdOp::Group),
        OpKind::ThreadIdInGroup => id(placed, line, IdOp::InGroup),
        OpKind::FlatId => Instr::Id {
            to: set_by(line),
            op: IdOp::Flat,
            part: 0,
        },
        OpKind::RawLoad => load_of(placed, line),
        OpKind::RawStore => store_of(placed, line),
    }
}

/// The instruction of a call.
pub fn called(placed: &Placed, line: &Line) -> Instr
    requires { IsNarrow placed.now line.now }
    ensures { result ≡ is.called placed.now line.now (operation_by placed.now.pool line.now) }
{
    match operation(placed.scope().pool(), line) {
        Some(op) => call_of(placed, line, op),
        None => Instr::Nothing,
    }
}
