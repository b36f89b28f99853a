ghost use Rattle.std.specs.Prelude.{◌≡◌, ◌∷◌, ◌++◌, ◌+◌, ◌≤◌, [], IfOk, OnOk, length};
ghost use Rattle.spirv_code.specs.declared.event.Event.TheVariants.{Atomic};
ghost use Rattle.spirv_code.specs.Reads.{no_register};
ghost use Rattle.spirv_code.specs.Accesses as accesses;
ghost use Rattle.spirv_code.specs.Accesses.{event_code, event_size, guard_code, guarded_code, meet_at, other_at, other_code, other_size, part_code, part_env, same_code, swap_code, test_code, test_id, test_size, zeros_code, zeros_env};
ghost use Rattle.spirv_code.specs.Plans.{result as id_at};
ghost use Rattle.spirv_table.specs.Known.{env_of};
ghost use Rattle.spirv_table.specs.Tables.{AreFew};
ghost use Rattle.spirv_emit.specs.Scenes.{context_in};

use crate::code::Code;
use crate::ranges::test;
use crate::reads::{keep, kept_size, read, read_length, read_two, truth_of_two};
use crate::scene::Scene;
use crate::words::{chain, chain_length};
use dx_base::OutOfMemory;
use dxil_form::{Addr, AtomicOp, Operand, Reg, Target, Ty};
use spirv_code::{Event, is_never, scope_of};
use spirv_table::Known;
use spv_form::op;

/// The opcode of an atomic.
fn atomic_opcode(op: AtomicOp) -> u16
    ensures { result ≡ accesses.atomic_opcode op }
{
    match op {
        AtomicOp::Add => op::ATOMIC_I_ADD,
        AtomicOp::Sub => op::ATOMIC_I_SUB,
        AtomicOp::And => op::ATOMIC_AND,
        AtomicOp::Or => op::ATOMIC_OR,
        AtomicOp::Xor => op::ATOMIC_XOR,
        AtomicOp::SMin => op::ATOMIC_S_MIN,
        AtomicOp::SMax => op::ATOMIC_S_MAX,
        AtomicOp::UMin => op::ATOMIC_U_MIN,
        AtomicOp::UMax => op::ATOMIC_U_MAX,
        AtomicOp::Exchange => op::ATOMIC_EXCHANGE,
    }
}

/// Writes an atomic behind its pointer.
fn atomic(
    code: &mut Code,
    s: &Scene,
    known: &Known,
    pointer: u32,
    target: Target,
    to: Reg,
    op: AtomicOp,
    value: Operand,
) -> Result<(), OutOfMemory>
    requires { AreFew s.now.tables.now }
    ensures { OnOk result (code.new ≡ code.old ++ event_code (context_in s.now) (env_of known.now) (length code.old) pointer target (Atomic to op value)) }
{
    let value = read(code, s, known, value)?;
    let id = s.next(code);
    let scope = s.number(scope_of(target));
    let relaxed = s.number(0);
    code.push(
        atomic_opcode(op),
        &[s.int(), id, pointer, scope, relaxed, value],
    )?;
    keep(code, s, to, Ty::Int, id)
}

/// Writes whether the word that was there is the one that it was compared with.
fn same(code: &mut Code, s: &Scene, old: u32, compare: u32, same: Reg) -> Result<(), OutOfMemory>
    requires { AreFew s.now.tables.now }
    ensures { OnOk result (code.new ≡ code.old ++ same_code (context_in s.now) (length code.old) old compare same) }
{
    let equal = truth_of_two(code, s, op::I_EQUAL, old, compare)?;
    keep(code, s, same, Ty::Bool, equal)
}

/// Writes a compare and exchange of values that were read.
fn swap(
    code: &mut Code,
    s: &Scene,
    pointer: u32,
    target: Target,
    old: Reg,
    equal: Reg,
    value: u32,
    compare: u32,
) -> Result<(), OutOfMemory>
    requires { AreFew s.now.tables.now }
    ensures { OnOk result (code.new ≡ code.old ++ swap_code (context_in s.now) (length code.old) pointer target old equal value compare) }
{
    let id = s.next(code);
    let scope = s.number(scope_of(target));
    let relaxed = s.number(0);
    code.push(
        op::ATOMIC_COMPARE_EXCHANGE,
        &[
            s.int(),
            id,
            pointer,
            scope,
            relaxed,
            relaxed,
            value,
            compare,
        ],
    )?;
    keep(code, s, old, Ty::Int, id)?;
    same(code, s, id, compare, equal)
}

/// Writes an event behind its pointer.
fn event(
    code: &mut Code,
    s: &Scene,
    known: &Known,
    pointer: u32,
    target: Target,
    event: Event,
) -> Result<(), OutOfMemory>
    requires { AreFew s.now.tables.now }
    ensures { OnOk result (code.new ≡ code.old ++ event_code (context_in s.now) (env_of known.now) (length code.old) pointer target event) }
{
    match event {
        Event::Load { to } => {
            let id = s.next(code);
            code.push(op::LOAD, &[s.int(), id, pointer])?;
            keep(code, s, to, Ty::Int, id)
        }
        Event::Store { value } => {
            let value = read(code, s, known, value)?;
            code.push(op::STORE, &[pointer, value])
        }
        Event::Atomic { to, op, value } => atomic(code, s, known, pointer, target, to, op, value),
        Event::Swap {
            old,
            same,
            compare,
            value,
        } => {
            let (value, compare) = read_two(code, s, known, value, compare)?;
            swap(code, s, pointer, target, old, same, value, compare)
        }
    }
}

/// How many instructions an event takes, with its pointer.
fn event_length(s: &Scene, known: &Known, addr: Addr, part: u8, event: Event) -> u32
    requires { AreFew s.now.tables.now }
    ensures size { result ≡ event_size (context_in s.now) (env_of known.now) addr part event }
    ensures few { result ≤ 14 }
{
    let chain = chain_length(s, known, addr, part);
    match event {
        Event::Load { to } => chain + (1 + kept_size(s, to, Ty::Int)),
        Event::Store { value } => chain + read_length(s, known, value) + 1,
        Event::Atomic { to, value, .. } => {
            chain + read_length(s, known, value) + (1 + kept_size(s, to, Ty::Int))
        }
        Event::Swap {
            old,
            same,
            compare,
            value,
        } => {
            let reads = read_length(s, known, value) + read_length(s, known, compare);
            let kept = 1 + kept_size(s, old, Ty::Int) + (1 + kept_size(s, same, Ty::Bool));
            chain + reads + kept
        }
    }
}

/// Stores zero and false to what an event sets.
fn zeros(code: &mut Code, s: &Scene, event: Event) -> Result<(), OutOfMemory>
    requires { AreFew s.now.tables.now }
    ensures { OnOk result (code.new ≡ code.old ++ zeros_code (context_in s.now) event) }
{
    match event {
        Event::Load { to } | Event::Atomic { to, .. } => {
            keep(code, s, to, Ty::Int, s.zero(Ty::Int))
        }
        Event::Store { .. } => Ok(()),
        Event::Swap { old, same, .. } => {
            keep(code, s, old, Ty::Int, s.zero(Ty::Int))?;
            keep(code, s, same, Ty::Bool, s.zero(Ty::Bool))
        }
    }
}

/// What an event sets is zero and false from now on.
fn know_zeros(s: &Scene, known: &mut Known, event: Event) -> Result<(), OutOfMemory>
    requires { AreFew s.now.tables.now }
    ensures { OnOk result (env_of known.new ≡ zeros_env (context_in s.now) event (env_of known.old)) }
{
    match event {
        Event::Load { to } | Event::Atomic { to, .. } => known.set(to, s.zero(Ty::Int)),
        Event::Store { .. } => Ok(()),
        Event::Swap { old, same, .. } => {
            known.set(old, s.zero(Ty::Int))?;
            known.set(same, s.zero(Ty::Bool))
        }
    }
}

/// Writes the block for a word out of range, which a store has not.
fn other(code: &mut Code, s: &Scene, label: u32, meet: u32, event: Event) -> Result<(), OutOfMemory>
    requires { AreFew s.now.tables.now }
    ensures { OnOk result (code.new ≡ code.old ++ other_code (context_in s.now) label meet event) }
{
    if let Event::Store { .. } = event {
        return Ok(());
    }
    code.push(op::LABEL, &[label])?;
    zeros(code, s, event)?;
    code.push(op::BRANCH, &[meet])
}

/// How many instructions the block for a word out of range takes.
fn other_length(s: &Scene, event: Event) -> u32
    requires { AreFew s.now.tables.now }
    ensures size { result ≡ other_size (context_in s.now) event }
    ensures few { result ≤ 4 }
{
    match event {
        Event::Load { to } | Event::Atomic { to, .. } => kept_size(s, to, Ty::Int) + 2,
        Event::Store { .. } => 0,
        Event::Swap { old, same, .. } => {
            kept_size(s, old, Ty::Int) + kept_size(s, same, Ty::Bool) + 2
        }
    }
}

/// Writes the block of an event behind its label, the other block, and the label where they meet.
fn guarded(
    code: &mut Code,
    s: &Scene,
    known: &Known,
    target: Target,
    addr: Addr,
    part: u8,
    what: Event,
    outside: u32,
    meet: u32,
) -> Result<(), OutOfMemory>
    requires { AreFew s.now.tables.now }
    ensures { OnOk result (code.new ≡ code.old ++ guarded_code (context_in s.now) (env_of known.now) (length code.old) target addr part what outside meet) }
{
    let pointer = chain(code, s, known, target, addr, part)?;
    event(code, s, known, pointer, target, what)?;
    code.push(op::BRANCH, &[meet])?;
    other(code, s, outside, meet, what)?;
    code.push(op::LABEL, &[meet])
}

/// The label of the other block, where the selection begins with the next instruction. Of a store it is the label where both meet.
fn outside_label(code: &Code, s: &Scene, known: &Known, addr: Addr, part: u8, event: Event) -> u32
    requires { AreFew s.now.tables.now }
    ensures label { result ≡ id_at (context_in s.now) (length code.now + other_at (context_in s.now) (env_of known.now) addr part event) }
    ensures few { result ≤ 0x4400_0000 }
{
    s.next(code) + (3 + event_length(s, known, addr, part, event) + 1)
}

/// The label where both ways meet, where the selection begins with the next instruction.
fn meet_label(code: &Code, s: &Scene, known: &Known, addr: Addr, part: u8, event: Event) -> u32
    requires { AreFew s.now.tables.now }
    ensures { result ≡ id_at (context_in s.now) (length code.now + meet_at (context_in s.now) (env_of known.now) addr part event) }
{
    outside_label(code, s, known, addr, part, event) + other_length(s, event)
}

/// Writes the selection behind a test, which has this id.
fn guard(
    code: &mut Code,
    s: &Scene,
    known: &Known,
    test: u32,
    target: Target,
    addr: Addr,
    part: u8,
    event: Event,
) -> Result<(), OutOfMemory>
    requires { AreFew s.now.tables.now }
    ensures { OnOk result (code.new ≡ code.old ++ guard_code (context_in s.now) (env_of known.now) (length code.old) test target addr part event) }
{
    let inside = s.next(code) + 2;
    let outside = outside_label(code, s, known, addr, part, event);
    let meet = meet_label(code, s, known, addr, part, event);
    code.push(op::SELECTION_MERGE, &[meet, 0])?;
    code.push(op::BRANCH_CONDITIONAL, &[test, inside, outside])?;
    code.push(op::LABEL, &[inside])?;
    guarded(code, s, known, target, addr, part, event, outside, meet)
}

/// Writes one part of an access that may be in range.
fn tested(
    code: &mut Code,
    s: &Scene,
    known: &mut Known,
    target: Target,
    addr: Addr,
    part: u8,
    event: Event,
) -> Result<(), OutOfMemory>
    requires { AreFew s.now.tables.now }
    ensures code { OnOk result (code.new ≡ code.old ++ (test_code (context_in s.now) (env_of known.old) (length code.old) target addr part ++ guard_code (context_in s.now) no_register (length code.old + test_size (context_in s.now) (env_of known.old) addr part) (test_id (context_in s.now) (env_of known.old) (length code.old) addr part) target addr part event)) }
    ensures env { OnOk result (env_of known.new ≡ no_register) }
{
    let id = test(code, s, known, target, addr, part)?;
    known.clear();
    guard(code, s, known, id, target, addr, part, event)
}

/// Writes one part of an access.
pub fn write_part(
    code: &mut Code,
    s: &Scene,
    known: &mut Known,
    target: Target,
    addr: Addr,
    part: u8,
    event: Event,
) -> Result<(), OutOfMemory>
    requires { AreFew s.now.tables.now }
    ensures code { OnOk result (code.new ≡ code.old ++ part_code (context_in s.now) (env_of known.old) (length code.old) target addr part event) }
    ensures env { OnOk result (env_of known.new ≡ part_env (context_in s.now) (env_of known.old) addr part event) }
{
    if is_never(addr, part) {
        zeros(code, s, event)?;
        know_zeros(s, known, event)
    } else {
        tested(code, s, known, target, addr, part, event)
    }
}
