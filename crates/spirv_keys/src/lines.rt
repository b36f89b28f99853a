ghost use Rattle.std.specs.Prelude.{◌≡◌, OnOk};
ghost use Rattle.spirv_code.specs.Needed.{AreWords, add_all, barrier_keys, cast_keys, line_keys, lines_keys, three_keys, typed_keys};

use crate::accesses::{add_access, add_load, add_store};
use crate::operands::{add_operand, add_two};
use crate::table::{add, add_keys};
use dx_base::OutOfMemory;
use dxil_form::{CastOp, Instr, Operand, Program, Reg, Scope, Ty};
use indexmap::IndexSet;
use spirv_code::{Event, Global, Sort, barrier_scope, barrier_semantics, built_in_of, sort_of};

/// Notes what a cast names besides its operand.
fn add_cast(table: &mut IndexSet<Global>, p: &Program, op: CastOp) -> Result<(), OutOfMemory>
    requires { AreWords p.now }
    ensures { OnOk result (table.new.keys ≡ add_all p.now table.old.keys (cast_keys op)) }
{
    let int = Global::Plain(Sort::Int);
    let zero = Global::Number(0);
    let one = Global::Number(1);
    match op {
        CastOp::Trunc => add_keys(table, p, &[int, Global::Plain(Sort::Bool), one, zero]),
        CastOp::Zext => add_keys(table, p, &[int, one, zero]),
        CastOp::Sext => add_keys(table, p, &[int, Global::Number(u32::MAX), zero]),
    }
}

/// Notes a type and what two reads name.
#[tactic(auto, using(crate::proofs::Adding::add_all_more))]
fn add_typed(
    table: &mut IndexSet<Global>,
    p: &Program,
    ty: Ty,
    a: Operand,
    b: Operand,
) -> Result<(), OutOfMemory>
    requires { AreWords p.now }
    ensures { OnOk result (table.new.keys ≡ add_all p.now table.old.keys (typed_keys ty a b)) }
{
    add(table, p, Global::Plain(sort_of(ty)))?;
    add_two(table, p, a, b)
}

/// Notes a type and what three reads name.
#[tactic(auto, using(crate::proofs::Adding::add_all_more))]
fn add_three(
    table: &mut IndexSet<Global>,
    p: &Program,
    ty: Ty,
    x: Operand,
    a: Operand,
    b: Operand,
) -> Result<(), OutOfMemory>
    requires { AreWords p.now }
    ensures { OnOk result (table.new.keys ≡ add_all p.now table.old.keys (three_keys ty x a b)) }
{
    add(table, p, Global::Plain(sort_of(ty)))?;
    add_operand(table, p, x)?;
    add_two(table, p, a, b)
}

/// Notes what a barrier names.
fn add_barrier(
    table: &mut IndexSet<Global>,
    p: &Program,
    scope: Scope,
    uav: bool,
    shared: bool,
) -> Result<(), OutOfMemory>
    requires { AreWords p.now }
    ensures { OnOk result (table.new.keys ≡ add_all p.now table.old.keys (barrier_keys scope uav shared)) }
{
    let memory = Global::Number(barrier_scope(scope));
    let semantics = Global::Number(barrier_semantics(uav, shared));
    add_keys(table, p, &[Global::Number(2), memory, semantics])
}

/// Notes what an instruction names.
#[tactic(auto, using(crate::proofs::Adding::add_all_more))]
fn add_line(table: &mut IndexSet<Global>, p: &Program, line: &Instr) -> Result<(), OutOfMemory>
    requires { AreWords p.now }
    ensures { OnOk result (table.new.keys ≡ add_all p.now table.old.keys (line_keys p.now line.now)) }
{
    match *line {
        Instr::Bin { ty, a, b, .. } => add_typed(table, p, ty, a, b),
        Instr::Cmp { a, b, .. } => add_typed(table, p, Ty::Bool, a, b),
        Instr::Cast { op, a, .. } => {
            add_cast(table, p, op)?;
            add_operand(table, p, a)
        }
        Instr::Select { ty, cond, a, b, .. } => add_three(table, p, ty, cond, a, b),
        Instr::Copy { a, .. } => add_operand(table, p, a),
        Instr::One { a, .. } => {
            add(table, p, Global::Plain(Sort::Int))?;
            add_operand(table, p, a)
        }
        Instr::Two { a, b, .. } => {
            add(table, p, Global::Plain(Sort::Int))?;
            add_typed(table, p, Ty::Bool, a, b)
        }
        Instr::Mad { a, b, c, .. } => add_three(table, p, Ty::Int, a, b, c),
        Instr::Id { op, .. } => add_keys(
            table,
            p,
            &[Global::Plain(Sort::Int), Global::Input(built_in_of(op))],
        ),
        Instr::Size { buffer, .. } => add_keys(
            table,
            p,
            &[Global::Plain(Sort::Int), Global::Buffer(buffer)],
        ),
        Instr::Load {
            to,
            mask,
            target,
            addr,
        } => add_load(table, p, to, mask, target, addr),
        Instr::Store {
            mask,
            target,
            addr,
            x,
            y,
            z,
            w,
        } => add_store(table, p, mask, target, addr, x, y, z, w),
        Instr::Atomic {
            to,
            op,
            target,
            addr,
            value,
        } => add_access(table, p, target, addr, 0, Event::Atomic { to, op, value }),
        Instr::Swap {
            to,
            target,
            addr,
            compare,
            value,
        } => {
            let old = Reg { value: to, part: 0 };
            let same = Reg { value: to, part: 1 };
            let event = Event::Swap {
                old,
                same,
                compare,
                value,
            };
            add_access(table, p, target, addr, 0, event)
        }
        Instr::Barrier {
            scope,
            uav,
            shared,
            ..
        } => add_barrier(table, p, scope, uav, shared),
        Instr::Nothing => Ok(()),
    }
}

/// Notes what instructions name.
#[tactic(auto, using(crate::proofs::Adding::add_all_more))]
pub fn add_lines(
    table: &mut IndexSet<Global>,
    p: &Program,
    lines: &[Instr],
) -> Result<(), OutOfMemory>
    requires { AreWords p.now }
    ensures { OnOk result (table.new.keys ≡ add_all p.now table.old.keys (lines_keys p.now lines.now)) }
{
    for line in lines {
        add_line(table, p, line)?;
    }
    Ok(())
}
