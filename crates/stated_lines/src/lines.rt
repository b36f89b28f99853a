ghost use Rattle.std.specs.Prelude.{◌≡◌, ◌<◌, map, IfOk};
ghost use Rattle.profile_lines.specs.Calls.{plain as plain_at};
ghost use Rattle.profile_tables.specs.Places.{place_named as named_by};
ghost use Rattle.stated_program.specs.Accesses as reads;
ghost use Rattle.stated_program.specs.Instructions as is;
ghost use Rattle.stated_lines.specs.Places.{IsNarrow, IsInModule};

use crate::access::index;
use crate::call::{at, called, number_of, set_by};
use crate::codes::{bin_of, cast_of, cmp_of, rmw_of};
use crate::placed::Placed;
use dx_base::{Cases, List, OutOfMemory};
use dxil_form::{Addr, Entry, EntryList, Instr, Operand, Phi, Reg, Target, Term, Ty};
use llvm_bodies::Line;
use llvm_layout::code::{
    ATOMICRMW, BINOP, BR, CALL, CAST, CMP2, CMPXCHG, EXTRACTVAL, GEP, LOAD, RET, STORE, SWITCH,
    VSELECT,
};
use profile_lines::{operand, plain};
use profile_tables::{cases_of, entries_of, operand_of, place_named, ty_of};
use std::alloc::Global;

const NO_VALUE: Operand = Operand::Undef(Ty::Int);

fn ty_at(placed: &Placed, line: &Line, place: usize) -> Ty
    ensures { result ≡ is.ty_at placed.now line.now place }
{
    ty_of(placed.scope().kind(operand(line, place)))
}

/// The type of the value that a line gives.
fn own_ty(placed: &Placed, line: &Line) -> Ty
    ensures { result ≡ is.own_ty placed.now line.now }
{
    ty_of(placed.scope().kind(number_of(line)))
}

/// The part that an EXTRACTVAL takes.
fn part_taken(placed: &Placed, line: &Line) -> Operand
    requires { plain_at line.now 0 < 256 }
    ensures { result ≡ is.part_taken placed.now line.now }
{
    Operand::Reg {
        reg: Reg {
            value: operand(line, 0),
            part: plain(line, 0) as u8,
        },
        ty: own_ty(placed, line),
    }
}

fn array(placed: &Placed, line: &Line) -> Target
    requires { IsInModule placed.now (named_by placed.now line.now) }
    ensures { result ≡ reads.array placed.now (named_by placed.now line.now) }
{
    placed.array(place_named(placed.scope(), line))
}

fn address(placed: &Placed, line: &Line) -> Addr
    ensures { result ≡ reads.index placed.now (named_by placed.now line.now) }
{
    index(placed.scope(), place_named(placed.scope(), line))
}

/// A LOAD of a groupshared array.
fn load(placed: &Placed, line: &Line) -> Instr
    requires { IsInModule placed.now (named_by placed.now line.now) }
    ensures { result ≡ Instr.Load (is.number_of line.now) 1 (reads.array placed.now (named_by placed.now line.now)) (reads.index placed.now (named_by placed.now line.now)) }
{
    Instr::Load {
        to: number_of(line),
        mask: 1,
        target: array(placed, line),
        addr: address(placed, line),
    }
}

/// An ATOMICRMW on a groupshared array.
fn atomic(placed: &Placed, line: &Line) -> Instr
    requires { IsInModule placed.now (named_by placed.now line.now) }
    ensures { result ≡ Instr.Atomic (is.set_by line.now) (is.rmw_of (plain_at line.now 0)) (reads.array placed.now (named_by placed.now line.now)) (reads.index placed.now (named_by placed.now line.now)) (is.at placed.now line.now 1) }
{
    Instr::Atomic {
        to: set_by(line),
        op: rmw_of(plain(line, 0)),
        target: array(placed, line),
        addr: address(placed, line),
        value: at(placed, line, 1),
    }
}

/// A STORE to a groupshared array.
fn store(placed: &Placed, line: &Line) -> Instr
    requires { IsInModule placed.now (named_by placed.now line.now) }
    ensures { result ≡ Instr.Store 1 (reads.array placed.now (named_by placed.now line.now)) (reads.index placed.now (named_by placed.now line.now)) (is.at placed.now line.now 1) is.no_value is.no_value is.no_value }
{
    Instr::Store {
        mask: 1,
        target: array(placed, line),
        addr: address(placed, line),
        x: at(placed, line, 1),
        y: NO_VALUE,
        z: NO_VALUE,
        w: NO_VALUE,
    }
}

/// A CMPXCHG on a groupshared array.
fn swap(placed: &Placed, line: &Line) -> Instr
    requires { IsInModule placed.now (named_by placed.now line.now) }
    ensures { result ≡ Instr.Swap (is.number_of line.now) (reads.array placed.now (named_by placed.now line.now)) (reads.index placed.now (named_by placed.now line.now)) (is.at placed.now line.now 1) (is.at placed.now line.now 2) }
{
    Instr::Swap {
        to: number_of(line),
        target: array(placed, line),
        addr: address(placed, line),
        compare: at(placed, line, 1),
        value: at(placed, line, 2),
    }
}

/// The instruction of a line that is neither a PHI nor a terminator.
#[tactic(auto, unfolding(stated_program::specs::Instructions::instruction))]
pub fn instruction(placed: &Placed, line: &Line) -> Instr
    requires narrow { IsNarrow placed.now line.now }
    requires inside { IsInModule placed.now (named_by placed.now line.now) }
    ensures { result ≡ is.instruction placed.now line.now }
{
    match line.code as u64 {
        BINOP => Instr::Bin {
            to: set_by(line),
            op: bin_of(plain(line, 0)),
            ty: ty_at(placed, line, 0),
            a: at(placed, line, 0),
            b: at(placed, line, 1),
        },
        CAST => Instr::Cast {
            to: set_by(line),
            op: cast_of(plain(line, 0)),
            a: at(placed, line, 0),
        },
        CMP2 => Instr::Cmp {
            to: set_by(line),
            op: cmp_of(plain(line, 0)),
            ty: ty_at(placed, line, 0),
            a: at(placed, line, 0),
            b: at(placed, line, 1),
        },
        VSELECT => Instr::Select {
            to: set_by(line),
            ty: ty_at(placed, line, 0),
            cond: at(placed, line, 2),
            a: at(placed, line, 0),
            b: at(placed, line, 1),
        },
        EXTRACTVAL => Instr::Copy {
            to: set_by(line),
            ty: own_ty(placed, line),
            a: part_taken(placed, line),
        },
        GEP => Instr::Copy {
            to: set_by(line),
            ty: Ty::Int,
            a: at(placed, line, 2),
        },
        CALL => called(placed, line),
        LOAD => load(placed, line),
        ATOMICRMW => atomic(placed, line),
        STORE => store(placed, line),
        CMPXCHG => swap(placed, line),
        _ => Instr::Nothing,
    }
}

fn entries(alloc: Global, placed: &Placed, pairs: &[(u32, u32)]) -> Result<EntryList, OutOfMemory>
    ensures { IfOk result (λ entries. entries ≡ map (is.entry_of placed.now) pairs.now) }
{
    let mut entries = List::new(alloc);
    for pair in pairs {
        let entry = Entry {
            from: pair.1,
            value: operand_of(placed.scope(), pair.0),
        };
        if entries.push(entry).is_err() {
            return Err(OutOfMemory);
        }
    }
    Ok(entries)
}

/// The phi of a PHI.
pub fn phi_at(alloc: Global, placed: &Placed, line: &Line) -> Result<Phi, OutOfMemory>
    ensures { IfOk result (λ phi. phi ≡ is.phi_at placed.now line.now) }
{
    let pairs = entries_of(alloc, line)?;
    let entries = entries(alloc, placed, pairs.as_slice())?;
    Ok(Phi {
        to: set_by(line),
        ty: own_ty(placed, line),
        entries,
    })
}

/// The cases of a SWITCH, each a constant and a block.
fn cases(alloc: Global, placed: &Placed, pairs: &[(u32, u32)]) -> Result<Cases, OutOfMemory>
    ensures { IfOk result (λ cases. cases ≡ map (is.case_of placed.now) pairs.now) }
{
    let mut cases = List::new(alloc);
    for pair in pairs {
        let number = placed.scope().pool().constant(32, pair.0).unwrap_or(0);
        if cases.push((number, pair.1)).is_err() {
            return Err(OutOfMemory);
        }
    }
    Ok(cases)
}

fn branch(placed: &Placed, line: &Line) -> Term
    ensures { result ≡ is.branch_of placed.now line.now }
{
    if line.numbers.len() == 1 {
        Term::Go(operand(line, 0))
    } else {
        Term::If {
            cond: at(placed, line, 2),
            yes: operand(line, 0),
            no: operand(line, 1),
        }
    }
}

/// How a terminator ends its block.
#[tactic(auto, unfolding(stated_program::specs::Instructions::end_of))]
pub fn end_of(alloc: Global, placed: &Placed, line: &Line) -> Result<Term, OutOfMemory>
    ensures { IfOk result (λ term. term ≡ is.end_of placed.now line.now) }
{
    match line.code as u64 {
        RET => Ok(Term::Ret),
        BR => Ok(branch(placed, line)),
        SWITCH => {
            let pairs = cases_of(alloc, line)?;
            let cases = cases(alloc, placed, pairs.as_slice())?;
            Ok(Term::Switch {
                value: at(placed, line, 0),
                default: operand(line, 1),
                cases,
            })
        }
        _ => Ok(Term::Unreachable),
    }
}
