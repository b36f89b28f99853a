ghost use Rattle.std.specs.Prelude.{◌≡◌};
ghost use Rattle.profile_tables.specs.Operands as is;

use crate::kind::ty_of;
use crate::scope::Scope;
use dxil_form::{Operand, Reg, Ty};
use llvm_values::{ConstKind, Global};

fn number_operand(ty: Ty, bits: u64) -> Operand
    ensures { result ≡ is.number_operand ty bits }
{
    match ty {
        Ty::Int => Operand::Int((bits % 0x1_0000_0000) as u32),
        Ty::Bool => Operand::Bool(bits % 2 == 1),
    }
}

fn constant_operand(ty: Ty, kind: &ConstKind) -> Operand
    ensures { result ≡ is.constant_operand ty kind.now }
{
    match kind {
        ConstKind::Null => number_operand(ty, 0),
        ConstKind::Undef => Operand::Undef(ty),
        ConstKind::Integer(number) => number_operand(ty, number.cast_unsigned()),
        ConstKind::Gep { .. } => Operand::Undef(ty),
        ConstKind::Other => Operand::Undef(ty),
    }
}

/// The register of a value.
pub fn register(number: u32) -> Reg
    ensures { result ≡ is.register number }
{
    Reg {
        value: number,
        part: 0,
    }
}

/// What the operand with a number means: a constant, or the register of an instruction's value.
#[tactic(auto, unfolding(crate::specs::Operands::operand_of))]
pub fn operand_of(scope: &Scope, number: u32) -> Operand
    ensures { result ≡ is.operand_of scope.now number }
{
    let ty = ty_of(scope.kind(number));
    match scope.pool().stated(number) {
        Some(Global::Constant { kind, .. }) => constant_operand(ty, kind),
        Some(Global::Variable { .. }) => Operand::Undef(ty),
        Some(Global::Function { .. }) => Operand::Undef(ty),
        None => Operand::Reg {
            reg: register(number),
            ty,
        },
    }
}

fn is_ty(a: Ty, b: Ty) -> bool
    ensures { result ≡ is.is_ty a b }
{
    match a {
        Ty::Int => matches!(&b, Ty::Int),
        Ty::Bool => matches!(&b, Ty::Bool),
    }
}

fn is_bool(a: bool, b: bool) -> bool
    ensures { result ≡ is.is_bool a b }
{
    if a { b } else { !b }
}

/// Whether two operands are the same.
pub fn is_same(a: Operand, b: Operand) -> bool
    ensures { result ≡ is.is_same a b }
{
    match a {
        Operand::Reg { reg, ty } => match b {
            Operand::Reg {
                reg: other,
                ty: same,
            } => { reg.value == other.value && reg.part == other.part && is_ty(ty, same) }
            _ => false,
        },
        Operand::Int(n) => match b {
            Operand::Int(m) => n == m,
            _ => false,
        },
        Operand::Bool(n) => match b {
            Operand::Bool(m) => is_bool(n, m),
            _ => false,
        },
        Operand::Undef(n) => match b {
            Operand::Undef(m) => is_ty(n, m),
            _ => false,
        },
    }
}
