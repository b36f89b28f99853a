ghost use Rattle.std.specs.Prelude.{◌≡◌};
ghost use Rattle.profile_rules.specs.Asked as is;

use llvm_bodies::Line;
use profile_lines::{ValueKind, carried, kind_by, operand};
use profile_tables::{Scope, is_kind, is_plain};

/// Whether a type that a record carries suits the kind of its operand.
pub fn suits(kind: ValueKind, ty: ValueKind) -> bool
    ensures { result ≡ is.suits kind ty }
{
    if is_plain(kind) {
        is_kind(kind, ty)
    } else {
        !is_plain(ty)
    }
}

/// Whether the operand at a place is of a kind.
pub fn is_of_kind(scope: &Scope, line: &Line, place: usize, kind: ValueKind) -> bool
    ensures { result ≡ is.is_of_kind scope.now line.now place kind }
{
    is_kind(scope.kind(operand(line, place)), kind)
}

pub fn is_plain_at(scope: &Scope, line: &Line, place: usize) -> bool
    ensures { result ≡ is.is_plain_at scope.now line.now place }
{
    is_plain(scope.kind(operand(line, place)))
}

/// Whether two operands are of one kind, `i32` or `i1`.
pub fn are_alike(scope: &Scope, line: &Line) -> bool
    ensures { result ≡ is.are_alike scope.now line.now }
{
    is_plain_at(scope, line, 0)
        && is_kind(scope.kind(operand(line, 0)), scope.kind(operand(line, 1)))
}

/// The kind of a type that a record states.
pub fn kind_stated(scope: &Scope, ty: Option<u32>) -> ValueKind
    ensures { result ≡ is.kind_stated scope.now ty }
{
    match ty {
        Some(ty) => kind_by(scope.pool(), ty),
        None => ValueKind::Other,
    }
}

/// The kind of a PHI's type.
pub fn phi_kind(scope: &Scope, line: &Line) -> ValueKind
    ensures { result ≡ is.phi_kind scope.now line.now }
{
    kind_stated(scope, carried(line, 0))
}
