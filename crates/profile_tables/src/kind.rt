ghost use Rattle.std.specs.Prelude.{◌≡◌};
ghost use Rattle.profile_tables.specs.Kinds as is;

use dxil_form::Ty;
use profile_lines::ValueKind;

/// Whether two kinds are the same.
pub fn is_kind(a: ValueKind, b: ValueKind) -> bool
    ensures { result ≡ is.is_kind a b }
{
    match a {
        ValueKind::Int => matches!(&b, ValueKind::Int),
        ValueKind::Bool => matches!(&b, ValueKind::Bool),
        ValueKind::Handle => matches!(&b, ValueKind::Handle),
        ValueKind::Parts => matches!(&b, ValueKind::Parts),
        ValueKind::Place => matches!(&b, ValueKind::Place),
        ValueKind::Other => matches!(&b, ValueKind::Other),
    }
}

/// Whether a kind is `i32` or `i1`.
pub fn is_plain(kind: ValueKind) -> bool
    ensures { result ≡ is.is_plain kind }
{
    matches!(&kind, ValueKind::Int | ValueKind::Bool)
}

/// The type of a computed value of a kind.
pub fn ty_of(kind: ValueKind) -> Ty
    ensures { result ≡ is.ty_of kind }
{
    match kind {
        ValueKind::Bool => Ty::Bool,
        _ => Ty::Int,
    }
}
