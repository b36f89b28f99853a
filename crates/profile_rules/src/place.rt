ghost use Rattle.std.specs.Prelude.{◌≡◌};
ghost use Rattle.profile_rules.specs.Rules as is;

use llvm_bodies::Line;
use llvm_layout::code::{ATOMICRMW, LOAD};
use profile_lines::{ValueKind, plain};
use profile_tables::{Scope, is_kind, place_named};

/// Whether a line breaks P10.
pub fn p10(scope: &Scope, line: &Line) -> bool
    ensures { result ≡ is.p10 scope.now line.now }
{
    match place_named(scope, line) {
        Some(place) => !place.sound,
        None => false,
    }
}

fn gives_word(scope: &Scope, value: Option<u32>) -> bool
    ensures { result ≡ is.gives_word scope.now value }
{
    match value {
        Some(number) => is_kind(scope.kind(number), ValueKind::Int),
        None => false,
    }
}

fn is_unlisted(op: u64) -> bool
    ensures { result ≡ is.is_unlisted op }
{
    op == 4 || 10 < op
}

/// Whether a line breaks P12.
pub fn p12(scope: &Scope, line: &Line) -> bool
    ensures { result ≡ is.p12 scope.now line.now }
{
    (line.code as u64 == LOAD && !gives_word(scope, line.value))
        || (line.code as u64 == ATOMICRMW && is_unlisted(plain(line, 0)))
}
