ghost use Rattle.std.specs.Prelude.{◌≡◌, IfOk};
ghost use Rattle.profile_rules.specs.Rules as is;
ghost use Rattle.profile_rules.specs.Asked.{kind_stated as kind_with};
ghost use Rattle.profile_lines.specs.Calls.{carried as is_carried};
ghost use Rattle.profile_tables.specs.Parts.{has_target as leads_to, goes_to as is_target};

use crate::kinds::{is_of_kind, kind_stated};
use dx_base::OutOfMemory;
use llvm_bodies::Line;
use llvm_layout::code::{ALLOCA, BINOP, BR, CAST, CMP2, RET, SWITCH};
use profile_lines::{ValueKind, carried, operand, plain};
use profile_tables::{Scope, cases_of, is_kind};
use std::alloc::Global;

/// Whether a line breaks P2.
pub fn p2(scope: &Scope, line: &Line) -> bool
    ensures { result ≡ is.p2 scope.now line.now }
{
    let op = plain(line, 0);
    line.code as u64 == BINOP
        && (12 < op || (op < 10 && is_of_kind(scope, line, 0, ValueKind::Bool)))
}

/// The kind of the type that a CAST states.
fn kind_cast(scope: &Scope, line: &Line) -> ValueKind
    ensures { result ≡ kind_with scope.now (is_carried line.now 1) }
{
    kind_stated(scope, carried(line, 1))
}

fn narrows(scope: &Scope, line: &Line) -> bool
    ensures { result ≡ is.narrows scope.now line.now }
{
    plain(line, 0) == 0
        && is_of_kind(scope, line, 0, ValueKind::Int)
        && is_kind(kind_cast(scope, line), ValueKind::Bool)
}

fn widens(scope: &Scope, line: &Line) -> bool
    ensures { result ≡ is.widens scope.now line.now }
{
    (plain(line, 0) == 1 || plain(line, 0) == 2)
        && is_of_kind(scope, line, 0, ValueKind::Bool)
        && is_kind(kind_cast(scope, line), ValueKind::Int)
}

/// Whether a line breaks P3.
pub fn p3(scope: &Scope, line: &Line) -> bool
    ensures { result ≡ is.p3 scope.now line.now }
{
    line.code as u64 == CAST && !(narrows(scope, line) || widens(scope, line))
}

/// Whether a line breaks P4.
pub fn p4(scope: &Scope, line: &Line) -> bool
    ensures { result ≡ is.p4 scope.now line.now }
{
    let predicate = plain(line, 0);
    line.code as u64 == CMP2
        && (predicate < 32
            || 41 < predicate
            || (33 < predicate && is_of_kind(scope, line, 0, ValueKind::Bool)))
}

/// Whether a line breaks P6.
pub fn p6(line: &Line) -> bool
    ensures { result ≡ is.p6 line.now }
{
    line.code as u64 == RET && line.numbers.len() > 0
}

fn goes_to(pairs: &[(u32, u32)], block: u32) -> bool
    ensures { result ≡ is_target block pairs.now }
{
    pairs.iter().any(|pair| pair.1 == block)
}

/// Whether a line goes to a block.
fn has_target(alloc: Global, line: &Line, block: u32) -> Result<bool, OutOfMemory>
    ensures { IfOk result (λ leads. leads ≡ leads_to block line.now) }
{
    match line.code as u64 {
        BR => Ok(if line.numbers.len() == 1 {
            operand(line, 0) == block
        } else {
            operand(line, 0) == block || operand(line, 1) == block
        }),
        SWITCH => {
            let cases = cases_of(alloc, line)?;
            Ok(operand(line, 1) == block || goes_to(cases.as_slice(), block))
        }
        _ => Ok(false),
    }
}

/// Whether a line breaks P8.
pub fn p8(alloc: Global, line: &Line) -> Result<bool, OutOfMemory>
    ensures { IfOk result (λ broken. broken ≡ is.p8 line.now) }
{
    has_target(alloc, line, 0)
}

/// Whether a line breaks P9.
pub fn p9(line: &Line) -> bool
    ensures { result ≡ is.p9 line.now }
{
    line.code as u64 == ALLOCA
}
