ghost use Rattle.std.specs.Prelude.{◌≡◌, ◌≤◌};
ghost use Rattle.std.specs.Option.{option_copied};
ghost use Rattle.profile_rules.specs.Rules as is;
ghost use Rattle.profile_lines.specs.Calls.{operation as operation_by};

use dxil_form::{Class, OpKind};
use llvm_bodies::Line;
use llvm_facts::Row;
use llvm_layout::code::{CMPXCHG, EXTRACTVAL};
use profile_lines::{Pool, argument_at, operand, operation, plain};
use profile_tables::{Scope, class_number};

fn is_handle(op: Option<OpKind>) -> bool
    ensures { result ≡ is.is_handle op }
{
    match op {
        Some(OpKind::CreateHandle) => true,
        _ => false,
    }
}

/// Whether a line breaks P18.
pub fn p18(scope: &Scope, line: &Line) -> bool
    ensures { result ≡ is.p18 scope.now line.now }
{
    is_handle(operation(scope.pool(), line)) && scope.row_named(line).is_none()
}

fn is_buffer(class: Class) -> bool
    ensures { result ≡ is.is_buffer class }
{
    match class {
        Class::Srv => true,
        Class::Uav => true,
        Class::Cbv => false,
    }
}

fn is_stride(bytes: u32) -> bool
    ensures { result ≡ is.is_stride bytes }
{
    bytes != 0 && bytes <= 2048 && bytes % 4 == 0
}

fn is_laid_out(row: &Row) -> bool
    ensures { result ≡ is.is_laid_out row.now }
{
    if is_buffer(row.class) {
        row.kind == 11 || (row.kind == 12 && is_stride(row.size))
    } else {
        row.size != 0 && row.size <= 65536
    }
}

fn is_sound_row(row: &Row) -> bool
    ensures { result ≡ is.is_sound_row row.now }
{
    row.range == 1 && row.lower <= 0x4000_0000 && !row.ordered && is_laid_out(row)
}

/// Whether a line breaks P19.
pub fn p19(scope: &Scope, line: &Line) -> bool
    ensures { result ≡ is.p19 scope.now line.now }
{
    match scope.row_at(scope.row_named(line)) {
        Some(row) => !is_sound_row(row),
        None => false,
    }
}

fn is_cbv(row: Option<&Row>) -> bool
    ensures { result ≡ is.is_cbv (option_copied row.entry) }
{
    match row {
        Some(row) => class_number(row.class) == 2,
        None => false,
    }
}

fn is_loadable(row: Option<&Row>) -> bool
    ensures { result ≡ is.is_loadable (option_copied row.entry) }
{
    match row {
        Some(row) => is_buffer(row.class),
        None => false,
    }
}

fn is_writable(row: Option<&Row>) -> bool
    ensures { result ≡ is.is_writable (option_copied row.entry) }
{
    match row {
        Some(row) => class_number(row.class) == 1,
        None => false,
    }
}

/// Whether a row is of a class that an operation takes.
fn suits_row(op: Option<OpKind>, row: Option<&Row>) -> bool
    ensures { result ≡ is.suits_row op (option_copied row.entry) }
{
    match op {
        Some(OpKind::CBufferLoad) => is_cbv(row),
        Some(OpKind::BufferLoad) => is_loadable(row),
        Some(OpKind::RawLoad) => is_loadable(row),
        Some(OpKind::BufferStore) => is_writable(row),
        Some(OpKind::AtomicBinOp) => is_writable(row),
        Some(OpKind::AtomicCompareExchange) => is_writable(row),
        Some(OpKind::RawStore) => is_writable(row),
        _ => true,
    }
}

/// Whether a line breaks P21.
pub fn p21(scope: &Scope, line: &Line) -> bool
    ensures { result ≡ is.p21 scope.now line.now }
{
    let op = operation(scope.pool(), line);
    !suits_row(op, scope.row_at(scope.handle_row(line)))
}

/// Whether a mask has the bit of a part.
fn has_bit(mask: u32, part: u64) -> bool
    requires { part ≤ 3 }
    ensures { result ≡ is.has_bit mask part }
{
    (mask >> part) % 2 == 1
}

fn allows(mask: Option<u32>, part: u64) -> bool
    requires { part ≤ 3 }
    ensures { result ≡ is.allows mask part }
{
    match mask {
        Some(mask) => has_bit(mask, part),
        None => true,
    }
}

/// Whether a call gives a part.
fn gives_part(pool: &Pool, line: &Line, part: u64) -> bool
    ensures { result ≡ is.gives_part pool.now line.now part (operation_by pool.now line.now) }
{
    match operation(pool, line) {
        Some(OpKind::CBufferLoad) => part <= 3,
        Some(OpKind::BufferLoad) => part <= 3,
        Some(OpKind::RawLoad) => {
            part <= 3 && allows(pool.constant_given(8, argument_at(line, 4)), part)
        }
        _ => true,
    }
}

/// Whether what a line gives has a part.
fn has_part(scope: &Scope, line: Option<&Line>, part: u64) -> bool
    ensures { result ≡ is.has_part scope.now part (option_copied line.entry) }
{
    match line {
        Some(line) => {
            if line.code as u64 == CMPXCHG {
                part <= 1
            } else {
                gives_part(scope.pool(), line, part)
            }
        }
        None => true,
    }
}

/// Whether a line breaks P22.
pub fn p22(scope: &Scope, line: &Line) -> bool
    ensures { result ≡ is.p22 scope.now line.now }
{
    line.code as u64 == EXTRACTVAL
        && (line.plain.len() != 1
            || !has_part(scope, scope.setter(operand(line, 0)), plain(line, 0)))
}
