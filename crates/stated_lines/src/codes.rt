ghost use Rattle.std.specs.Prelude.{◌≡◌, ◌≤◌};
ghost use Rattle.stated_program.specs.Instructions as is;

use dxil_form::{AtomicOp, BinOp, CastOp, CmpOp, Instr, Scope as MemoryScope};

/// The operator of a BINOP's opcode.
pub fn bin_of(code: u64) -> BinOp
    ensures { result ≡ is.bin_of code }
{
    match code {
        0 => BinOp::Add,
        1 => BinOp::Sub,
        2 => BinOp::Mul,
        3 => BinOp::UDiv,
        4 => BinOp::SDiv,
        5 => BinOp::URem,
        6 => BinOp::SRem,
        7 => BinOp::Shl,
        8 => BinOp::LShr,
        9 => BinOp::AShr,
        10 => BinOp::And,
        11 => BinOp::Or,
        _ => BinOp::Xor,
    }
}

/// The compare of a predicate.
pub fn cmp_of(code: u64) -> CmpOp
    ensures { result ≡ is.cmp_of code }
{
    match code {
        32 => CmpOp::Eq,
        33 => CmpOp::Ne,
        34 => CmpOp::UGt,
        35 => CmpOp::UGe,
        36 => CmpOp::ULt,
        37 => CmpOp::ULe,
        38 => CmpOp::SGt,
        39 => CmpOp::SGe,
        40 => CmpOp::SLt,
        _ => CmpOp::SLe,
    }
}

/// The cast of a CAST's opcode.
pub fn cast_of(code: u64) -> CastOp
    ensures { result ≡ is.cast_of code }
{
    match code {
        0 => CastOp::Trunc,
        1 => CastOp::Zext,
        _ => CastOp::Sext,
    }
}

/// The operation of an ATOMICRMW.
pub fn rmw_of(code: u64) -> AtomicOp
    ensures { result ≡ is.rmw_of code }
{
    match code {
        0 => AtomicOp::Exchange,
        1 => AtomicOp::Add,
        2 => AtomicOp::Sub,
        3 => AtomicOp::And,
        5 => AtomicOp::Or,
        6 => AtomicOp::Xor,
        7 => AtomicOp::SMax,
        8 => AtomicOp::SMin,
        9 => AtomicOp::UMax,
        _ => AtomicOp::UMin,
    }
}

/// The operation of an AtomicBinOp's kind.
pub fn atomic_of(kind: u32) -> AtomicOp
    ensures { result ≡ is.atomic_of kind }
{
    match kind {
        0 => AtomicOp::Add,
        1 => AtomicOp::And,
        2 => AtomicOp::Or,
        3 => AtomicOp::Xor,
        4 => AtomicOp::SMin,
        5 => AtomicOp::SMax,
        6 => AtomicOp::UMin,
        7 => AtomicOp::UMax,
        _ => AtomicOp::Exchange,
    }
}

/// Whether a barrier's mode has a bit.
fn has_mode(mode: u32, bit: u32) -> bool
    requires { bit ≤ 3 }
    ensures { result ≡ is.has_mode mode bit }
{
    (mode >> bit) % 2 == 1
}

fn scope_of(mode: u32) -> MemoryScope
    ensures { result ≡ is.scope_of mode }
{
    if has_mode(mode, 1) {
        MemoryScope::Device
    } else if has_mode(mode, 2) || has_mode(mode, 3) {
        MemoryScope::Group
    } else {
        MemoryScope::Nobody
    }
}

/// The barrier of a mode.
pub fn barrier_of(mode: u32) -> Instr
    ensures { result ≡ is.barrier_of mode }
{
    Instr::Barrier {
        sync: has_mode(mode, 0),
        scope: scope_of(mode),
        uav: has_mode(mode, 1) || has_mode(mode, 2),
        shared: has_mode(mode, 3),
    }
}
