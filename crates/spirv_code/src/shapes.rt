ghost use Rattle.std.specs.Prelude.{◌≡◌, ◌<◌, ◌/◌, ◌%◌, ◌^◌, nat_eq, slice_get, slice_index};
ghost use Rattle.dxil_form.specs.Registers as registers;
ghost use Rattle.spirv_code.specs.Accesses as accesses;
ghost use Rattle.spirv_code.specs.Frame as frames;
ghost use Rattle.spirv_code.specs.Lines as lines;
ghost use Rattle.spirv_code.specs.Plans as plans;

use crate::key::{BuiltIn, Global, Sort, Storage};
use dxil_form::{Addr, IdOp, Kind, Operand, Program, Scope, Target, Ty};

/// The type of a value.
pub fn sort_of(ty: Ty) -> Sort
    ensures { result ≡ plans.sort_of ty }
{
    match ty {
        Ty::Bool => Sort::Bool,
        Ty::Int => Sort::Int,
    }
}

/// The zero of a type.
pub fn zero_of(ty: Ty) -> Global
    ensures { result ≡ plans.zero_of ty }
{
    match ty {
        Ty::Bool => Global::Truth(false),
        Ty::Int => Global::Number(0),
    }
}

/// The rows of a resource, which only a constant buffer has.
fn rows_of(p: &Program, r: u32) -> u32
    ensures { result ≡ plans.rows_of (slice_get p.now.resources r) }
{
    match p.resources.get(r as usize) {
        Some(resource) => match resource.kind {
            Kind::Constant { rows } => rows,
            Kind::Raw | Kind::Structured { .. } => 0,
        },
        None => 0,
    }
}

/// The words of a groupshared array; 0 where there is none.
fn words_of(p: &Program, a: u32) -> u32
    ensures { result ≡ slice_index p.now.shared a }
{
    match p.shared.get(a as usize) {
        Some(words) => *words,
        None => 0,
    }
}

/// The rows of a constant buffer, or the words of a groupshared array.
pub fn limit_of(p: &Program, target: Target) -> u32
    ensures { result ≡ plans.limit_of p.now target }
{
    match target {
        Target::Buffer(r) => rows_of(p, r),
        Target::Shared(a) => words_of(p, a),
    }
}

/// Whether a resource is a constant buffer.
pub fn is_rowed(p: &Program, r: u32) -> bool
    ensures { result ≡ frames.rowed p.now r }
{
    match p.resources.get(r as usize) {
        Some(resource) => match resource.kind {
            Kind::Constant { .. } => true,
            Kind::Raw | Kind::Structured { .. } => false,
        },
        None => false,
    }
}

/// Where the variable of a buffer lies.
pub fn buffer_storage(is_rowed: bool) -> Storage
    ensures { result ≡ frames.buffer_storage is_rowed }
{
    if is_rowed {
        Storage::Uniform
    } else {
        Storage::StorageBuffer
    }
}

/// The type that an input has.
pub fn input_sort(number: BuiltIn) -> Sort
    ensures { result ≡ frames.input_sort number }
{
    match number {
        BuiltIn::WorkgroupId | BuiltIn::LocalInvocationId | BuiltIn::GlobalInvocationId => {
            Sort::Triple
        }
        BuiltIn::LocalInvocationIndex => Sort::Int,
    }
}

/// The built-in of a number of the invocation.
pub fn built_in_of(op: IdOp) -> BuiltIn
    ensures { result ≡ lines.built_in_of op }
{
    match op {
        IdOp::Thread => BuiltIn::GlobalInvocationId,
        IdOp::Group => BuiltIn::WorkgroupId,
        IdOp::InGroup => BuiltIn::LocalInvocationId,
        IdOp::Flat => BuiltIn::LocalInvocationIndex,
    }
}

/// The scope of an atomic.
pub fn scope_of(target: Target) -> u32
    ensures { result ≡ accesses.scope_of target }
{
    match target {
        Target::Buffer(_) => 1,
        Target::Shared(_) => 2,
    }
}

/// The memory scope of a barrier.
pub fn barrier_scope(scope: Scope) -> u32
    ensures { result ≡ lines.barrier_scope scope }
{
    match scope {
        Scope::Device => 1,
        Scope::Group | Scope::Nobody => 2,
    }
}

/// The memory semantics of a barrier.
pub fn barrier_semantics(uav: bool, shared: bool) -> u32
    ensures { result ≡ lines.barrier_semantics uav shared }
{
    match (uav, shared) {
        (true, true) => 0x148,
        (true, false) => 0x48,
        (false, true) => 0x108,
        (false, false) => 0,
    }
}

/// Whether a part has no room in an element, wherever that is.
pub fn is_never(addr: Addr, part: u8) -> bool
    ensures { result ≡ accesses.is_never addr part }
{
    match addr {
        Addr::Element { stride, .. } => stride < 4 + 4 * u32::from(part),
        Addr::Byte { .. } | Addr::Row { .. } | Addr::Index { .. } => false,
    }
}

/// The parts that an access may have.
pub const PARTS: [u8; 4] = [0, 1, 2, 3];

/// Whether a part stands in a mask.
pub fn has_part(mask: u8, part: u8) -> bool
    requires { part < 8 }
    ensures { result ≡ nat_eq (mask / 2 ^ part % 2) 1 }
{
    mask >> part & 1 == 1
}

/// The operand of a part of a store.
pub fn pick(part: u8, x: Operand, y: Operand, z: Operand, w: Operand) -> Operand
    ensures { result ≡ registers.pick part x y z w }
{
    match part {
        0 => x,
        1 => y,
        2 => z,
        _ => w,
    }
}
