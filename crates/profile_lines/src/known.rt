ghost use Rattle.std.specs.Prelude.{◌≡◌, ◌++◌, IfOk, OnOk, map, drop, slice_get, get_or, length, nat_lt, if◌then◌else◌};
ghost use Rattle.std.specs.Option.{option_copied};
ghost use Rattle.profile_lines.specs.Calls.{carried as is_carried, operand as is_operand};
ghost use Rattle.profile_lines.specs.Setters.{AreSetters};
ghost use Rattle.profile_lines.specs.Values as is;

use crate::call::{Outcome, carried, operand, operation, outcome_of};
use crate::pool::Pool;
use crate::setters::setter;
use dx_base::{List, OutOfMemory};
use dxil_form::OpKind;
use llvm_bodies::Line;
use llvm_layout::code::{
    ATOMICRMW, BINOP, CALL, CAST, CMP2, CMPXCHG, EXTRACTVAL, GEP, LOAD, PHI, VSELECT,
};
use llvm_types::LlvmType;
use llvm_values::{ConstKind, Global};
use std::alloc::Global as Heap;

/// What a value is to the places that name it.
#[derive(Clone, Copy, Debug, PartialEq, Eq)]
pub enum ValueKind {
    /// An `i32`.
    Int,
    /// An `i1`.
    Bool,
    /// A handle of a resource.
    Handle,
    /// What a load of a buffer or a compare and exchange gives.
    Parts,
    /// A variable of the module, or a place in one.
    Place,
    Other,
}

/// The LLVM type of a value, as far as it is asked for. Types go by number.
#[derive(Clone, Copy, Debug, PartialEq, Eq)]
pub enum ValueType {
    /// A type of the module.
    Numbered(u32),
    /// `i32`, which a constant has before its block sets a type.
    Word,
    /// `i1`, which a compare gives.
    Flag,
    /// A pointer to a type of the module.
    Pointer(u32),
    /// The structure of an `i32` and an `i1`, which a compare and exchange gives.
    Exchanged,
    Unknown,
}

/// What is known of a value.
#[derive(Clone, Copy, Debug)]
pub struct Known {
    pub ty: ValueType,
    pub kind: ValueKind,
}

/// Values by number.
pub type KnownList = List<Known>;

/// What is known of a number that no value has.
const UNKNOWN: Known = Known {
    ty: ValueType::Unknown,
    kind: ValueKind::Other,
};

fn kind_of_width(width: u64) -> ValueKind
    ensures { result ≡ is.kind_of_width width }
{
    match width {
        32 => ValueKind::Int,
        1 => ValueKind::Bool,
        _ => ValueKind::Other,
    }
}

/// The kind of the values of a type, by the type's number.
pub fn kind_by(pool: &Pool, ty: u32) -> ValueKind
    ensures { result ≡ is.kind_by pool.now ty }
{
    match pool.ty(ty) {
        Some(LlvmType::Integer(width)) => kind_of_width(*width),
        _ => ValueKind::Other,
    }
}

/// The kind of the values of a type.
pub fn kind_in(pool: &Pool, ty: ValueType) -> ValueKind
    ensures { result ≡ is.kind_in pool.now ty }
{
    match ty {
        ValueType::Numbered(ty) => kind_by(pool, ty),
        ValueType::Word => ValueKind::Int,
        ValueType::Flag => ValueKind::Bool,
        ValueType::Pointer(_) => ValueKind::Other,
        ValueType::Exchanged => ValueKind::Other,
        ValueType::Unknown => ValueKind::Other,
    }
}

fn numbered(ty: Option<u32>) -> ValueType
    ensures { result ≡ is.numbered ty }
{
    match ty {
        Some(ty) => ValueType::Numbered(ty),
        None => ValueType::Unknown,
    }
}

fn constant_type(ty: Option<u32>) -> ValueType
    ensures { result ≡ is.constant_type ty }
{
    match ty {
        Some(ty) => ValueType::Numbered(ty),
        None => ValueType::Word,
    }
}

/// What a pointer points to.
fn pointee(pool: &Pool, ty: ValueType) -> ValueType
    ensures { result ≡ is.pointee pool.now ty }
{
    match ty {
        ValueType::Numbered(ty) => match pool.ty(ty) {
            Some(LlvmType::Pointer { to, .. }) => ValueType::Numbered(*to),
            _ => ValueType::Unknown,
        },
        ValueType::Pointer(ty) => ValueType::Numbered(ty),
        _ => ValueType::Unknown,
    }
}

/// The type at a place, if there is one.
fn number_at(fields: &[u32], n: u64) -> Option<u32>
    ensures { result ≡ slice_get fields.now n }
{
    match fields.get(n as usize) {
        Some(ty) => Some(*ty),
        None => None,
    }
}

fn member_in(ty: Option<&LlvmType>, n: u64) -> ValueType
    ensures { result ≡ is.member_in (option_copied ty.entry) n }
{
    match ty {
        Some(LlvmType::Struct { fields }) => numbered(number_at(fields.as_slice(), n)),
        Some(LlvmType::Array { of, .. }) => ValueType::Numbered(*of),
        _ => ValueType::Unknown,
    }
}

/// A member of a structure or an array.
fn member(pool: &Pool, ty: ValueType, n: u64) -> ValueType
    ensures { result ≡ is.member pool.now ty n }
{
    match ty {
        ValueType::Numbered(ty) => member_in(pool.ty(ty), n),
        ValueType::Exchanged => match n {
            0 => ValueType::Word,
            1 => ValueType::Flag,
            _ => ValueType::Unknown,
        },
        _ => ValueType::Unknown,
    }
}

/// What an EXTRACTVAL takes, member by member.
fn members(pool: &Pool, mut ty: ValueType, path: &[u64]) -> ValueType
    ensures { result ≡ is.members pool.now ty path.now }
{
    for n in path {
        ty = member(pool, ty, *n);
    }
    ty
}

fn element_in(ty: Option<&LlvmType>, n: Option<u32>) -> Option<u32>
    ensures { result ≡ is.element_in (option_copied ty.entry) n }
{
    match ty {
        Some(LlvmType::Array { of, .. }) => Some(*of),
        Some(LlvmType::Vector { of, .. }) => Some(*of),
        Some(LlvmType::Struct { fields }) => match n {
            Some(n) => number_at(fields.as_slice(), n as u64),
            None => None,
        },
        _ => None,
    }
}

/// What an index of a GEP goes into.
fn element(pool: &Pool, ty: Option<u32>, index: u32) -> Option<u32>
    ensures { result ≡ is.element pool.now ty index }
{
    match ty {
        Some(ty) => element_in(pool.ty(ty), pool.constant(32, index)),
        None => None,
    }
}

fn elements(pool: &Pool, mut ty: Option<u32>, indices: &[u32]) -> Option<u32>
    ensures { result ≡ is.elements pool.now ty indices.now }
{
    for index in indices {
        ty = element(pool, ty, *index);
    }
    ty
}

fn pointer_to(ty: Option<u32>) -> ValueType
    ensures { result ≡ is.pointer_to ty }
{
    match ty {
        Some(ty) => ValueType::Pointer(ty),
        None => ValueType::Unknown,
    }
}

/// What a compare of values of a type gives.
fn compared(pool: &Pool, ty: ValueType) -> ValueType
    ensures { result ≡ is.compared pool.now ty }
{
    match ty {
        ValueType::Numbered(ty) => match pool.ty(ty) {
            Some(LlvmType::Vector { .. }) => ValueType::Unknown,
            _ => ValueType::Flag,
        },
        _ => ValueType::Flag,
    }
}

/// The result of a function type.
fn result_by(pool: &Pool, ty: Option<u32>) -> ValueType
    ensures { result ≡ is.result_by pool.now ty }
{
    match ty {
        Some(ty) => match pool.ty(ty) {
            Some(LlvmType::Function { ret, .. }) => ValueType::Numbered(*ret),
            _ => ValueType::Unknown,
        },
        None => ValueType::Unknown,
    }
}

fn function_type(value: Option<&Global>) -> Option<u32>
    ensures { result ≡ is.function_type (option_copied value.entry) }
{
    match value {
        Some(Global::Function { ty, .. }) => Some(*ty),
        _ => None,
    }
}

fn first_some(ty: Option<u32>, other: Option<u32>) -> Option<u32>
    ensures { result ≡ is.first_some ty other }
{
    match ty {
        Some(_) => ty,
        None => other,
    }
}

/// The type of what a call gives.
pub fn call_type(pool: &Pool, line: &Line) -> ValueType
    ensures { result ≡ is.call_type pool.now line.now }
{
    let callee = function_type(pool.stated(operand(line, 0)));
    result_by(pool, first_some(carried(line, 0), callee))
}

/// Whether a value is a variable of the module.
pub fn is_variable(value: Option<&Global>) -> bool
    ensures { result ≡ is.is_variable (option_copied value.entry) }
{
    match value {
        Some(Global::Variable { .. }) => true,
        _ => false,
    }
}

/// The value number of a pair, or 0.
fn pair_value(args: &[(u32, u32)], n: usize) -> u32
    ensures { result ≡ (get_or args.now n (0, 0)).1 }
{
    match args.get(n) {
        Some(pair) => pair.1,
        None => 0,
    }
}

fn constant_kind(pool: &Pool, ty: Option<u32>, kind: &ConstKind) -> ValueKind
    ensures { result ≡ is.constant_kind pool.now ty kind.now }
{
    match kind {
        ConstKind::Null => kind_in(pool, constant_type(ty)),
        ConstKind::Undef => kind_in(pool, constant_type(ty)),
        ConstKind::Integer(_) => kind_in(pool, constant_type(ty)),
        ConstKind::Gep { args, .. } => {
            if is_variable(pool.stated(pair_value(args.as_slice(), 0))) {
                ValueKind::Place
            } else {
                ValueKind::Other
            }
        }
        ConstKind::Other => ValueKind::Other,
    }
}

/// What is known of a variable, a function or a constant.
fn known_of(pool: &Pool, value: &Global) -> Known
    ensures { result ≡ is.known_of pool.now value.now }
{
    match value {
        Global::Variable { ty, .. } => Known {
            ty: ValueType::Pointer(*ty),
            kind: ValueKind::Place,
        },
        Global::Function { ty, .. } => Known {
            ty: ValueType::Pointer(*ty),
            kind: ValueKind::Other,
        },
        Global::Constant { ty, kind, .. } => Known {
            ty: constant_type(*ty),
            kind: constant_kind(pool, *ty, kind),
        },
    }
}

/// What is known of the value with a number.
pub fn known_at(known: &[Known], number: u32) -> Known
    ensures { result ≡ get_or known.now number is.unknown }
{
    match known.get(number as usize) {
        Some(known) => *known,
        None => UNKNOWN,
    }
}

fn operand_type(known: &[Known], line: &Line, place: u32) -> ValueType
    ensures { result ≡ is.operand_type known.now line.now place }
{
    let number = operand(line, place as usize);
    if (number as usize) < known.len() {
        known_at(known, number).ty
    } else {
        numbered(carried(line, place))
    }
}

fn load_type(pool: &Pool, known: &[Known], line: &Line) -> ValueType
    ensures { result ≡ is.load_type pool.now known.now line.now (is_carried line.now 1) }
{
    match carried(line, 1) {
        Some(ty) => ValueType::Numbered(ty),
        None => pointee(pool, operand_type(known, line, 0)),
    }
}

/// The numbers behind the first two.
fn indices(numbers: &[u32]) -> &[u32]
    ensures { result.now ≡ drop 2 numbers.now }
{
    if numbers.len() < 2 {
        &[]
    } else {
        &numbers[2..]
    }
}

/// The type of what a line gives, to an EXTRACTVAL before it.
fn given_type(pool: &Pool, line: Option<&Line>) -> ValueType
    ensures { result ≡ is.given_type pool.now (option_copied line.entry) }
{
    match line {
        Some(line) => match line.code as u64 {
            CALL => call_type(pool, line),
            CMPXCHG => ValueType::Exchanged,
            _ => ValueType::Unknown,
        },
        None => ValueType::Unknown,
    }
}

/// The type of the operand of an EXTRACTVAL.
fn source_type(
    pool: &Pool,
    lines: &[Line],
    setters: &[Option<u32>],
    known: &[Known],
    line: &Line,
) -> ValueType
    requires { AreSetters lines.now lines.now setters.now }
    ensures { result ≡ is.source_type pool.now lines.now (length setters.now) known.now line.now }
{
    let number = operand(line, 0);
    if (number as usize) < known.len() {
        known_at(known, number).ty
    } else {
        given_type(pool, setter(lines, setters, number))
    }
}

/// The type of the value of an ATOMICRMW.
fn atomic_type(known: &[Known], line: &Line) -> ValueType
    ensures { result ≡ (if nat_lt (is_operand line.now 1) (length known.now) then (get_or known.now (is_operand line.now 1) is.unknown).ty else ValueType.Word) }
{
    let number = operand(line, 1);
    if (number as usize) < known.len() {
        known_at(known, number).ty
    } else {
        ValueType::Word
    }
}

/// The LLVM type of what a line gives, behind values of which this is known.
fn line_type(
    pool: &Pool,
    lines: &[Line],
    setters: &[Option<u32>],
    known: &[Known],
    line: &Line,
) -> ValueType
    requires { AreSetters lines.now lines.now setters.now }
    ensures { result ≡ is.line_type pool.now lines.now (length setters.now) known.now line.now }
{
    match line.code as u64 {
        BINOP => operand_type(known, line, 0),
        CAST => numbered(carried(line, 1)),
        PHI => numbered(carried(line, 0)),
        LOAD => load_type(pool, known, line),
        EXTRACTVAL => {
            let source = source_type(pool, lines, setters, known, line);
            members(pool, source, line.plain.as_slice())
        }
        CMP2 => compared(pool, operand_type(known, line, 0)),
        VSELECT => operand_type(known, line, 0),
        CALL => call_type(pool, line),
        ATOMICRMW => atomic_type(known, line),
        GEP => pointer_to(elements(pool, carried(line, 0), indices(line.numbers.as_slice()))),
        CMPXCHG => ValueType::Exchanged,
        _ => ValueType::Unknown,
    }
}

fn kind_of_call(op: Option<OpKind>) -> ValueKind
    ensures { result ≡ is.kind_of_call op }
{
    match op {
        Some(op) => match outcome_of(op) {
            Outcome::Number => ValueKind::Int,
            Outcome::Handle => ValueKind::Handle,
            Outcome::Parts => ValueKind::Parts,
            Outcome::Nothing => ValueKind::Other,
        },
        None => ValueKind::Other,
    }
}

/// The kind of what a line gives, which is of this type.
fn line_kind(pool: &Pool, ty: ValueType, line: &Line) -> ValueKind
    ensures { result ≡ is.line_kind pool.now ty line.now }
{
    match line.code as u64 {
        CALL => kind_of_call(operation(pool, line)),
        GEP => {
            if is_variable(pool.stated(operand(line, 0))) {
                ValueKind::Place
            } else {
                kind_in(pool, ty)
            }
        }
        CMPXCHG => ValueKind::Parts,
        _ => kind_in(pool, ty),
    }
}

/// What is known of the value of a line.
fn known_line(
    pool: &Pool,
    lines: &[Line],
    setters: &[Option<u32>],
    known: &[Known],
    line: &Line,
) -> Known
    requires { AreSetters lines.now lines.now setters.now }
    ensures { result ≡ is.known_line pool.now lines.now (length setters.now) known.now line.now }
{
    let ty = line_type(pool, lines, setters, known, line);
    Known {
        ty,
        kind: line_kind(pool, ty, line),
    }
}

/// Adds what is known of the value of a line, if it gives one.
fn add_value(
    pool: &Pool,
    lines: &[Line],
    setters: &[Option<u32>],
    known: &mut KnownList,
    line: &Line,
) -> Result<(), OutOfMemory>
    requires { AreSetters lines.now lines.now setters.now }
    ensures { OnOk result (known.new ≡ is.with_value pool.now lines.now (length setters.now) known.old line.now line.now.value) }
{
    if line.value.is_none() {
        return Ok(());
    }
    let value = known_line(pool, lines, setters, known.as_slice(), line);
    match known.push(value) {
        Ok(()) => Ok(()),
        Err(_) => Err(OutOfMemory),
    }
}

fn add_lines(
    pool: &Pool,
    lines: &[Line],
    setters: &[Option<u32>],
    known: &mut KnownList,
) -> Result<(), OutOfMemory>
    requires { AreSetters lines.now lines.now setters.now }
    ensures { OnOk result (known.new ≡ is.known_from pool.now lines.now (length setters.now) known.old lines.now) }
{
    for line in lines {
        add_value(pool, lines, setters, known, line)?;
    }
    Ok(())
}

fn add_stated(pool: &Pool, known: &mut KnownList, values: &[Global]) -> Result<(), OutOfMemory>
    ensures { OnOk result (known.new ≡ known.old ++ map (is.known_of pool.now) values.now) }
{
    for value in values {
        if known.push(known_of(pool, value)).is_err() {
            return Err(OutOfMemory);
        }
    }
    Ok(())
}

/// The values of a body by number: those of the module, the constants of the body, and those of its lines. `setters` tells which line gives each of them.
///
/// # Errors
///
/// Want of memory.
#[tactic(auto, unfolding(crate::specs::Values::known_values))]
pub fn known_values(
    alloc: Heap,
    pool: &Pool,
    lines: &[Line],
    setters: &[Option<u32>],
) -> Result<KnownList, OutOfMemory>
    requires { AreSetters lines.now lines.now setters.now }
    ensures { IfOk result (λ known. known ≡ is.known_values pool.now (length setters.now) lines.now) }
{
    let mut known = List::new(alloc);
    add_stated(pool, &mut known, pool.globals())?;
    add_stated(pool, &mut known, pool.constants())?;
    add_lines(pool, lines, setters, &mut known)?;
    Ok(known)
}
