ghost use Rattle.std.specs.Prelude.{◌≡◌, get_or};
ghost use Rattle.llvm_bodies.specs.Bodies.{has_value, called as called_by, typed as typed_by, callee_of as callee_in, signature_of as signature_in, gives as gives_value};

use dx_base::{List, Numbers};
use llvm_layout::code::{
    BR, CALL, DEBUG_LOC, DEBUG_LOC_AGAIN, DECLAREBLOCKS, RET, STORE, SWITCH, UNREACHABLE,
};
use llvm_layout::{back_from, is_stated};

/// What a function's type says of its calls; `is_function` is false where there is no function.
#[derive(Clone, Copy, Debug, PartialEq, Eq)]
pub struct Signature {
    pub is_function: bool,
    /// Whether the function takes a variable number of arguments.
    pub vararg: bool,
    /// Whether its result is void.
    pub is_void: bool,
    /// How many parameters it has.
    pub params: u32,
}

/// What the bodies of a module need to know of its other records.
#[derive(Debug, Drop)]
pub struct ModuleFacts {
    /// The signature of each value of the module, by its number; of a value that is no function, none.
    pub callees: List<Signature>,
    /// The signature of each type of the module, by its number; of a type that is no function type, none.
    pub types: List<Signature>,
    /// The number of arguments of each function that has a body.
    pub arguments: Numbers,
}

const NO_FUNCTION: Signature = Signature {
    is_function: false,
    vararg: false,
    is_void: false,
    params: 0,
};

/// The signature of a value of the module.
fn called(facts: &ModuleFacts, number: u32) -> Signature
    ensures { result ≡ called_by facts.now number }
{
    match facts.callees.get(number as usize) {
        Some(signature) => *signature,
        None => NO_FUNCTION,
    }
}

/// The signature of a type of the module.
fn typed(facts: &ModuleFacts, number: u64) -> Signature
    ensures { result ≡ typed_by facts.now number }
{
    match facts.types.get(number as usize) {
        Some(signature) => *signature,
        None => NO_FUNCTION,
    }
}

fn field_at(fields: &[u64], at: usize) -> u64
    ensures { result ≡ get_or fields.now at 0 }
{
    match fields.get(at) {
        Some(field) => *field,
        None => 0,
    }
}

/// The signature of the value that a call names as its callee.
pub fn callee_of(facts: &ModuleFacts, now: u32, fields: &[u64]) -> Signature
    ensures { result ≡ called_by facts.now (callee_in facts.now now fields.now) }
{
    let place = if is_stated(fields) { 3 } else { 2 };
    called(facts, back_from(now, field_at(fields, place)))
}

/// The signature of the type that a call states, or of its callee.
pub fn signature_of(facts: &ModuleFacts, now: u32, fields: &[u64]) -> Signature
    ensures { result ≡ signature_in facts.now now fields.now }
{
    if is_stated(fields) {
        typed(facts, field_at(fields, 2))
    } else {
        callee_of(facts, now, fields)
    }
}

/// Whether an instruction that is no call gives a value.
fn may_give(code: u64) -> bool
    ensures { result ≡ has_value code }
{
    match code {
        DECLAREBLOCKS | RET | BR | SWITCH | UNREACHABLE => false,
        DEBUG_LOC_AGAIN | DEBUG_LOC | STORE => false,
        _ => true,
    }
}

/// Whether a record gives a value.
pub fn gives(facts: &ModuleFacts, now: u32, code: u64, fields: &[u64]) -> bool
    ensures { result ≡ gives_value facts.now now code fields.now }
{
    may_give(code) && !(code == CALL && signature_of(facts, now, fields).is_void)
}
