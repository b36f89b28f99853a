ghost use Rattle.std.specs.Prelude.{◌≡◌, ◌≤◌, ◌<◌, ◌^◌, map, length, slice_get, Some, IfOk, All};
ghost use Rattle.std.specs.List.{filter};
ghost use Rattle.llvm_records.specs.Facts.{signature_of as signature_stated, called_by as called, has_body as defines, params_of, facts_of as facts_stated, is_void as states_nothing, HaveFewParams};

use dx_base::{List, Numbers, OutOfMemory};
use llvm_bodies::{ModuleFacts, Signature};
use llvm_types::{LlvmType, Types};
use llvm_values::Global;
use std::alloc::Global as Heap;

const NO_FUNCTION: Signature = Signature {
    is_function: false,
    vararg: false,
    is_void: false,
    params: 0,
};

/// Whether the type with this number is void.
fn is_void(types: &Types, number: u32) -> bool
    ensures { result ≡ states_nothing (slice_get types.now.list number) }
{
    matches!(types.list.get(number as usize), Some(LlvmType::Void))
}

/// The signature of the type with this number.
fn signature_of(types: &Types, number: usize) -> Signature
    requires { HaveFewParams types.now.list }
    ensures { result ≡ signature_stated types.now.list (slice_get types.now.list number) }
{
    match types.list.get(number) {
        Some(
            LlvmType::Function {
                vararg,
                ret,
                params,
            },
        ) => Signature {
            is_function: true,
            vararg: *vararg,
            is_void: is_void(types, *ret),
            params: params.len() as u32,
        },
        _ => NO_FUNCTION,
    }
}

/// The signature of a value of the module.
fn called_by(types: &Types, value: &Global) -> Signature
    requires { HaveFewParams types.now.list }
    ensures { result ≡ called types.now.list value.now }
{
    match value {
        Global::Function { ty, .. } => Signature {
            is_function: true,
            ..signature_of(types, *ty as usize)
        },
        Global::Variable { .. } => NO_FUNCTION,
        Global::Constant { .. } => NO_FUNCTION,
    }
}

fn has_body(value: &Global) -> bool
    ensures { result ≡ defines value.now }
{
    match value {
        Global::Function { body, .. } => body.is_some(),
        Global::Variable { .. } => false,
        Global::Constant { .. } => false,
    }
}

/// The signatures of the values, by number.
fn callees_of(alloc: Heap, types: &Types, values: &[Global]) -> Result<List<Signature>, OutOfMemory>
    requires { HaveFewParams types.now.list }
    ensures { IfOk result (λ list. list ≡ map (called types.now.list) values.now) }
{
    let mut list = List::new(alloc);
    for value in values {
        if list.push(called_by(types, value)).is_err() {
            return Err(OutOfMemory);
        }
    }
    Ok(list)
}

/// The signatures of the types, by number.
fn signatures_of(alloc: Heap, types: &Types) -> Result<List<Signature>, OutOfMemory>
    requires { HaveFewParams types.now.list }
    ensures { IfOk result (λ list. list ≡ map (λ t. signature_stated types.now.list (Some t)) types.now.list) }
{
    let mut list = List::new(alloc);
    for number in 0..types.list.len() {
        match list.push(signature_of(types, number)) {
            Ok(()) => {}
            Err(_) => return Err(OutOfMemory),
        }
    }
    Ok(list)
}

/// The numbers of arguments of the functions that have a body, in order.
fn arguments_of(alloc: Heap, types: &Types, values: &[Global]) -> Result<Numbers, OutOfMemory>
    requires { HaveFewParams types.now.list }
    ensures { IfOk result (λ list. list ≡ map (params_of types.now.list) (filter defines values.now)) }
{
    let mut list = List::new(alloc);
    for value in values {
        if has_body(value) {
            let Signature { params, .. } = called_by(types, value);
            if list.push(params).is_err() {
                return Err(OutOfMemory);
            }
        }
    }
    Ok(list)
}

/// What the bodies of a module need to know of its types and values.
pub fn facts_of(alloc: Heap, types: &Types, values: &[Global]) -> Result<ModuleFacts, OutOfMemory>
    requires { HaveFewParams types.now.list }
    ensures { IfOk result (λ facts. facts ≡ facts_stated types.now.list values.now) }
{
    Ok(ModuleFacts {
        callees: callees_of(alloc, types, values)?,
        types: signatures_of(alloc, types)?,
        arguments: arguments_of(alloc, types, values)?,
    })
}
