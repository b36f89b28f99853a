ghost use Rattle.std.specs.Prelude.{◌≡◌, ◌<◌, ◌≤◌, get_or, ◌^◌, All, IfOk, length, drop};
ghost use Rattle.llvm_types.specs.Types.{type_of, type_numbers as numbers_in, least_of};

use crate::code::{
    ARRAY, DOUBLE, FLOAT, FUNCTION, HALF, INTEGER, LABEL, METADATA, OPAQUE, POINTER, STRUCT_ANON,
    STRUCT_NAMED, VECTOR,
};
use crate::table::type_numbers;
use dx_base::{List, Numbers, OutOfMemory};
use std::alloc::Global;

/// A type of the module (LLVM 3.7 bitcode file format, "TYPE_BLOCK Contents"). Types within it are named by their numbers.
#[derive(Clone, Debug, Drop)]
pub enum LlvmType {
    Void,
    Float,
    Double,
    Half,
    Label,
    Opaque,
    Metadata,
    /// An integer, with its width in bits.
    Integer(u64),
    /// A pointer to a type, in an address space.
    Pointer {
        to: u32,
        space: u64,
    },
    Array {
        count: u64,
        of: u32,
    },
    Vector {
        count: u64,
        of: u32,
    },
    Struct {
        fields: Numbers,
    },
    /// A function; `vararg` says that it takes a variable number of arguments.
    Function {
        vararg: bool,
        ret: u32,
        params: Numbers,
    },
}

/// Types in number order, from 0 on.
pub type TypeList = List<LlvmType>;

/// The types of a module by number.
#[derive(Debug, Drop)]
pub struct Types {
    pub list: TypeList,
}

/// The fields as type numbers.
fn numbers_of(alloc: Global, fields: &[u64]) -> Result<Numbers, OutOfMemory>
    requires { All (λ t. t < 2 ^ 32) fields.now }
    ensures { IfOk result (λ numbers. numbers ≡ fields.now) }
{
    let mut numbers = List::new(alloc);
    for field in fields {
        if numbers.push(*field as u32).is_err() {
            return Err(OutOfMemory);
        }
    }
    Ok(numbers)
}

/// The field at a place, or 0.
fn field_at(fields: &[u64], at: usize) -> u64
    ensures { result ≡ get_or fields.now at 0 }
{
    match fields.get(at) {
        Some(field) => *field,
        None => 0,
    }
}

/// The first type number, or 0.
fn first_of(types: &[u64]) -> u32
    requires { All (λ t. t < 2 ^ 32) types.now }
    ensures { result ≡ get_or types.now 0 0 }
{
    match types.get(0) {
        Some(ty) => *ty as u32,
        None => 0,
    }
}

fn struct_of(alloc: Global, types: &[u64]) -> Result<LlvmType, OutOfMemory>
    requires { All (λ t. t < 2 ^ 32) types.now }
    ensures { IfOk result (λ ty. ty ≡ LlvmType.Struct types.now) }
{
    let fields = numbers_of(alloc, types)?;
    Ok(LlvmType::Struct { fields })
}

fn function_of(alloc: Global, vararg: bool, types: &[u64]) -> Result<LlvmType, OutOfMemory>
    requires { All (λ t. t < 2 ^ 32) types.now }
    ensures { IfOk result (λ ty. ty ≡ LlvmType.Function vararg (get_or types.now 0 0) (drop 1 types.now)) }
{
    let ret = first_of(types);
    let rest = if types.len() == 0 { types } else { &types[1..] };
    let params = numbers_of(alloc, rest)?;
    Ok(LlvmType::Function {
        vararg,
        ret,
        params,
    })
}

/// The type that a record states whose code takes a number.
#[tactic(auto, unfolding(crate::specs::Types::type_of))]
pub fn kind_of(alloc: Global, code: u64, fields: &[u64]) -> Result<LlvmType, OutOfMemory>
    requires enough { least_of code ≤ length fields.now }
    requires below { All (λ t. t < 2 ^ 32) (numbers_in code fields.now) }
    ensures { IfOk result (λ ty. ty ≡ type_of code fields.now) }
{
    let types = type_numbers(code, fields);
    match code {
        FLOAT => Ok(LlvmType::Float),
        DOUBLE => Ok(LlvmType::Double),
        LABEL => Ok(LlvmType::Label),
        OPAQUE => Ok(LlvmType::Opaque),
        INTEGER => Ok(LlvmType::Integer(field_at(fields, 0))),
        POINTER => Ok(LlvmType::Pointer {
            to: first_of(types),
            space: field_at(fields, 1),
        }),
        HALF => Ok(LlvmType::Half),
        ARRAY => Ok(LlvmType::Array {
            count: field_at(fields, 0),
            of: first_of(types),
        }),
        VECTOR => Ok(LlvmType::Vector {
            count: field_at(fields, 0),
            of: first_of(types),
        }),
        METADATA => Ok(LlvmType::Metadata),
        STRUCT_ANON | STRUCT_NAMED => struct_of(alloc, types),
        FUNCTION => function_of(alloc, field_at(fields, 0) > 0, types),
        _ => Ok(LlvmType::Void),
    }
}
