ghost use Rattle.std.specs.Prelude.{◌≡◌, IfOk};
ghost use Rattle.bitstream_spelling.specs.Framed.{LiesIn};
ghost use Rattle.llvm_values.specs.Values.{constant_of as constant_stated, enters_constants, is_of_constants, kind_of as kind_stated, pairs as pairs_stated, place_of as place_stated, sets_type, signed as signed_form, type_after as type_then};

use crate::code::{BODY, CE_GEP, CE_INBOUNDS_GEP, CONSTANTS, INTEGER, NULL, SETTYPE, UNDEF};
use crate::field::{field_at, number_of};
use crate::global::{ConstKind, Global};
use bitstream_spelling::Item;
use dx_base::{Cases, List, OutOfMemory};
use llvm_items::{OpenBlocks, code_of, fields_of};
use std::alloc::Global as Heap;

/// Whether the item enters a block of constants, of the module or of a body.
fn enters_block(around: &OpenBlocks, item: Item) -> bool
    ensures { result ≡ enters_constants (record { around = around.now; item = item }) }
{
    around.enters(CONSTANTS, item) || around.enters_inside(BODY, CONSTANTS, item)
}

/// Whether the item is a record of such a block.
pub fn is_in_block(around: &OpenBlocks, item: Item) -> bool
    ensures { result ≡ is_of_constants (record { around = around.now; item = item }) }
{
    around.has_record_of(CONSTANTS, item) || around.has_record_inside(BODY, CONSTANTS, item)
}

/// Whether the item is a SETTYPE in such a block.
pub fn is_set_type(around: &OpenBlocks, item: Item) -> bool
    ensures { result ≡ sets_type (record { around = around.now; item = item }) }
{
    is_in_block(around, item) && code_of(item) == SETTYPE
}

/// The type of the constants behind an item, where `ty` holds before it.
///
/// The entry of a block of constants makes it None, which means a 32-bit integer, and a SETTYPE makes it its own.
pub fn type_after(ty: Option<u32>, around: &OpenBlocks, item: Item, fields: &[u64]) -> Option<u32>
    requires { LiesIn fields.now item }
    ensures { result ≡ type_then fields.now ty (record { around = around.now; item = item }) }
{
    if enters_block(around, item) {
        None
    } else if is_set_type(around, item) {
        Some(number_of(field_at(fields_of(item, fields), 0)))
    } else {
        ty
    }
}

/// The number that a field has in signed form.
fn signed(field: u64) -> i64
    ensures { result ≡ signed_form field }
{
    let half = (field / 2) as i64;
    if field % 2 == 0 {
        half
    } else if field == 1 {
        i64::MIN
    } else {
        -half
    }
}

/// The fields two by two; a last one without a second is passed over.
fn pairs(alloc: Heap, fields: &[u64]) -> Result<Cases, OutOfMemory>
    ensures { IfOk result (λ pairs. pairs ≡ pairs_stated fields.now) }
{
    let mut pairs = List::new(alloc);
    for place in 0..fields.len() / 2 {
        let pair = (
            number_of(fields[2 * place]),
            number_of(fields[2 * place + 1]),
        );
        if pairs.push(pair).is_err() {
            return Err(OutOfMemory);
        }
    }
    Ok(pairs)
}

fn place_of(alloc: Heap, fields: &[u64]) -> Result<ConstKind, OutOfMemory>
    ensures { IfOk result (λ kind. kind ≡ place_stated fields.now) }
{
    if fields.len() % 2 == 1 {
        let args = pairs(alloc, &fields[1..])?;
        Ok(ConstKind::Gep {
            source: Some(number_of(fields[0])),
            args,
        })
    } else {
        let args = pairs(alloc, fields)?;
        Ok(ConstKind::Gep { source: None, args })
    }
}

fn kind_of(alloc: Heap, code: u64, fields: &[u64]) -> Result<ConstKind, OutOfMemory>
    ensures { IfOk result (λ kind. kind ≡ kind_stated code fields.now) }
{
    match code {
        NULL => Ok(ConstKind::Null),
        UNDEF => Ok(ConstKind::Undef),
        INTEGER => Ok(ConstKind::Integer(signed(field_at(fields, 0)))),
        CE_GEP | CE_INBOUNDS_GEP => place_of(alloc, fields),
        _ => Ok(ConstKind::Other),
    }
}

/// The constant that a record with this code and these fields states, where `ty` is the type that its block has set (LLVM 3.7 bitcode file format, "CONSTANTS_BLOCK Contents").
#[tactic(auto, unfolding(crate::specs::Values::constant_of))]
pub fn constant_of(
    alloc: Heap,
    ty: Option<u32>,
    code: u64,
    fields: &[u64],
    bit: u64,
) -> Result<Global, OutOfMemory>
    ensures { IfOk result (λ constant. constant ≡ constant_stated ty code fields.now bit) }
{
    let kind = kind_of(alloc, code, fields)?;
    Ok(Global::Constant { ty, kind, bit })
}
