ghost use Rattle.std.specs.Prelude.{◌≡◌, ◌++◌, ◌∷◌, ◌+◌, ◌≤◌, [], OnOk, length};
ghost use Rattle.spirv_code.specs.Frame.{declaration, declarations, rowed, slot_variable, slot_variables, words_declaration};
ghost use Rattle.spirv_code.specs.Keys as keys;
ghost use Rattle.spirv_code.specs.Plans.{global_id, inst, slots_from, table_from};
ghost use Rattle.spirv_code.specs.declared.key.Global.TheVariants.{Plain, Pointer};
ghost use Rattle.spirv_table.specs.Tables.{AreFew, plan_of};

use dx_base::OutOfMemory;
use dxil_form::Target;
use spirv_code::{Global, Slot, Sort, Storage, buffer_storage, input_sort, is_rowed};
use spirv_emit::{Code, Scene};
use spv_form::op;

/// The number of a storage class.
fn storage_class(storage: Storage) -> u32
    ensures { result ≡ keys.storage_class storage }
{
    match storage {
        Storage::Input => 1,
        Storage::Uniform => 2,
        Storage::Workgroup => 4,
        Storage::Function => 7,
        Storage::StorageBuffer => 12,
    }
}

/// Declares the array of a buffer, under its id.
fn declare_words(code: &mut Code, s: &Scene, id: u32, r: u32) -> Result<(), OutOfMemory>
    requires { AreFew s.now.tables.now }
    ensures { OnOk result (code.new ≡ code.old ++ words_declaration s.now.program.now (global_id (plan_of s.now.tables.now)) id (rowed s.now.program.now r) r ∷ []) }
{
    if is_rowed(s.program, r) {
        let row = s.key(Global::Plain(Sort::Row));
        let count = s.number(s.limit(Target::Buffer(r)));
        code.push(op::TYPE_ARRAY, &[id, row, count])
    } else {
        code.push(op::TYPE_RUNTIME_ARRAY, &[id, s.int()])
    }
}

/// Declares a type, under its id.
fn declare_sort(code: &mut Code, s: &Scene, id: u32, sort: Sort) -> Result<(), OutOfMemory>
    requires { AreFew s.now.tables.now }
    ensures { OnOk result (code.new ≡ code.old ++ declaration s.now.program.now (global_id (plan_of s.now.tables.now)) id (Plain sort) ∷ []) }
{
    match sort {
        Sort::Int => code.push(op::TYPE_INT, &[id, 32, 0]),
        Sort::Bool => code.push(op::TYPE_BOOL, &[id]),
        Sort::Triple => code.push(op::TYPE_VECTOR, &[id, s.int(), 3]),
        Sort::Row => code.push(op::TYPE_VECTOR, &[id, s.int(), 4]),
        Sort::Words(r) => declare_words(code, s, id, r),
        Sort::Block(r) => {
            let words = s.key(Global::Plain(Sort::Words(r)));
            code.push(op::TYPE_STRUCT, &[id, words])
        }
        Sort::Array(a) => {
            let count = s.number(s.limit(Target::Shared(a)));
            code.push(op::TYPE_ARRAY, &[id, s.int(), count])
        }
    }
}

/// Declares a variable outside the function, under its id.
fn declare_variable(
    code: &mut Code,
    s: &Scene,
    id: u32,
    storage: Storage,
    to: Sort,
) -> Result<(), OutOfMemory>
    requires { AreFew s.now.tables.now }
    ensures { OnOk result (code.new ≡ code.old ++ inst 59 (global_id (plan_of s.now.tables.now) (Pointer storage to) ∷ id ∷ keys.storage_class storage ∷ []) ∷ []) }
{
    let pointer = s.key(Global::Pointer { storage, to });
    code.push(op::VARIABLE, &[pointer, id, storage_class(storage)])
}

/// Declares a key, under its id.
fn declare(code: &mut Code, s: &Scene, id: u32, key: Global) -> Result<(), OutOfMemory>
    requires { AreFew s.now.tables.now }
    ensures { OnOk result (code.new ≡ code.old ++ declaration s.now.program.now (global_id (plan_of s.now.tables.now)) id key ∷ []) }
{
    match key {
        Global::Plain(sort) => declare_sort(code, s, id, sort),
        Global::Pointer { storage, to } => {
            let to = s.key(Global::Plain(to));
            code.push(op::TYPE_POINTER, &[id, storage_class(storage), to])
        }
        Global::Number(n) => code.push(op::CONSTANT, &[s.int(), id, n]),
        Global::Truth(true) => code.push(op::CONSTANT_TRUE, &[s.truth_type(), id]),
        Global::Truth(false) => code.push(op::CONSTANT_FALSE, &[s.truth_type(), id]),
        Global::Input(number) => {
            declare_variable(code, s, id, Storage::Input, input_sort(number))
        }
        Global::Buffer(r) => {
            let storage = buffer_storage(is_rowed(s.program, r));
            declare_variable(code, s, id, storage, Sort::Block(r))
        }
        Global::Shared(a) => declare_variable(code, s, id, Storage::Workgroup, Sort::Array(a)),
    }
}

/// Declares the keys of the table, in its order.
#[tactic(auto, using(crate::proofs::Numbered::declarations_next))]
pub fn declare_all(code: &mut Code, s: &Scene) -> Result<(), OutOfMemory>
    requires { AreFew s.now.tables.now }
    ensures { OnOk result (code.new ≡ code.old ++ declarations s.now.program.now (global_id (plan_of s.now.tables.now)) (table_from (plan_of s.now.tables.now)) s.now.tables.now.table.keys) }
{
    let from = s.tables.table_from();
    for (i, key) in s.tables.table.as_slice().iter().enumerate() {
        declare(code, s, from + i as u32, *key)?;
    }
    Ok(())
}

/// Declares a variable of the function, which is zero or false at first.
fn declare_slot(code: &mut Code, s: &Scene, id: u32, slot: Slot) -> Result<(), OutOfMemory>
    requires { AreFew s.now.tables.now }
    ensures { OnOk result (code.new ≡ code.old ++ slot_variable (global_id (plan_of s.now.tables.now)) id slot ∷ []) }
{
    let storage = Storage::Function;
    let (to, start) = match slot {
        Slot::Next { truth: true, .. } | Slot::Kept { truth: true, .. } => {
            (Sort::Bool, Global::Truth(false))
        }
        _ => (Sort::Int, Global::Number(0)),
    };
    let pointer = s.key(Global::Pointer { storage, to });
    code.push(op::VARIABLE, &[pointer, id, 7, s.key(start)])
}

/// Declares the variables of the function.
#[tactic(auto, using(crate::proofs::Numbered::slots_next))]
pub fn declare_slots(code: &mut Code, s: &Scene) -> Result<(), OutOfMemory>
    requires { AreFew s.now.tables.now }
    ensures { OnOk result (code.new ≡ code.old ++ slot_variables (global_id (plan_of s.now.tables.now)) (slots_from (plan_of s.now.tables.now)) s.now.tables.now.slots.keys) }
{
    let from = s.tables.slots_from();
    for (i, slot) in s.tables.slots.as_slice().iter().enumerate() {
        declare_slot(code, s, from + i as u32, *slot)?;
    }
    Ok(())
}
