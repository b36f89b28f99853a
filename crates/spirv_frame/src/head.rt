ghost use Rattle.std.specs.Prelude.{◌≡◌, ◌++◌, ◌∷◌, [], OnOk};
ghost use Rattle.spirv_code.specs.Frame as frames;
ghost use Rattle.spirv_code.specs.Frame.{interface};
ghost use Rattle.spirv_code.specs.Plans.{inst, table_from};
ghost use Rattle.spirv_table.specs.Tables.{AreFew, plan_of};

use crate::names::push;
use dx_base::OutOfMemory;
use spirv_code::Global as Key;
use spirv_emit::{Code, Scene, operands_of};
use spv_form::{Inst, Operands, Version, op};
use std::alloc::Global;

/// Whether a variable outside the function stands in the interface.
fn is_listed(version: Version, key: Key) -> bool
    ensures { result ≡ frames.is_listed version key }
{
    match (version, key) {
        (_, Key::Input(_)) => true,
        (Version::V16, Key::Buffer(_) | Key::Shared(_)) => true,
        _ => false,
    }
}

/// Adds the id of a key that stands in the interface.
fn push_listed(
    operands: &mut Operands,
    version: Version,
    id: u32,
    key: Key,
) -> Result<(), OutOfMemory>
    ensures { OnOk result (operands.new ≡ operands.old ++ interface version id (key ∷ [])) }
{
    if is_listed(version, key) {
        push(operands, id)
    } else {
        Ok(())
    }
}

/// Adds the ids of the interface.
#[tactic(auto, using(crate::proofs::Numbered::interface_next))]
fn push_interface(operands: &mut Operands, s: &Scene, version: Version) -> Result<(), OutOfMemory>
    requires { AreFew s.now.tables.now }
    ensures { OnOk result (operands.new ≡ operands.old ++ interface version (table_from (plan_of s.now.tables.now)) s.now.tables.now.table.keys) }
{
    let from = s.tables.table_from();
    for (i, key) in s.tables.table.as_slice().iter().enumerate() {
        push_listed(operands, version, from + i as u32, *key)?;
    }
    Ok(())
}

/// Writes the entry point `main` of a compute shader.
fn entry_point(
    alloc: Global,
    code: &mut Code,
    s: &Scene,
    version: Version,
) -> Result<(), OutOfMemory>
    requires { AreFew s.now.tables.now }
    ensures { OnOk result (code.new ≡ code.old ++ frames.entry_point version (plan_of s.now.tables.now) ∷ []) }
{
    let mut operands = operands_of(alloc, &[5, 1, 0x6E69_616D, 0])?;
    push_interface(&mut operands, s, version)?;
    code.push_inst(Inst {
        opcode: op::ENTRY_POINT,
        operands,
    })
}

/// Writes the thread counts of a group.
fn thread_counts(alloc: Global, code: &mut Code, s: &Scene) -> Result<(), OutOfMemory>
    ensures { OnOk result (code.new ≡ code.old ++ inst 16 (1 ∷ 17 ∷ s.now.program.now.local) ∷ []) }
{
    let mut operands = operands_of(alloc, &[1, 17])?;
    for count in s.program.local.as_slice() {
        push(&mut operands, *count)?;
    }
    code.push_inst(Inst {
        opcode: op::EXECUTION_MODE,
        operands,
    })
}

/// Writes the capability, the memory model, the entry point and the thread counts.
pub fn write_head(
    alloc: Global,
    code: &mut Code,
    s: &Scene,
    version: Version,
) -> Result<(), OutOfMemory>
    requires { AreFew s.now.tables.now }
    ensures { OnOk result (code.new ≡ code.old ++ frames.head s.now.program.now version (plan_of s.now.tables.now)) }
{
    code.push(op::CAPABILITY, &[1])?;
    code.push(op::MEMORY_MODEL, &[0, 1])?;
    entry_point(alloc, code, s, version)?;
    thread_counts(alloc, code, s)
}
