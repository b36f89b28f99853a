ghost use Rattle.std.specs.Prelude.{◌≡◌, ◌∷◌, ◌++◌, ◌+◌, ◌≤◌, [], IfOk, None, OnOk, length};
ghost use Rattle.spirv_code.specs.Plans.{kept, result as id_at};
ghost use Rattle.spirv_code.specs.Reads as reads;
ghost use Rattle.spirv_code.specs.Reads.{keep_code, keep_size, read_code, read_id, read_size, second_id, store_code, two_code, two_size};
ghost use Rattle.spirv_code.specs.Accesses.{bool_inst, int_inst};
ghost use Rattle.spirv_table.specs.Tables.{AreFew};
ghost use Rattle.spirv_table.specs.Known.{env_of};
ghost use Rattle.spirv_emit.specs.Scenes.{context_in};

use crate::code::Code;
use crate::scene::{Scene, kept_slot};
use dx_base::OutOfMemory;
use dxil_form::{Operand, Reg, Ty};
use spirv_code::Global;
use spirv_table::Known;
use spv_form::op;

/// Reads an operand, and gives the id of its value.
pub fn read(code: &mut Code, s: &Scene, known: &Known, a: Operand) -> Result<u32, OutOfMemory>
    requires { AreFew s.now.tables.now }
    ensures code { OnOk result (code.new ≡ code.old ++ read_code (context_in s.now) (env_of known.now) (length code.old) a) }
    ensures id { IfOk result (λ id. id ≡ read_id (context_in s.now) (env_of known.now) (length code.old) a) }
    ensures size { OnOk result (length code.new ≡ length code.old + read_size (context_in s.now) (env_of known.now) a) }
{
    match a {
        Operand::Reg { reg, ty } => match known.get(reg) {
            Some(id) => Ok(id),
            None => read_slot(code, s, reg, ty),
        },
        Operand::Int(n) => Ok(s.number(n)),
        Operand::Bool(b) => Ok(s.key(Global::Truth(b))),
        Operand::Undef(ty) => Ok(s.zero(ty)),
    }
}

/// Loads a register from its variable. A register without one gives zero.
fn read_slot(code: &mut Code, s: &Scene, reg: Reg, ty: Ty) -> Result<u32, OutOfMemory>
    requires { AreFew s.now.tables.now }
    ensures code { OnOk result (code.new ≡ code.old ++ reads.reg_code (context_in s.now) (length code.old) ty None ((context_in s.now).slot (kept reg ty))) }
    ensures id { IfOk result (λ id. id ≡ reads.reg_id (context_in s.now) (length code.old) ty None ((context_in s.now).slot (kept reg ty))) }
    ensures size { OnOk result (length code.new ≡ length code.old + reads.reg_size None ((context_in s.now).slot (kept reg ty))) }
{
    match s.slot(kept_slot(reg, ty)) {
        Some(variable) => {
            let id = s.next(code);
            code.push(op::LOAD, &[s.type_of(ty), id, variable])?;
            Ok(id)
        }
        None => Ok(s.zero(ty)),
    }
}

/// Reads two operands, and gives the ids of their values.
pub fn read_two(
    code: &mut Code,
    s: &Scene,
    known: &Known,
    a: Operand,
    b: Operand,
) -> Result<(u32, u32), OutOfMemory>
    requires { AreFew s.now.tables.now }
    ensures code { OnOk result (code.new ≡ code.old ++ two_code (context_in s.now) (env_of known.now) (length code.old) a b) }
    ensures first { IfOk result (λ ids. ids.0 ≡ read_id (context_in s.now) (env_of known.now) (length code.old) a) }
    ensures second { IfOk result (λ ids. ids.1 ≡ second_id (context_in s.now) (env_of known.now) (length code.old) a b) }
    ensures size { OnOk result (length code.new ≡ length code.old + two_size (context_in s.now) (env_of known.now) a b) }
{
    let first = read(code, s, known, a)?;
    let second = read(code, s, known, b)?;
    Ok((first, second))
}

/// How many instructions a read takes.
pub fn read_length(s: &Scene, known: &Known, a: Operand) -> u32
    requires { AreFew s.now.tables.now }
    ensures size { result ≡ read_size (context_in s.now) (env_of known.now) a }
    ensures few { result ≤ 1 }
{
    match a {
        Operand::Reg { reg, ty } => match known.get(reg) {
            Some(_) => 0,
            None => match s.slot(kept_slot(reg, ty)) {
                Some(_) => 1,
                None => 0,
            },
        },
        Operand::Int(_) | Operand::Bool(_) | Operand::Undef(_) => 0,
    }
}

/// Stores to a variable, if it is there.
pub fn store(code: &mut Code, variable: Option<u32>, id: u32) -> Result<(), OutOfMemory>
    ensures { OnOk result (code.new ≡ code.old ++ store_code variable id) }
{
    match variable {
        Some(variable) => code.push(op::STORE, &[variable, id]),
        None => Ok(()),
    }
}

/// Stores a register to its variable, if it has one.
pub fn keep(code: &mut Code, s: &Scene, reg: Reg, ty: Ty, id: u32) -> Result<(), OutOfMemory>
    requires { AreFew s.now.tables.now }
    ensures code { OnOk result (code.new ≡ code.old ++ keep_code (context_in s.now) reg ty id) }
    ensures size { OnOk result (length code.new ≡ length code.old + keep_size (context_in s.now) reg ty) }
{
    match s.slot(kept_slot(reg, ty)) {
        Some(variable) => code.push(op::STORE, &[variable, id]),
        None => Ok(()),
    }
}

/// How many instructions it takes to store a register.
pub fn kept_size(s: &Scene, reg: Reg, ty: Ty) -> u32
    requires { AreFew s.now.tables.now }
    ensures size { result ≡ keep_size (context_in s.now) reg ty }
    ensures few { result ≤ 1 }
{
    match s.slot(kept_slot(reg, ty)) {
        Some(_) => 1,
        None => 0,
    }
}

/// Computes a number from two values.
pub fn int_of_two(
    code: &mut Code,
    s: &Scene,
    opcode: u16,
    a: u32,
    b: u32,
) -> Result<u32, OutOfMemory>
    requires { AreFew s.now.tables.now }
    ensures code { OnOk result (code.new ≡ code.old ++ int_inst (context_in s.now) (length code.old) opcode (a ∷ b ∷ []) ∷ []) }
    ensures id { IfOk result (λ id. id ≡ id_at (context_in s.now) (length code.old)) }
{
    let id = s.next(code);
    code.push(opcode, &[s.int(), id, a, b])?;
    Ok(id)
}

/// Computes a truth value from two values.
pub fn truth_of_two(
    code: &mut Code,
    s: &Scene,
    opcode: u16,
    a: u32,
    b: u32,
) -> Result<u32, OutOfMemory>
    requires { AreFew s.now.tables.now }
    ensures code { OnOk result (code.new ≡ code.old ++ bool_inst (context_in s.now) (length code.old) opcode (a ∷ b ∷ []) ∷ []) }
    ensures id { IfOk result (λ id. id ≡ id_at (context_in s.now) (length code.old)) }
{
    let id = s.next(code);
    code.push(opcode, &[s.truth_type(), id, a, b])?;
    Ok(id)
}
