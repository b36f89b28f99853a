ghost use Rattle.std.specs.Prelude.{◌≡◌, ◌∷◌, ◌++◌, ◌+◌, ◌≤◌, [], IfOk, OnOk, length};
ghost use Rattle.spirv_code.specs.Accesses as accesses;
ghost use Rattle.spirv_code.specs.Accesses.{base_code, base_id, base_size, chain_code, chain_id, chain_size, pointer_id, target_id, word_code, word_id, word_size};
ghost use Rattle.spirv_code.specs.Plans.{result as id_at};
ghost use Rattle.spirv_table.specs.Known.{env_of};
ghost use Rattle.spirv_table.specs.Tables.{AreFew};
ghost use Rattle.spirv_emit.specs.Scenes.{context_in};

use crate::code::Code;
use crate::reads::{int_of_two, read, read_length};
use crate::scene::Scene;
use dx_base::OutOfMemory;
use dxil_form::{Addr, Target};
use spirv_code::{Global, Sort, Storage};
use spirv_table::Known;
use spv_form::op;

/// Shifts an offset in bytes to a number of words.
pub fn shift(code: &mut Code, s: &Scene, id: u32) -> Result<u32, OutOfMemory>
    requires { AreFew s.now.tables.now }
    ensures code { OnOk result (code.new ≡ code.old ++ accesses.shift_inst (context_in s.now) (length code.old) id ∷ []) }
    ensures id { IfOk result (λ r. r ≡ id_at (context_in s.now) (length code.old)) }
{
    int_of_two(code, s, op::SHIFT_RIGHT_LOGICAL, id, s.number(2))
}

/// Computes the word of part 0, or reads the index.
fn base(code: &mut Code, s: &Scene, known: &Known, addr: Addr) -> Result<u32, OutOfMemory>
    requires { AreFew s.now.tables.now }
    ensures code { OnOk result (code.new ≡ code.old ++ base_code (context_in s.now) (env_of known.now) (length code.old) addr) }
    ensures id { IfOk result (λ id. id ≡ base_id (context_in s.now) (env_of known.now) (length code.old) addr) }
    ensures size { OnOk result (length code.new ≡ length code.old + base_size (context_in s.now) (env_of known.now) addr) }
{
    match addr {
        Addr::Byte { at } => {
            let at = read(code, s, known, at)?;
            shift(code, s, at)
        }
        Addr::Element { index, at, stride } => {
            let at = read(code, s, known, at)?;
            let offset = shift(code, s, at)?;
            let index = read(code, s, known, index)?;
            let first = int_of_two(code, s, op::I_MUL, index, s.number(stride / 4))?;
            int_of_two(code, s, op::I_ADD, first, offset)
        }
        Addr::Row { index } | Addr::Index { index } => read(code, s, known, index),
    }
}

/// Whether the number of a part is added to the word of part 0.
fn adds(addr: Addr, part: u8) -> bool
    ensures { result ≡ accesses.adds addr part }
{
    if part == 0 {
        return false;
    }
    match addr {
        Addr::Byte { .. } | Addr::Element { .. } => true,
        Addr::Row { .. } | Addr::Index { .. } => false,
    }
}

/// Computes the word of a part, or reads the index.
pub fn word(
    code: &mut Code,
    s: &Scene,
    known: &Known,
    addr: Addr,
    part: u8,
) -> Result<u32, OutOfMemory>
    requires { AreFew s.now.tables.now }
    ensures code { OnOk result (code.new ≡ code.old ++ word_code (context_in s.now) (env_of known.now) (length code.old) addr part) }
    ensures id { IfOk result (λ id. id ≡ word_id (context_in s.now) (env_of known.now) (length code.old) addr part) }
    ensures size { OnOk result (length code.new ≡ length code.old + word_size (context_in s.now) (env_of known.now) addr part) }
{
    let base = base(code, s, known, addr)?;
    if adds(addr, part) {
        int_of_two(code, s, op::I_ADD, base, s.number(u32::from(part)))
    } else {
        Ok(base)
    }
}

/// The id of the type of a pointer to a word.
fn pointer_type(s: &Scene, addr: Addr) -> u32
    requires { AreFew s.now.tables.now }
    ensures { result ≡ pointer_id (context_in s.now) addr }
{
    let storage = match addr {
        Addr::Byte { .. } | Addr::Element { .. } => Storage::StorageBuffer,
        Addr::Row { .. } => Storage::Uniform,
        Addr::Index { .. } => Storage::Workgroup,
    };
    let to = Sort::Int;
    s.key(Global::Pointer { storage, to })
}

/// The id of the variable of a memory.
pub fn target_variable(s: &Scene, target: Target) -> u32
    requires { AreFew s.now.tables.now }
    ensures { result ≡ target_id (context_in s.now) target }
{
    match target {
        Target::Buffer(r) => s.key(Global::Buffer(r)),
        Target::Shared(a) => s.key(Global::Shared(a)),
    }
}

/// Makes the pointer to the word of a part, and gives its id.
pub fn chain(
    code: &mut Code,
    s: &Scene,
    known: &Known,
    target: Target,
    addr: Addr,
    part: u8,
) -> Result<u32, OutOfMemory>
    requires { AreFew s.now.tables.now }
    ensures code { OnOk result (code.new ≡ code.old ++ chain_code (context_in s.now) (env_of known.now) (length code.old) target addr part) }
    ensures id { IfOk result (λ id. id ≡ chain_id (context_in s.now) (env_of known.now) (length code.old) addr part) }
    ensures size { OnOk result (length code.new ≡ length code.old + chain_size (context_in s.now) (env_of known.now) addr part) }
{
    let word = word(code, s, known, addr, part)?;
    let id = s.next(code);
    let pointer = pointer_type(s, addr);
    let variable = target_variable(s, target);
    match addr {
        Addr::Byte { .. } | Addr::Element { .. } => {
            code.push(
                op::ACCESS_CHAIN,
                &[pointer, id, variable, s.number(0), word],
            )?;
        }
        Addr::Row { .. } => {
            let part = s.number(u32::from(part));
            code.push(
                op::ACCESS_CHAIN,
                &[pointer, id, variable, s.number(0), word, part],
            )?;
        }
        Addr::Index { .. } => code.push(op::ACCESS_CHAIN, &[pointer, id, variable, word])?,
    }
    Ok(id)
}

/// How many instructions the pointer takes.
pub fn chain_length(s: &Scene, known: &Known, addr: Addr, part: u8) -> u32
    requires { AreFew s.now.tables.now }
    ensures size { result ≡ chain_size (context_in s.now) (env_of known.now) addr part }
    ensures few { result ≤ 8 }
{
    let base = match addr {
        Addr::Byte { at } => read_length(s, known, at) + 1,
        Addr::Element { index, at, .. } => read_length(s, known, at)
            + 1
            + read_length(s, known, index)
            + 2,
        Addr::Row { index } | Addr::Index { index } => read_length(s, known, index),
    };
    base + u32::from(adds(addr, part)) + 1
}
