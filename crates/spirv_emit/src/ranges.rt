ghost use Rattle.std.specs.Prelude.{◌≡◌, ◌∷◌, ◌++◌, ◌+◌, [], IfOk, OnOk, length};
ghost use Rattle.dxil_form.specs.declared.instr.Addr.TheVariants.{Byte, Element};
ghost use Rattle.spirv_code.specs.Accesses.{index_test, length_inst, test_code, test_id, test_size};
ghost use Rattle.spirv_code.specs.Plans.{result as id_at};
ghost use Rattle.spirv_code.specs.Reads.{read_size};
ghost use Rattle.spirv_table.specs.Known.{env_of};
ghost use Rattle.spirv_table.specs.Tables.{AreFew};
ghost use Rattle.spirv_emit.specs.Scenes.{context_in};

use crate::code::Code;
use crate::reads::{int_of_two, read, truth_of_two};
use crate::scene::Scene;
use crate::words::{shift, target_variable};
use dx_base::OutOfMemory;
use dxil_form::{Addr, Operand, Target};
use spirv_table::Known;
use spv_form::op;

/// Asks for the number of words of a buffer.
pub fn length_of(code: &mut Code, s: &Scene, target: Target) -> Result<u32, OutOfMemory>
    requires { AreFew s.now.tables.now }
    ensures code { OnOk result (code.new ≡ code.old ++ length_inst (context_in s.now) (length code.old) target ∷ []) }
    ensures id { IfOk result (λ id. id ≡ id_at (context_in s.now) (length code.old)) }
{
    let id = s.next(code);
    code.push(
        op::ARRAY_LENGTH,
        &[s.int(), id, target_variable(s, target), 0],
    )?;
    Ok(id)
}

/// Tests whether the word of a part of a raw buffer is below its length.
fn test_words(
    code: &mut Code,
    s: &Scene,
    known: &Known,
    at: Operand,
    target: Target,
    part: u8,
) -> Result<u32, OutOfMemory>
    requires { AreFew s.now.tables.now }
    ensures code { OnOk result (code.new ≡ code.old ++ test_code (context_in s.now) (env_of known.now) (length code.old) target (Byte at) part) }
    ensures id { IfOk result (λ id. id ≡ test_id (context_in s.now) (env_of known.now) (length code.old) (Byte at) part) }
{
    let at = read(code, s, known, at)?;
    let word = shift(code, s, at)?;
    if part == 0 {
        let words = length_of(code, s, target)?;
        return truth_of_two(code, s, op::U_LESS_THAN, word, words);
    }
    let sum = int_of_two(code, s, op::I_ADD, word, s.number(u32::from(part)))?;
    let words = length_of(code, s, target)?;
    let first = truth_of_two(code, s, op::U_LESS_THAN, word, words)?;
    let second = truth_of_two(code, s, op::U_LESS_THAN, sum, words)?;
    truth_of_two(code, s, op::LOGICAL_AND, first, second)
}

/// Tests whether a part has room in an element, and the index is below the number of whole elements.
fn test_element(
    code: &mut Code,
    s: &Scene,
    known: &Known,
    index: Operand,
    at: Operand,
    stride: u32,
    target: Target,
    part: u8,
) -> Result<u32, OutOfMemory>
    requires { AreFew s.now.tables.now }
    ensures code { OnOk result (code.new ≡ code.old ++ test_code (context_in s.now) (env_of known.now) (length code.old) target (Element index at stride) part) }
    ensures id { IfOk result (λ id. id ≡ test_id (context_in s.now) (env_of known.now) (length code.old) (Element index at stride) part) }
{
    let at = read(code, s, known, at)?;
    let most = s.number(stride.saturating_sub(4 + 4 * u32::from(part)));
    let inside = truth_of_two(code, s, op::U_LESS_THAN_EQUAL, at, most)?;
    let words = length_of(code, s, target)?;
    let elements = int_of_two(code, s, op::U_DIV, words, s.number(stride / 4))?;
    let index = read(code, s, known, index)?;
    let below = truth_of_two(code, s, op::U_LESS_THAN, index, elements)?;
    truth_of_two(code, s, op::LOGICAL_AND, inside, below)
}

/// Tests whether an index is below a number.
fn test_index(
    code: &mut Code,
    s: &Scene,
    known: &Known,
    index: Operand,
    limit: u32,
) -> Result<u32, OutOfMemory>
    requires { AreFew s.now.tables.now }
    ensures code { OnOk result (code.new ≡ code.old ++ index_test (context_in s.now) (env_of known.now) (length code.old) index limit) }
    ensures id { IfOk result (λ id. id ≡ id_at (context_in s.now) (length code.old + read_size (context_in s.now) (env_of known.now) index)) }
{
    let index = read(code, s, known, index)?;
    truth_of_two(code, s, op::U_LESS_THAN, index, s.number(limit))
}

/// Tests whether the word of a part is in range, and gives the id of the truth.
pub fn test(
    code: &mut Code,
    s: &Scene,
    known: &Known,
    target: Target,
    addr: Addr,
    part: u8,
) -> Result<u32, OutOfMemory>
    requires { AreFew s.now.tables.now }
    ensures code { OnOk result (code.new ≡ code.old ++ test_code (context_in s.now) (env_of known.now) (length code.old) target addr part) }
    ensures id { IfOk result (λ id. id ≡ test_id (context_in s.now) (env_of known.now) (length code.old) addr part) }
    ensures size { OnOk result (length code.new ≡ length code.old + test_size (context_in s.now) (env_of known.now) addr part) }
{
    match addr {
        Addr::Byte { at } => test_words(code, s, known, at, target, part),
        Addr::Element { index, at, stride } => {
            test_element(code, s, known, index, at, stride, target, part)
        }
        Addr::Row { index } | Addr::Index { index } => {
            test_index(code, s, known, index, s.limit(target))
        }
    }
}
