ghost use Rattle.std.specs.Prelude.{◌≡◌, ◌+◌, ◌*◌, ◌^◌, ◌++◌, ◌<◌, length, IfOk, OnOk, slice_get, Some};
ghost use Rattle.spv_form.specs.Formed.{IsFormed};
ghost use Rattle.spv_form.specs.WordRules.{IsModule};
ghost use Rattle.spirv_words.specs.Written.{inst_words, module_words, AreWords};

use crate::header;
use dx_base::{List, OutOfMemory, Words};
use spv_form::{Inst, Module};
use std::alloc::Global;

/// The words of a module: its header, and then each instruction.
///
/// Where they are at most 2^24, `read_module` of their bytes gives the module again.
pub fn write_module(alloc: Global, m: &Module) -> Result<Words, OutOfMemory>
    requires { IsFormed m.now }
    ensures module { IfOk result (λ words. IsModule words m.now) }
    ensures exact { IfOk result (λ words. words ≡ module_words m.now) }
    ensures generator { IfOk result (λ words. slice_get words 2 ≡ Some 0) }
    ensures words { IfOk result AreWords }
{
    let mut words = List::new(alloc);
    append(
        &mut words,
        &[
            header::MAGIC,
            m.version.word(),
            header::GENERATOR,
            m.bound,
            header::SCHEMA,
        ],
    )?;
    for inst in m.insts.as_slice() {
        write_inst(&mut words, inst)?;
    }
    Ok(words)
}

/// Adds the words of an instruction.
fn write_inst(words: &mut Words, inst: &Inst) -> Result<(), OutOfMemory>
    requires { length inst.now.operands < 65535 }
    ensures added { OnOk result (words.new ≡ words.old ++ inst_words inst.now) }
    ensures words { OnOk result (AreWords (inst_words inst.now)) }
{
    append(words, &[first_word(inst.operands.len() + 1, inst.opcode)])?;
    append(words, inst.operands.as_slice())
}

/// The first word of an instruction: its size in words above its opcode.
fn first_word(size: usize, opcode: u16) -> u32
    requires { size < 65536 }
    ensures { result ≡ size * 2 ^ 16 + opcode }
{
    (size as u32) << 16 | opcode as u32
}

/// Adds these words at the end.
fn append(words: &mut Words, more: &[u32]) -> Result<(), OutOfMemory>
    ensures added { OnOk result (words.new ≡ words.old ++ more.now) }
    ensures words { AreWords more.now }
{
    for word in more {
        if words.push(*word).is_err() {
            return Err(OutOfMemory);
        }
    }
    Ok(())
}
