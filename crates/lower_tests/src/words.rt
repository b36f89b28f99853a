ghost use Rattle.std.specs.Prelude.{◌≤◌, ◌^◌, length, IfOk};

use crate::counted::are_counted;
use dx_base::{Bytes, List, OutOfMemory, Words, bytes_of};
use dxil_form::{Program, Region};
use phi_demotion::Slots;
use resource_map::Binding;
use spirv_file::check_file;
use spirv_lower::write_program;
use spirv_words::{read_module, write_module};
use spv_form::{CheckFault, Module, Version, WordRule};
use std::alloc::Global;

/// Why a module has no words that are accepted.
#[derive(Clone, Copy, Debug, PartialEq, Eq)]
pub enum Trouble {
    /// The counts of the program or of its regions pass their bounds.
    Counts,
    /// The module's words are not those that its instructions read as.
    Words,
    /// A rule that the words break, and at which word.
    Rule(WordRule, u32),
    Memory,
}

fn push(words: &mut Words, word: u32) -> Result<(), Trouble> {
    match words.push(word) {
        Ok(()) => Ok(()),
        Err(_) => Err(Trouble::Memory),
    }
}

/// The words of a module, whether its instructions are well formed or not.
fn plain_words(alloc: Global, m: &Module) -> Result<Words, Trouble> {
    let mut words: Words = List::new(alloc);
    for word in [0x0723_0203, m.version.word(), 0, m.bound, 0] {
        push(&mut words, word)?;
    }
    for inst in m.insts.as_slice() {
        let size = inst.operands.len();
        if size >= 65535 {
            return Err(Trouble::Words);
        }
        push(&mut words, (size as u32 + 1) << 16 | u32::from(inst.opcode))?;
        for word in inst.operands.as_slice() {
            push(&mut words, *word)?;
        }
    }
    Ok(words)
}

/// The bytes of words, if they are no more than a file may have.
fn file_of(alloc: Global, words: &Words) -> Result<Bytes, Trouble>
    ensures { IfOk result (λ bytes. length bytes ≤ 2 ^ 26) }
{
    match bytes_of(alloc, words) {
        Ok(bytes) => {
            if bytes.len() <= 0x0400_0000 {
                Ok(bytes)
            } else {
                Err(Trouble::Words)
            }
        }
        Err(OutOfMemory) => Err(Trouble::Memory),
    }
}

fn trouble_of(fault: CheckFault) -> Trouble {
    match fault {
        CheckFault::Refused { rule, word } => Trouble::Rule(rule, word),
        CheckFault::OutOfMemory => Trouble::Memory,
    }
}

/// The words that `write_module` makes of the module which these words read as.
fn written_words(alloc: Global, words: &Words) -> Result<Words, Trouble> {
    let bytes = file_of(alloc, words)?;
    match read_module(alloc, bytes.as_slice()) {
        Ok(m) => match write_module(alloc, &m) {
            Ok(words) => Ok(words),
            Err(OutOfMemory) => Err(Trouble::Memory),
        },
        Err(fault) => Err(trouble_of(fault)),
    }
}

/// The words of a module, which `check` accepts.
pub fn accepted(alloc: Global, m: &Module) -> Result<Words, Trouble> {
    let plain = plain_words(alloc, m)?;
    let words = written_words(alloc, &plain)?;
    if plain.as_slice() != words.as_slice() {
        return Err(Trouble::Words);
    }
    let bytes = file_of(alloc, &words)?;
    match check_file(alloc, bytes) {
        Ok(()) => Ok(words),
        Err(fault) => Err(trouble_of(fault)),
    }
}

/// The words of the module of a program over regions.
pub fn lowered(
    alloc: Global,
    p: &Program,
    list: &[Region],
    slots: &Slots,
    bindings: &[Binding],
    version: Version,
) -> Result<Words, Trouble> {
    if !are_counted(p, list) {
        return Err(Trouble::Counts);
    }
    match write_program(alloc, p, list, slots, bindings, version) {
        Ok(m) => accepted(alloc, &m),
        Err(OutOfMemory) => Err(Trouble::Memory),
    }
}
