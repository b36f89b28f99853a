ghost use Rattle.std.specs.Prelude.{◌≡◌, ◌+◌, ◌-◌, ◌^◌, ◌<◌, ◌≤◌, length, take, drop, IfOk};
ghost use Rattle.spv_form.specs.declared.fault.CheckFault.TheVariants.{Refused};
ghost use Rattle.spv_form.specs.declared.fault.WordRule.TheVariants.{W};
ghost use Rattle.spirv_words.specs.Reading.{ReadAnswer, ReadsBack, WordsAnswer, HeaderAnswer, InstAnswer, InstsAnswer, IsHeader};

use crate::file_words::FileWords;
use crate::header::{self, Header};
use crate::operands::{bad_id, fits, string_ends};
use dx_base::{List, OutOfMemory};
use spv_form::{CheckFault, Inst, InstList, Module, Operands, Version, WordRule, shape_of};
use std::alloc::Global;

/// The module that the words of a file hold.
///
/// A refusal is the broken rule W of least word, and there of least number. The bytes of the words that `write_module` made of a
/// module, which are at most 2^24 here, give that module again.
pub fn read_module(alloc: Global, bytes: &[u8]) -> Result<Module, CheckFault>
    requires { length bytes.now ≤ 2 ^ 26 }
    ensures exact { ReadAnswer result bytes.now }
    ensures round_trip { ReadsBack result bytes.now }
{
    let words = FileWords::new(bytes);
    if bytes.len() % 4 != 0 {
        return Err(refused(1, 0));
    }
    read_words(alloc, &words)
}

/// The module that whole words hold.
fn read_words(alloc: Global, words: &FileWords) -> Result<Module, CheckFault>
    requires { length words.now ≤ 2 ^ 24 }
    ensures { WordsAnswer result words.now }
{
    if words.len() < header::LENGTH {
        return Err(refused(1, 0));
    }
    let header = read_header(words)?;
    let insts = read_insts(alloc, words, header)?;
    Ok(Module {
        version: header.version,
        bound: header.bound,
        insts,
    })
}

/// The refusal by a rule W at a word.
fn refused(rule: u8, word: usize) -> CheckFault
    requires { word < 2 ^ 32 }
    ensures { result ≡ Refused (W rule) word }
{
    CheckFault::Refused {
        rule: WordRule::W(rule),
        word: word as u32,
    }
}

/// The header.
fn read_header(words: &FileWords) -> Result<Header, CheckFault>
    requires { 5 ≤ length words.now }
    ensures { HeaderAnswer result words.now }
{
    if words.at(0) != header::MAGIC {
        return Err(refused(2, 0));
    }
    let Some(version) = Version::of_word(words.at(1)) else {
        return Err(refused(3, 1));
    };
    if words.at(4) != header::SCHEMA {
        return Err(refused(4, 4));
    }
    Ok(Header {
        version,
        bound: words.at(3),
    })
}

/// The instructions behind the header.
fn read_insts(alloc: Global, words: &FileWords, header: Header) -> Result<InstList, CheckFault>
    requires few { length words.now ≤ 2 ^ 24 }
    requires header { IsHeader words.now header.version header.bound }
    ensures { InstsAnswer result words.now header.bound }
{
    let mut insts = List::new(alloc);
    let mut at = header::LENGTH;
    while at < words.len() {
        let inst = read_inst(alloc, words, at, header.bound)?;
        at += 1 + inst.operands.len();
        if insts.push(inst).is_err() {
            return Err(CheckFault::OutOfMemory);
        }
    }
    Ok(insts)
}

/// The instruction at a word.
fn read_inst(alloc: Global, words: &FileWords, at: usize, bound: u32) -> Result<Inst, CheckFault>
    requires few { length words.now ≤ 2 ^ 24 }
    requires within { at < length words.now }
    ensures { InstAnswer result words.now bound at }
{
    let first = words.at(at);
    let size = (first >> 16) as usize;
    if size == 0 {
        return Err(refused(5, at));
    }
    if size > words.len() - at {
        return Err(refused(5, at));
    }
    let opcode = (first % 0x1_0000) as u16;
    let Some(shape) = shape_of(opcode) else {
        return Err(refused(6, at));
    };
    let Ok(operands) = read_operands(alloc, words, at + 1, size - 1) else {
        return Err(CheckFault::OutOfMemory);
    };
    if !fits(shape, operands.as_slice()) {
        return Err(refused(7, at));
    }
    if !string_ends(shape, operands.as_slice()) {
        return Err(refused(8, at));
    }
    match bad_id(shape, operands.as_slice(), bound) {
        Some(_) => Err(refused(9, at)),
        None => Ok(Inst { opcode, operands }),
    }
}

/// So many words from a place on.
fn read_operands(
    alloc: Global,
    words: &FileWords,
    from: usize,
    count: usize,
) -> Result<Operands, OutOfMemory>
    requires few { length words.now ≤ 2 ^ 24 }
    requires within { from + count ≤ length words.now }
    ensures { IfOk result (λ operands. operands ≡ take count (drop from words.now)) }
{
    let mut operands = Operands::new(alloc);
    for place in 0..count {
        if operands.push(words.at(from + place)).is_err() {
            return Err(OutOfMemory);
        }
    }
    Ok(operands)
}
