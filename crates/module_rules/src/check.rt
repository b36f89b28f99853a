ghost use Rattle.std.specs.Prelude.{◌≡◌, ◌<◌, ◌≤◌, ◌^◌, Some, slice_get, length, IfOk};
ghost use Rattle.spv_form.specs.declared.fault.CheckFault.TheVariants.{Refused};
ghost use Rattle.spv_form.specs.declared.fault.WordRule.TheVariants.{V};
ghost use Rattle.spv_form.specs.Formed.{IsFormed};
ghost use Rattle.spv_form.specs.Words.{start_of};
ghost use Rattle.id_rules.specs.Again.{AreFormed};
ghost use Rattle.module_rules.specs.Answers as answer;

use crate::entry::{has_many_pairs, is_wrong_entry, is_wrong_interface, is_wrong_size};
use crate::tables::Tables;
use decoration_rules::{is_sound_variable, written_by};
use dx_base::OutOfMemory;
use id_rules::{is_defined_again, misuses};
use order_rules::Landmarks;
use spv_form::{CheckFault, Inst, Module, WordRule};
use spv_ids::is_there;
use std::alloc::Global;
use type_rules::{fits, is_listed};

/// The greatest bound that a module may have.
const MOST_BOUND: u32 = 4_194_303;

/// The rules of order and of ids, V1 to V4.
fn order_rule(tables: &Tables, at: usize, inst: &Inst) -> Option<u8>
    requires tables { answer.AreTables tables.now }
    requires there { slice_get tables.now.ids at ≡ Some inst.now }
    ensures { answer.Finds tables.now.version tables.now.ids at inst.now 1 5 result }
{
    if is_there(at, tables.out_of_order) {
        return Some(1);
    }
    if tables.landmarks.is_wrong_once(at, inst) {
        return Some(2);
    }
    if is_defined_again(&tables.ids, at, inst) {
        return Some(3);
    }
    if misuses(&tables.ids, &tables.blocks, at, inst) {
        return Some(4);
    }
    None
}

/// The rules of types and operands, V5 to V7.
fn type_rule(tables: &Tables, at: usize, inst: &Inst) -> Option<u8>
    requires tables { answer.AreTables tables.now }
    requires there { slice_get tables.now.ids at ≡ Some inst.now }
    ensures { answer.Finds tables.now.version tables.now.ids at inst.now 5 8 result }
{
    if !is_listed(&tables.ids, inst) {
        return Some(5);
    }
    if !fits(&tables.ids, inst) {
        return Some(6);
    }
    if tables.types.is_declared_again(at, inst) {
        return Some(7);
    }
    None
}

/// Whether the instruction writes memory that may not be written.
fn writes_read_only(tables: &Tables, inst: &Inst) -> bool
    requires { answer.AreTables tables.now }
    ensures { answer.IsWriteAnswer result tables.now.ids inst.now }
{
    match written_by(inst) {
        Some(pointer) => tables.read_only.has(pointer),
        None => false,
    }
}

/// The rules of decorations and of the entry point, V8 to V10.
fn entry_rule(
    alloc: Global,
    tables: &Tables,
    at: usize,
    inst: &Inst,
) -> Result<Option<u8>, OutOfMemory>
    requires tables { answer.AreTables tables.now }
    requires there { slice_get tables.now.ids at ≡ Some inst.now }
    ensures { IfOk result (answer.Finds tables.now.version tables.now.ids at inst.now 8 11) }
{
    if !is_sound_variable(&tables.ids, &tables.resources, inst) {
        return Ok(Some(8));
    }
    if writes_read_only(tables, inst) {
        return Ok(Some(8));
    }
    if is_wrong_interface(alloc, tables.version, &tables.ids, inst)? {
        return Ok(Some(9));
    }
    if is_wrong_entry(&tables.ids, inst) {
        return Ok(Some(10));
    }
    Ok(None)
}

/// The rules of places and of sizes, V11, V12, V14 and V15.
fn size_rule(tables: &Tables, at: usize, inst: &Inst) -> Option<u8>
    requires tables { answer.AreTables tables.now }
    requires there { slice_get tables.now.ids at ≡ Some inst.now }
    ensures { answer.Finds tables.now.version tables.now.ids at inst.now 11 16 result }
{
    if !tables.landmarks.is_placed(at, inst) {
        return Some(11);
    }
    if is_wrong_size(inst) {
        return Some(12);
    }
    if is_there(at, tables.crowded) {
        return Some(14);
    }
    if has_many_pairs(inst) {
        return Some(15);
    }
    None
}

/// The least rule that the instruction at a place breaks.
fn broken_rule(
    alloc: Global,
    tables: &Tables,
    at: usize,
    inst: &Inst,
) -> Result<Option<u8>, OutOfMemory>
    requires tables { answer.AreTables tables.now }
    requires there { slice_get tables.now.ids at ≡ Some inst.now }
    ensures { IfOk result (answer.Finds tables.now.version tables.now.ids at inst.now 1 16) }
{
    if let Some(rule) = order_rule(tables, at, inst) {
        return Ok(Some(rule));
    }
    if let Some(rule) = type_rule(tables, at, inst) {
        return Ok(Some(rule));
    }
    if let Some(rule) = entry_rule(alloc, tables, at, inst)? {
        return Ok(Some(rule));
    }
    Ok(size_rule(tables, at, inst))
}

/// The least rule that wants an instruction that is missing.
fn missing_rule(landmarks: &Landmarks) -> Option<u8>
    ensures { answer.FindsMissing landmarks.now result }
{
    if !landmarks.has_end() {
        return Some(1);
    }
    if !landmarks.has_four() {
        return Some(2);
    }
    if !landmarks.has_block() {
        return Some(10);
    }
    None
}

/// The refusal by a rule V at a word.
fn refused(rule: u8, word: u32) -> CheckFault
    ensures { result ≡ Refused (V rule) word }
{
    CheckFault::Refused {
        rule: WordRule::V(rule),
        word,
    }
}

/// The rule that is broken at word 5, where one wants an instruction that is missing: that one, or a lesser one that the first instruction breaks.
fn rule_at_start(alloc: Global, tables: &Tables, missing: u8) -> Result<u8, OutOfMemory>
    requires tables { answer.AreTables tables.now }
    requires missing { answer.FindsMissing tables.now.ids (Some missing) }
    ensures { IfOk result (answer.IsLeastAtStart tables.now.version tables.now.ids) }
{
    let insts = tables.ids.insts();
    if insts.len() == 0 {
        return Ok(missing);
    }
    match broken_rule(alloc, tables, 0, &insts[0])? {
        Some(rule) => Ok(rule.min(missing)),
        None => Ok(missing),
    }
}

/// Ok where no instruction breaks a rule, or the least rule of the first that does.
fn each_rule(alloc: Global, tables: &Tables) -> Result<(), CheckFault>
    requires tables { answer.AreTables tables.now }
    requires short { start_of tables.now.ids (length tables.now.ids) < 2 ^ 32 }
    ensures { answer.EachAnswer result tables.now.version tables.now.ids }
{
    let mut word = 5u32;
    for (at, inst) in tables.ids.insts().iter().enumerate() {
        match broken_rule(alloc, tables, at, inst) {
            Ok(Some(rule)) => return Err(refused(rule, word)),
            Ok(None) => word += 1 + inst.operands.len() as u32,
            Err(OutOfMemory) => return Err(CheckFault::OutOfMemory),
        }
    }
    Ok(())
}

/// Ok exactly where a module breaks no rule V, else the broken rule of least word, and there of least number.
///
/// The word of a rule is that of the instruction that breaks it, or word 5 for something that is missing.
pub fn check_rules(alloc: Global, m: &Module) -> Result<(), CheckFault>
    requires formed { IsFormed m.now }
    requires short { start_of m.now.insts (length m.now.insts) < 2 ^ 32 }
    ensures { answer.RulesAnswer result m.now }
{
    if m.bound > MOST_BOUND {
        return Err(refused(13, 3));
    }
    let Ok(tables) = Tables::of(alloc, m.version, m.insts.as_slice()) else {
        return Err(CheckFault::OutOfMemory);
    };
    if let Some(missing) = missing_rule(&tables.landmarks) {
        return match rule_at_start(alloc, &tables, missing) {
            Ok(rule) => Err(refused(rule, 5)),
            Err(OutOfMemory) => Err(CheckFault::OutOfMemory),
        };
    }
    each_rule(alloc, &tables)
}
