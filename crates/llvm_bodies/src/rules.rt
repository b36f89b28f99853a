ghost use Rattle.std.specs.Prelude.{◌≡◌, ◌≤◌, ◌<◌, ◌^◌, ◌∷◌, [], ◌&&◌, length, get_or, false, true, None, IfSome, IsTrue, IsFalse, ◌==◌};
ghost use Rattle.llvm_items.specs.FirstRule.{IsFirstRule};
ghost use Rattle.llvm_bodies.specs.Rules.{m7, m8, m9, m10 as body_wrong, m11 as count_wrong, is_bad_call as is_bad, operands_of as operands, has_parts as fits, many_blocks, many_instructions, many_cases, many_entries, passes as passed};
ghost use Rattle.llvm_bodies.specs.Reading.{HasRoom, IsGood};

use crate::facts::{ModuleFacts, callee_of, signature_of};
use crate::progress::{Progress, cases_in, entries_in, first_field, is_instruction};
use llvm_layout::code::{CALL, DECLAREBLOCKS, PHI};
use llvm_layout::{Parts, is_listed};

/// How many blocks a body may declare.
const MOST_BLOCKS: u64 = 8192;

/// How many instructions a body may have.
const MOST_INSTRUCTIONS: u64 = 32768;

/// How many cases the switches of a body may have.
const MOST_CASES: u64 = 65536;

/// How many entries the phis of a body may have.
const MOST_ENTRIES: u64 = 262144;

/// Whether a record has no place where it stands: its code is not listed, or it should declare the blocks and does not, or the other way round.
fn is_misplaced(facts: &ModuleFacts, known: Progress, code: u64, fields: &[u64]) -> bool
    ensures value { result ≡ m7 facts.now known code fields.now }
    ensures small { IsFalse result → code < 2 ^ 32 }
{
    if !is_listed(code) {
        return true;
    }
    if known.started {
        code == DECLAREBLOCKS
    } else {
        !(code == DECLAREBLOCKS && 0 < first_field(fields))
    }
}

/// Whether a call's callee is no function that takes a fixed number of arguments.
fn is_bad_call(facts: &ModuleFacts, known: Progress, code: u64, fields: &[u64]) -> bool
    ensures { result ≡ is_bad facts.now known code fields.now }
{
    let signature = signature_of(facts, known.now, fields);
    !callee_of(facts, known.now, fields).is_function || !signature.is_function || signature.vararg
}

fn operands_of(parts: &Option<Parts>) -> u64
    ensures { result ≡ operands parts.now }
{
    match parts {
        Some(parts) => parts.numbers.len() as u64,
        None => 0,
    }
}

fn has_parts(parts: &Option<Parts>) -> bool
    ensures { result ≡ fits parts.now }
{
    match parts {
        Some(_) => true,
        None => false,
    }
}

/// Whether a record has a layout of its code, and stands where it may, and has the arguments that it should have.
fn is_misformed(
    facts: &ModuleFacts,
    known: Progress,
    code: u64,
    fields: &[u64],
    parts: &Option<Parts>,
) -> bool
    ensures value { result ≡ m8 facts.now known code fields.now parts.now }
    ensures fit { IsFalse result → fits parts.now ≡ true }
{
    let params = signature_of(facts, known.now, fields).params as u64;
    !has_parts(parts)
        || (code == PHI && known.busy)
        || (code == CALL
            && !is_bad_call(facts, known, code, fields)
            && operands_of(parts) != params + 1)
}

/// Whether a count that is within a limit passes it with so many more.
fn passes(limit: u64, count: u64, more: u64) -> bool
    requires counted { count < 2 ^ 60 }
    requires few { more < 2 ^ 60 }
    ensures { result ≡ passed limit count more }
{
    count <= limit && limit < count + more
}

/// The number of the first limit that a record passes.
fn record_limit(facts: &ModuleFacts, known: Progress, code: u64, fields: &[u64]) -> Option<u8>
    requires room { HasRoom known }
    requires few { length fields.now ≤ 2 ^ 24 }
    ensures rule { IsFirstRule result (false ∷ false ∷ false ∷ false ∷ false ∷ false ∷ false ∷ false ∷ false ∷ false ∷ false
        ∷ many_blocks facts.now known code fields.now ∷ many_instructions facts.now known code fields.now
        ∷ many_cases facts.now known code fields.now ∷ many_entries facts.now known code fields.now ∷ []) }
    ensures blocks { result ≡ None → IsTrue (code == 1) → get_or fields.now 0 0 ≤ 8192 }
    ensures small { IfSome result (λ rule. rule ≤ 15) }
{
    if code == DECLAREBLOCKS && MOST_BLOCKS < first_field(fields) {
        return Some(12);
    }
    let instructions = if is_instruction(code) { 1 } else { 0 };
    if passes(MOST_INSTRUCTIONS, known.instructions as u64, instructions) {
        return Some(13);
    }
    if passes(MOST_CASES, known.cases, cases_in(code, fields)) {
        return Some(14);
    }
    if passes(MOST_ENTRIES, known.entries, entries_in(code, fields)) {
        return Some(15);
    }
    None
}

/// The number of the first rule that a record of a body breaks, or of the first limit that it passes.
pub fn record_rule(
    facts: &ModuleFacts,
    known: Progress,
    code: u64,
    fields: &[u64],
    parts: &Option<Parts>,
) -> Option<u8>
    requires room { HasRoom known }
    requires few { length fields.now ≤ 2 ^ 24 }
    ensures rule { IsFirstRule result (false ∷ false ∷ false ∷ false ∷ false ∷ false
        ∷ m7 facts.now known code fields.now ∷ m8 facts.now known code fields.now parts.now ∷ m9 facts.now known code fields.now ∷ false ∷ false
        ∷ many_blocks facts.now known code fields.now ∷ many_instructions facts.now known code fields.now
        ∷ many_cases facts.now known code fields.now ∷ many_entries facts.now known code fields.now ∷ []) }
    ensures good { result ≡ None → IsGood known code fields.now parts.now }
    ensures small { IfSome result (λ rule. rule ≤ 15) }
{
    if is_misplaced(facts, known, code, fields) {
        Some(7)
    } else if is_misformed(facts, known, code, fields, parts) {
        Some(8)
    } else if code == CALL && is_bad_call(facts, known, code, fields) {
        Some(9)
    } else {
        record_limit(facts, known, code, fields)
    }
}

/// Whether a body that ends here has not as many blocks as it declares, or an open one.
pub fn is_unfinished(known: Progress) -> bool
    ensures { result ≡ body_wrong known }
{
    known.block != known.blocks || !known.closed
}

/// Whether a module that ends here has not as many bodies as functions that have one.
pub fn has_wrong_bodies(facts: &ModuleFacts, known: Progress) -> bool
    ensures { result ≡ count_wrong facts.now known }
{
    known.bodies as usize != facts.arguments.len()
}
