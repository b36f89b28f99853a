ghost use Rattle.std.specs.Prelude.{◌≡◌, ◌<◌, IfOk, replicate, false, []};
ghost use Rattle.std.specs.BTreeMap as tree;
ghost use Rattle.profile_rules.specs.Seen.{AreVariables, AreRows, AreOwners, key_cmp};
ghost use Rattle.dx_base.specs.First.{Rises};
ghost use Rattle.dx_base.specs.Sentences.{first_from, first_that_holds, Stated};
ghost use Rattle.profile_rules.specs.Rules.{bit_of_line, sentences};
ghost use Rattle.profile_rules.specs.Checking as is;

use crate::asked::p1;
use crate::call::{p13, p14, p15, p16, p17};
use crate::handle::{p18, p19, p21, p22};
use crate::operation::{p2, p3, p4, p6, p8, p9};
use crate::phi::p5;
use crate::place::{p10, p12};
use crate::rows::{Rows, is_met};
use crate::switch::p7;
use crate::variables::Variables;
use dx_base::OutOfMemory;
use llvm_bodies::Line;
use profile_tables::{Scope, place_named};
use std::alloc::Global;
use std::collections::BTreeMap;

/// What some lines name.
#[derive(Drop)]
pub struct Seen {
    pub variables: Variables,
    pub rows: Rows,
}

/// What a line does together with those before it.
#[derive(Clone, Copy, Debug)]
pub struct Step {
    /// The groupshared arrays pass 32,768 bytes.
    pub full: bool,
    /// Another row of the same class, space and lower bound is named.
    pub met: bool,
    /// The rows pass 1,024.
    pub many: bool,
}

/// So many flags that do not hold.
fn flags(alloc: Global, count: usize) -> Result<Vec<bool>, OutOfMemory>
    ensures { IfOk result (λ flags. flags.items ≡ replicate count false) }
{
    match vec![in alloc; false; count] {
        Ok(flags) => Ok(flags),
        Err(_) => Err(OutOfMemory),
    }
}

/// No variables.
fn no_variables(alloc: Global, scope: &Scope) -> Result<Variables, OutOfMemory>
    ensures { IfOk result (λ variables. AreVariables scope.now [] variables.named.items variables.words) }
{
    let named = flags(alloc, scope.pool().globals().len())?;
    Ok(Variables { named, words: 0 })
}

/// No rows.
fn no_rows(alloc: Global, scope: &Scope) -> Result<Rows, OutOfMemory>
    ensures rows { IfOk result (λ rows. AreRows scope.now [] rows.named.items rows.count) }
    ensures owners { IfOk result (λ rows. AreOwners scope.now [] (tree.get key_cmp rows.owners)) }
{
    let named = flags(alloc, scope.rows().len())?;
    Ok(Rows {
        named,
        count: 0,
        owners: BTreeMap::new(alloc),
    })
}

/// Before the first line.
fn nothing_seen(alloc: Global, scope: &Scope) -> Result<Seen, OutOfMemory>
    ensures { IfOk result (λ seen. is.IsSeen scope.now [] seen) }
{
    let variables = no_variables(alloc, scope)?;
    let rows = no_rows(alloc, scope)?;
    Ok(Seen { variables, rows })
}

/// Sees one line more.
fn see(seen: &mut Seen, scope: &Scope, line: &Line) -> Result<Step, OutOfMemory>
    ensures { IfOk result (λ step. is.IsStep scope.now line.now seen.old seen.new step) }
{
    seen.variables.note(scope.pool(), place_named(scope, line));
    let place = scope.row_named(line);
    let row = scope.row_at(place);
    let met = is_met(&seen.rows.owners, place, row);
    seen.rows.note(place, row)?;
    Ok(Step {
        full: 8192 < seen.variables.words,
        met,
        many: 1024 < seen.rows.count,
    })
}

/// The first of P1 to P4 that a line breaks, or 0.
fn first_operand_rule(alloc: Global, scope: &Scope, line: &Line) -> Result<u8, OutOfMemory>
    ensures { IfOk result (λ rule. rule ≡ first_from 1 (is.operand_tests scope.now line.now)) }
{
    if p1(alloc, scope, line)? {
        return Ok(1);
    }
    Ok(if p2(scope, line) {
        2
    } else if p3(scope, line) {
        3
    } else if p4(scope, line) {
        4
    } else {
        0
    })
}

/// The first of P5 to P9 that a line breaks, or 0.
fn block_rule(alloc: Global, scope: &Scope, line: &Line) -> Result<u8, OutOfMemory>
    requires { line.now.block < scope.now.blocks }
    ensures { IfOk result (λ rule. rule ≡ first_from 5 (is.block_tests scope.now line.now)) }
{
    if p5(alloc, scope, line)? {
        return Ok(5);
    }
    if p6(line) {
        return Ok(6);
    }
    if p7(alloc, scope, line)? {
        return Ok(7);
    }
    if p8(alloc, line)? {
        return Ok(8);
    }
    Ok(if p9(line) { 9 } else { 0 })
}

/// The first of P10 to P12 that a line breaks, or 0.
fn place_rule(scope: &Scope, line: &Line, full: bool) -> u8
    ensures { result ≡ first_from 10 (is.place_tests scope.now line.now full) }
{
    if p10(scope, line) {
        10
    } else if full {
        11
    } else if p12(scope, line) {
        12
    } else {
        0
    }
}

/// The first of P13 to P17 that a line breaks, or 0.
fn call_rule(scope: &Scope, line: &Line) -> u8
    ensures { result ≡ first_from 13 (is.call_tests scope.now line.now) }
{
    let pool = scope.pool();
    if p13(pool, line) {
        13
    } else if p14(pool, line) {
        14
    } else if p15(pool, line) {
        15
    } else if p16(pool, line) {
        16
    } else if p17(pool, line) {
        17
    } else {
        0
    }
}

/// The first of P18 to P22 that a line breaks, 23 for the limit, or 0.
fn row_rule(scope: &Scope, line: &Line, met: bool, many: bool) -> u8
    ensures { result ≡ first_from 18 (is.row_tests scope.now line.now met many) }
{
    if p18(scope, line) {
        18
    } else if p19(scope, line) {
        19
    } else if met {
        20
    } else if p21(scope, line) {
        21
    } else if p22(scope, line) {
        22
    } else if many {
        23
    } else {
        0
    }
}

/// The number of the first rule that a line breaks, 23 for the limit, or 0.
fn line_rule(alloc: Global, scope: &Scope, line: &Line, step: Step) -> Result<u8, OutOfMemory>
    requires { line.now.block < scope.now.blocks }
    ensures { IfOk result (λ rule. rule ≡ first_that_holds (is.tests scope.now line.now step)) }
{
    let first = first_operand_rule(alloc, scope, line)?;
    if first > 0 {
        return Ok(first);
    }
    let block = block_rule(alloc, scope, line)?;
    if block > 0 {
        return Ok(block);
    }
    let place = place_rule(scope, line, step.full);
    if place > 0 {
        return Ok(place);
    }
    let call = call_rule(scope, line);
    if call > 0 {
        return Ok(call);
    }
    Ok(row_rule(scope, line, step.met, step.many))
}

/// The first rule that the lines of a body break, with its bit; the limit of resources has the number 23.
///
/// Of several the one of least bit counts, and at one bit the one of least number.
///
/// # Errors
///
/// Want of memory.
pub fn first_fault(alloc: Global, scope: &Scope) -> Result<Option<(u8, u64)>, OutOfMemory>
    requires rises { Rises bit_of_line (Stated (sentences scope.now)) scope.now.lines }
    requires blocks { is.AreInBlocks scope.now }
    ensures { IfOk result (λ found. is.FaultAnswer found scope.now) }
{
    let mut seen = nothing_seen(alloc, scope)?;
    for line in scope.lines() {
        let step = see(&mut seen, scope, line)?;
        let rule = line_rule(alloc, scope, line, step)?;
        if rule > 0 {
            return Ok(Some((rule, line.bit)));
        }
    }
    Ok(None)
}
