ghost use Rattle.std.specs.Prelude.{◌≡◌, ◌≤◌, ◌<◌, ◌^◌, IfOk, length};
ghost use Rattle.profile_tables.specs.Read.{IsRead};
ghost use Rattle.entry_read.specs.Entry.{entry_body};
ghost use Rattle.dxil_profile.specs.Profile.{ProfileAnswer, fault_by};

use dx_base::{Fault, OutOfMemory, Rule, Which};
use dxil_form::Program;
use llvm_facts::Facts;
use llvm_records::Records;
use llvm_types::Types;
use profile_lines::Pool;
use profile_rules::first_fault;
use profile_tables::Scope;
use program_maker::program_of;
use program_sound::program_is_sound;
use std::alloc::Global;

/// The number of the limit of resources among the rules.
const RESOURCES: u8 = 23;

/// The fault of a rule's number.
fn fault_of(rule: u8, bit: u64) -> Fault
    ensures { result ≡ fault_by rule bit }
{
    if rule == RESOURCES {
        Fault::Limit {
            which: Which::Resources,
            bit,
        }
    } else {
        Fault::Refused {
            rule: Rule::P(rule),
            bit,
        }
    }
}

/// The body of the entry function with its tables.
fn scope_of<'a>(
    alloc: Global,
    types: &'a Types,
    records: &'a Records,
    facts: &'a Facts,
) -> Result<Scope<'a>, OutOfMemory>
    requires { length (entry_body types.now records.now facts.now).lines < 2 ^ 32 }
    ensures { IfOk result (λ scope. scope ≡ entry_body types.now records.now facts.now) }
{
    let list = types.list.as_slice();
    let globals = records.globals.as_slice();
    let rows = facts.rows.as_slice();
    match records.bodies.get(facts.body as usize) {
        Some(body) => {
            let pool = Pool::new(list, globals, body.constants.as_slice());
            Scope::new(
                alloc,
                pool,
                body.values,
                body.lines.as_slice(),
                body.blocks,
                rows,
            )
        }
        None => Scope::new(alloc, Pool::new(list, globals, &[]), 0, &[], 0, rows),
    }
}

/// The program that the records of a shader state.
///
/// # Errors
///
/// The first of P1 to P22 that the body of the entry function breaks, with the bit of the record that breaks it: of several the one of least bit, and at one bit the one of least number. The limit `resources` at the record that names one resource too many; at one bit the rules come before it. Or want of memory.
pub fn profile(
    alloc: Global,
    types: &Types,
    records: &Records,
    facts: &Facts,
) -> Result<Program, Fault>
    requires { IsRead (entry_body types.now records.now facts.now) facts.now.local }
    ensures { ProfileAnswer result types.now records.now facts.now }
{
    program_is_sound();
    let scope = match scope_of(alloc, types, records, facts) {
        Ok(scope) => scope,
        Err(OutOfMemory) => return Err(Fault::OutOfMemory),
    };
    match first_fault(alloc, &scope) {
        Ok(Some((rule, bit))) => Err(fault_of(rule, bit)),
        Ok(None) => match program_of(alloc, &scope, facts.local) {
            Ok(program) => Ok(program),
            Err(OutOfMemory) => Err(Fault::OutOfMemory),
        },
        Err(OutOfMemory) => Err(Fault::OutOfMemory),
    }
}
