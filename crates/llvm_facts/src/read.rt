ghost use Rattle.std.specs.Prelude.{IfOk, [], find, ◌≡◌, get_or, unwrap_or};
ghost use Rattle.llvm_facts.specs.Values as is;
ghost use Rattle.llvm_facts.specs.Roots.{entry_id as entry_number, has_name as named_by, IsRootFault};
ghost use Rattle.std.specs.Option.{option_copied};
ghost use Rattle.llvm_facts.specs.Faults.{IsLeastBit};
ghost use Rattle.llvm_facts.specs.Entry as threads;
ghost use Rattle.llvm_facts.specs.Rows.{strides as strides_are};
ghost use Rattle.llvm_facts.specs.Rules.{entry_of, entry_bit, module_of};
ghost use Rattle.llvm_facts.specs.Facts.{AreFacts, CheckAnswer, FactsAnswer};

use crate::facts::Facts;
use crate::lookup::Lookup;
use crate::roots::{Root, has_name, root_fault};
use crate::rows::{all_rows, list_fault, strides_of};
use crate::threads::{counts, counts_field, field_at, has_threads, is_outside};
use dx_base::{Fault, OutOfMemory, Rule};
use llvm_nodes::{Meta, Named};
use llvm_types::Types;
use llvm_values::GlobalList;
use std::alloc::Global;

fn refused(rule: u8, bit: u64) -> Fault
    ensures { result ≡ Fault.Refused (Rule.N rule) bit }
{
    Fault::Refused {
        rule: Rule::N(rule),
        bit,
    }
}

/// The first named node of a name.
fn first_named(root: Root, named: &[Named]) -> Option<&Named>
    ensures { option_copied result ≡ find (named_by root) named.now }
{
    named.iter().find(|node| has_name(root, node))
}

/// The number of the first node of the first named node `dx.entryPoints`.
fn entry_id(named: &[Named]) -> u32
    ensures { result ≡ entry_number named.now }
{
    match first_named(Root::EntryPoints, named) {
        Some(node) => field_at(node.nodes.as_slice(), 0),
        None => 0,
    }
}

/// The fields of the node with a number, none where there is no such node.
fn fields_by<'a>(lookup: &Lookup<'a>, id: u32) -> &'a [u32]
    ensures { result.now ≡ unwrap_or (is.node_by lookup.now id) [] }
{
    match lookup.node_by(id) {
        Some(fields) => fields,
        None => &[],
    }
}

/// Whether the thread counts of an entry node are out of bounds.
fn are_outside(lookup: &Lookup, entry: &[u32]) -> bool
    ensures { result ≡ threads.are_outside (threads.local lookup.now entry.now) }
{
    let [x, y, z] = counts(lookup, counts_field(lookup, entry));
    is_outside(x, y, z)
}

/// The bit of the node of the three thread counts.
fn counts_bit(lookup: &Lookup, entry: &[u32]) -> u64
    ensures { result ≡ threads.counts_bit lookup.now entry.now }
{
    lookup.bit(counts_field(lookup, entry).saturating_sub(1))
}

/// The least bit at which a root of the metadata is at fault.
fn fault_of(lookup: &Lookup, root: Root, meta: &Meta) -> Option<u64>
    ensures { IsLeastBit (IsRootFault lookup.now root meta.now.named meta.now.end) result }
{
    root_fault(lookup, root, meta.named.as_slice(), meta.end)
}

/// Whether an entry node tells three thread counts.
fn tells_threads(lookup: &Lookup, entry: &[u32]) -> bool
    ensures { result ≡ threads.has_threads lookup.now (is.node_at lookup.now (get_or entry.now 4 0)) }
{
    has_threads(lookup, field_at(entry, 4))
}

/// Tells the broken rule of least number, with the least of its bits; `entry` and `bit` are the entry node's.
fn check(
    alloc: Global,
    lookup: &Lookup,
    strides: &[Option<u32>],
    meta: &Meta,
    entry: &[u32],
    bit: u64,
) -> Result<(), Fault>
    requires strides { strides.now ≡ strides_are lookup.now }
    requires entry { entry.now ≡ entry_of lookup.now meta.now }
    requires bit { bit ≡ entry_bit lookup.now meta.now }
    ensures { CheckAnswer result lookup.now meta.now }
{
    match fault_of(lookup, Root::ShaderModel, meta) {
        Some(at) => return Err(refused(5, at)),
        None => {}
    }
    match fault_of(lookup, Root::EntryPoints, meta) {
        Some(at) => return Err(refused(6, at)),
        None => {}
    }
    if !tells_threads(lookup, entry) {
        return Err(refused(7, bit));
    }
    if are_outside(lookup, entry) {
        return Err(refused(8, counts_bit(lookup, entry)));
    }
    let Ok(fault) = list_fault(alloc, lookup, strides, entry, bit) else {
        return Err(Fault::OutOfMemory);
    };
    match fault {
        Some(at) => Err(refused(9, at)),
        None => Ok(()),
    }
}

/// What an entry node states.
fn facts_of(
    alloc: Global,
    lookup: &Lookup,
    strides: &[Option<u32>],
    entry: &[u32],
) -> Result<Facts, OutOfMemory>
    requires { strides.now ≡ strides_are lookup.now }
    ensures { IfOk result (λ facts. AreFacts facts lookup.now entry.now) }
{
    let rows = all_rows(alloc, lookup, strides, entry)?;
    Ok(Facts {
        body: lookup.body(field_at(entry, 0)).unwrap_or(0),
        local: counts(lookup, counts_field(lookup, entry)),
        rows,
    })
}

/// The facts of a module with these lists.
fn facts_in(alloc: Global, lookup: &Lookup, meta: &Meta) -> Result<Facts, Fault>
    ensures { FactsAnswer result lookup.now meta.now }
{
    let Ok(strides) = strides_of(alloc, lookup, lookup.items()) else {
        return Err(Fault::OutOfMemory);
    };
    let id = entry_id(meta.named.as_slice());
    let entry = fields_by(lookup, id);
    check(
        alloc,
        lookup,
        strides.as_slice(),
        meta,
        entry,
        lookup.bit(id),
    )?;
    match facts_of(alloc, lookup, strides.as_slice(), entry) {
        Ok(facts) => Ok(facts),
        Err(OutOfMemory) => Err(Fault::OutOfMemory),
    }
}

/// The lists of a module.
fn lookup_of<'a>(meta: &'a Meta, types: &'a Types, values: &'a GlobalList) -> Lookup<'a>
    ensures { result ≡ module_of meta.now types.now.list values.now }
{
    Lookup::new(
        meta.list.as_slice(),
        meta.bits.as_slice(),
        types.list.as_slice(),
        values.as_slice(),
    )
}

/// What the metadata of a module with these types and values say of its compute shader, or the first of the rules N5 to N9 that is broken: the one of least number,
/// with the least of its bits.
pub fn shader_facts(
    alloc: Global,
    meta: &Meta,
    types: &Types,
    values: &GlobalList,
) -> Result<Facts, Fault>
    ensures { FactsAnswer result (module_of meta.now types.now.list values.now) meta.now }
{
    let lookup = lookup_of(meta, types, values);
    facts_in(alloc, &lookup, meta)
}
