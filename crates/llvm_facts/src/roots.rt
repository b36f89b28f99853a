ghost use Rattle.std.specs.Prelude.{◌≡◌, ◌&&◌, ◌||◌, not, Some, if◌then◌else◌};
ghost use Rattle.std.specs.Option.{option_copied};
ghost use Rattle.llvm_facts.specs.Faults.{IsLeastBit};
ghost use Rattle.llvm_facts.specs.Faults as faults;
ghost use Rattle.llvm_facts.specs.Roots as is;

use crate::lookup::{Lookup, Whole};
use llvm_nodes::Named;

/// A named node that a compute shader has.
#[derive(Clone, Copy, Debug, PartialEq, Eq)]
pub enum Root {
    ShaderModel,
    EntryPoints,
}

/// Whether a constant is the number.
fn is_number(constant: Option<Whole>, wanted: u64) -> bool
    ensures { result ≡ is.is_number wanted constant }
{
    match constant {
        Some(Whole { number, .. }) => number == wanted,
        None => false,
    }
}

/// Whether a constant is a number up to `most`.
fn is_at_most(constant: Option<Whole>, most: u64) -> bool
    ensures { result ≡ is.is_at_most most constant }
{
    match constant {
        Some(Whole { number, .. }) => number <= most,
        None => false,
    }
}

/// Whether there is a text, and it is the one that is wanted.
fn is_text(text: Option<&[u8]>, wanted: &[u8]) -> bool
    ensures { result ≡ is.is_text wanted.now (option_copied text.entry) }
{
    match text {
        Some(text) => text == wanted,
        None => false,
    }
}

/// Whether a node has the text `cs`, 6 and a number up to 2.
fn names_model(lookup: &Lookup, fields: &[u32]) -> bool
    ensures { result ≡ is.names_model lookup.now (Some fields.now) }
{
    fields.len() == 3
        && is_text(lookup.text(fields[0]), b"cs")
        && is_number(lookup.constant(fields[1]), 6)
        && is_at_most(lookup.constant(fields[2]), 2)
}

/// Whether a node has at least five fields, the first of them a function with a body and of the type `void ()`.
fn names_entry(lookup: &Lookup, fields: &[u32]) -> bool
    ensures { result ≡ is.names_entry lookup.now (Some fields.now) }
{
    fields.len() >= 5 && lookup.body(fields[0]).is_some()
}

fn names_root(lookup: &Lookup, root: Root, fields: &[u32]) -> bool
    ensures { result ≡ is.names_root lookup.now root (Some fields.now) }
{
    match root {
        Root::ShaderModel => names_model(lookup, fields),
        Root::EntryPoints => names_entry(lookup, fields),
    }
}

/// Whether a named node has one node, and that is of its form.
fn is_formed(lookup: &Lookup, root: Root, nodes: &[u32]) -> bool
    ensures { result ≡ is.is_formed lookup.now root nodes.now }
{
    if nodes.len() != 1 {
        return false;
    }
    match lookup.node_by(nodes[0]) {
        Some(fields) => names_root(lookup, root, fields),
        None => false,
    }
}

/// Whether a named node has the name of a root.
pub fn has_name(root: Root, named: &Named) -> bool
    ensures { result ≡ is.has_name root named.now }
{
    match root {
        Root::ShaderModel => named.name.as_slice() == b"dx.shaderModel".as_slice(),
        Root::EntryPoints => named.name.as_slice() == b"dx.entryPoints".as_slice(),
    }
}

/// The lesser of two bits, or the one that there is.
pub fn lesser(least: Option<u64>, bit: u64) -> Option<u64>
    ensures { result ≡ faults.lesser least bit }
{
    match least {
        Some(least) => Some(least.min(bit)),
        None => Some(bit),
    }
}

/// The least bit so far, with a named node; `stands` says that another one of the root stands before it.
fn told(lookup: &Lookup, root: Root, stands: bool, least: Option<u64>, named: &Named) -> Option<u64>
    ensures { result ≡ (if is.has_name root named.now && (stands || not (is.is_formed lookup.now root named.now.nodes)) then faults.lesser least named.now.bit else least) }
{
    if has_name(root, named) && (stands || !is_formed(lookup, root, named.nodes.as_slice())) {
        lesser(least, named.bit)
    } else {
        least
    }
}

/// The least bit at which a root is at fault; `end` is the bit of the module's end.
pub fn root_fault(lookup: &Lookup, root: Root, named: &[Named], end: u64) -> Option<u64>
    ensures { IsLeastBit (is.IsRootFault lookup.now root named.now end) result }
{
    let mut stands = false;
    let mut least = None;
    for node in named {
        least = told(lookup, root, stands, least, node);
        stands |= has_name(root, node);
    }
    if stands { least } else { Some(end) }
}
