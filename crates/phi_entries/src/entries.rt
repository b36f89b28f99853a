ghost use Rattle.std.specs.Prelude.{◌≡◌, ◌<◌, ◌^◌, ◌&&◌, ℕ, None, nat_eq, if◌then◌else◌, IfOk, OnOk, length, slice_get};
ghost use Rattle.std.specs.Option.{option_or};
ghost use Rattle.phi_entries.specs.Entries.{AreEntries, ArePlaces, edge_for, entry_in, entry_of, first_entry, is_edge};

use dx_base::OutOfMemory;
use dxil_form::{Block, Entry, Operand, Phi};
use indexmap::IndexMap;
use std::alloc::Global;

/// A phi, by the number of its block and its place there, and a block before it.
#[derive(Clone, Copy, Debug, PartialEq, Eq, Hash)]
pub struct Edge {
    pub block: u32,
    pub phi: u32,
    pub from: u32,
}

/// What the first entry of each phi for each block before it gives.
#[derive(Drop)]
pub struct Entries {
    pub first: IndexMap<Edge, Operand>,
}

impl Entries {
    /// No entry.
    #[tactic(auto, using(crate::proofs::Found::no_entry))]
    fn new(alloc: Global) -> Self
        ensures { (k n from : ℕ) → entry_of result k n from ≡ None }
    {
        Entries {
            first: IndexMap::new(alloc),
        }
    }

    /// What a phi takes from a block before it; None where it has no entry for the block.
    pub fn get(&self, block: u32, phi: u32, from: u32) -> Option<Operand>
        ensures { result ≡ entry_of self.now block phi from }
    {
        self.first.get(&edge_of(block, phi, from)).copied()
    }

    /// Notes an entry, unless one of the same phi for the same block stands before it.
    fn add(&mut self, edge: Edge, value: Operand) -> Result<(), OutOfMemory>
        ensures { OnOk result ((k n from : ℕ) → entry_of self.new k n from ≡ option_or (entry_of self.old k n from) (if is_edge edge k n from then Some value else None)) }
    {
        match self.first.get(&edge) {
            Some(_) => Ok(()),
            None => match self.first.insert(edge, value) {
                Ok(_) => Ok(()),
                Err(_) => Err(OutOfMemory),
            },
        }
    }

    /// Notes the entries of a phi.
    fn add_phi(&mut self, block: u32, phi: u32, entries: &[Entry]) -> Result<(), OutOfMemory>
        ensures { OnOk result ((k n from : ℕ) → entry_of self.new k n from ≡ option_or (entry_of self.old k n from) (if nat_eq k block && nat_eq n phi then first_entry from entries.now else None)) }
    {
        for entry in entries {
            self.add(edge_of(block, phi, entry.from), entry.value)?;
        }
        Ok(())
    }

    /// Notes the entries of a block's phis.
    fn add_block(&mut self, block: u32, phis: &[Phi]) -> Result<(), OutOfMemory>
        requires { length phis.now < 2 ^ 32 }
        ensures { OnOk result ((k n from : ℕ) → entry_of self.new k n from ≡ option_or (entry_of self.old k n from) (if nat_eq k block then entry_in from (slice_get phis.now n) else None)) }
    {
        for (n, phi) in phis.iter().enumerate() {
            self.add_phi(block, n as u32, phi.entries.as_slice())?;
        }
        Ok(())
    }

    /// The entries of all phis.
    pub fn of_blocks(alloc: Global, blocks: &[Block]) -> Result<Self, OutOfMemory>
        requires { ArePlaces blocks.now }
        ensures { IfOk result (AreEntries blocks.now) }
    {
        let mut entries = Entries::new(alloc);
        for (k, block) in blocks.iter().enumerate() {
            entries.add_block(k as u32, block.phis.as_slice())?;
        }
        Ok(entries)
    }
}

fn edge_of(block: u32, phi: u32, from: u32) -> Edge
    ensures { result ≡ edge_for block phi from }
{
    Edge { block, phi, from }
}
