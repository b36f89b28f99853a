ghost use Rattle.std.specs.Prelude.{◌≡◌, ◌≤◌, ◌<◌, ◌^◌, ◌↔◌, ◌⊎◌, [], length, Contains, IsTrue, None, Err, IfOk, OnOk, OnErr, IsErrOf, option_map};
ghost use Rattle.dx_outside.specs.Outside.{FilesNeverFell, Rose, Holds, StandsAt, Becomes, IsWhole, IsTorn, next};
ghost use Rattle.dx_outside.specs.Memory.{file_at, put_file, readable, memory_seen, called, read_failed, write_failed};

use crate::entry::{Entry, copied, copy_from, place_of};
use crate::{Files, Outage};
use dx_base::OutOfMemory;
use std::alloc::Global;
use std::marker::Model;

/// Files in memory, of which some calls fail.
///
/// Reads and writes are numbered together from 0, from the making of the object on. A read of a missing name fails too.
#[derive(Debug, Drop)]
pub struct MemoryFiles {
    alloc: Global,
    entries: Vec<Entry>,
    fails: Vec<u64>,
    calls: u64,
    read_faults: u64,
    write_faults: u64,
}

impl Model for MemoryFiles {
    ghost use Rattle.dx_outside.specs.Memory.{MemoryState};

    ghost Value = { MemoryState };

    ghost view = { λ m. record { entries = m.entries.items; fails = m.fails.items; calls = m.calls; read_faults = m.read_faults; write_faults = m.write_faults } };
}

/// Puts a file in place of the one of this name, or behind all.
pub fn put_entry(
    alloc: Global,
    entries: &mut Vec<Entry>,
    name: &str,
    bytes: &[u8],
) -> Result<(), OutOfMemory>
    ensures ok { OnOk result (entries.new.items ≡ put_file entries.old.items name.now bytes.now) }
    ensures err { OnErr result (entries.new.items ≡ entries.old.items) }
{
    let bytes = copied(alloc, bytes)?;
    match place_of(entries.as_slice(), name) {
        Some(at) => {
            entries[at].bytes = bytes;
            Ok(())
        }
        None => {
            let name = copied(alloc, name.as_bytes())?;
            match entries.push(Entry { name, bytes }) {
                Ok(()) => Ok(()),
                Err(_) => Err(OutOfMemory),
            }
        }
    }
}

/// The bytes of the file of this name, if there is one.
pub fn bytes_at<'a>(entries: &'a [Entry], name: &str) -> Option<&'a [u8]>
    ensures { option_map (λ bytes. bytes.now) result ≡ file_at entries.now name.now }
{
    match place_of(entries, name) {
        Some(at) => Some(entries[at].bytes.as_slice()),
        None => None,
    }
}

/// Whether the number of a call is listed.
pub fn is_listed(list: &[u64], number: u64) -> bool
    ensures { IsTrue result ↔ Contains list.now number }
{
    list.contains(&number)
}

impl MemoryFiles {
    /// No files; the calls of these numbers fail.
    ///
    /// # Errors
    ///
    /// Want of memory for the numbers.
    pub fn new(alloc: Global, fails: &[u64]) -> Result<MemoryFiles, OutOfMemory>
        ensures { IfOk result (λ files. files ≡ record { entries = []; fails = fails.now; calls = 0; read_faults = 0; write_faults = 0 }) }
    {
        match fails.to_vec(alloc) {
            Ok(fails) => Ok(MemoryFiles {
                alloc,
                entries: Vec::new(alloc),
                fails,
                calls: 0,
                read_faults: 0,
                write_faults: 0,
            }),
            Err(_) => Err(OutOfMemory),
        }
    }

    /// Puts a file in place of the one of this name, or a new one. It is not counted as a call, and no listed number fails it.
    ///
    /// # Errors
    ///
    /// Want of memory; all is then as before.
    pub fn put(&mut self, name: &str, bytes: &[u8]) -> Result<(), OutOfMemory>
        ensures ok { OnOk result (self.new ≡ record self.old { entries = put_file self.old.entries name.now bytes.now }) }
        ensures err { OnErr result (self.new ≡ self.old) }
    {
        put_entry(self.alloc, &mut self.entries, name, bytes)
    }

    /// The bytes of the file of this name; None exactly where there is none.
    pub fn get(&self, name: &str) -> Option<&[u8]>
        ensures { option_map (λ bytes. bytes.now) result ≡ file_at self.now.entries name.now }
    {
        bytes_at(self.entries.as_slice(), name)
    }

    /// Counts a call, and answers whether it is one that fails.
    fn is_failing_call(&mut self) -> bool
        ensures answer { IsTrue result ↔ Contains self.old.fails self.old.calls }
        ensures after { self.new ≡ called self.old }
    {
        let fails = is_listed(self.fails.as_slice(), self.calls);
        self.calls = self.calls.saturating_add(1);
        fails
    }

    /// Counts a read that fails.
    fn read_fault(&mut self) -> Outage
        ensures answer { result ≡ Outage.Failed }
        ensures after { self.new ≡ record self.old { read_faults = next self.old.read_faults } }
        ensures kept { self.old.read_faults ≤ self.new.read_faults }
    {
        self.read_faults = self.read_faults.saturating_add(1);
        Outage::Failed
    }

    /// Counts a write that fails.
    fn write_fault(&mut self) -> Outage
        ensures answer { result ≡ Outage.Failed }
        ensures after { self.new ≡ record self.old { write_faults = next self.old.write_faults } }
        ensures kept { self.old.write_faults ≤ self.new.write_faults }
    {
        self.write_faults = self.write_faults.saturating_add(1);
        Outage::Failed
    }
}

impl Files for MemoryFiles {
    ghost seen = { memory_seen };

    fn read_at(&mut self, name: &str, at: u64, into: &mut [u8]) -> Result<usize, Outage>
        requires place { at ≤ 2 ^ 26 }
        requires room { 0 < length into.old }
        ensures bound { IfOk result (λ n. n ≤ length into.new) }
        ensures bytes { IfOk result (λ n. Holds (memory_seen self.old).store name.now (StandsAt at n into.new)) }
        ensures same { (memory_seen self.new).store ≡ (memory_seen self.old).store }
        ensures counts { FilesNeverFell (memory_seen self.old) (memory_seen self.new) }
        ensures failed { IsErrOf result Outage.Failed → Rose ((memory_seen self.old).read_faults name.now) ((memory_seen self.new).read_faults name.now) }

        // It fails at the listed calls and where there is no such file, and nowhere else; it never finds no memory.
        ensures fails { Contains self.old.fails self.old.calls ⊎ (file_at self.old.entries name.now ≡ None) → result ≡ Err Outage.Failed }
        ensures only { OnErr result (Contains self.old.fails self.old.calls ⊎ (file_at self.old.entries name.now ≡ None)) }
        // as many bytes as there are and as fit
        ensures count { IfOk result (λ n. n ≡ readable (file_at self.old.entries name.now) at (length into.new)) }
        ensures ok { OnOk result (self.new ≡ called self.old) }
        ensures err { OnErr result (self.new ≡ read_failed self.old) }
    {
        if self.is_failing_call() {
            return Err(self.read_fault());
        }
        match bytes_at(self.entries.as_slice(), name) {
            Some(bytes) => Ok(copy_from(bytes, at, into)),
            None => Err(self.read_fault()),
        }
    }

    fn write_new(&mut self, name: &str, bytes: &[u8]) -> Result<(), Outage>
        ensures whole { OnOk result (Becomes (memory_seen self.old).store name.now (IsWhole bytes.now) (memory_seen self.new).store) }
        ensures torn { IsErrOf result Outage.Failed → Becomes (memory_seen self.old).store name.now (IsTorn bytes.now) (memory_seen self.new).store }
        ensures failed { IsErrOf result Outage.Failed → Rose ((memory_seen self.old).write_faults name.now) ((memory_seen self.new).write_faults name.now) }
        ensures memory { IsErrOf result Outage.OutOfMemory → (memory_seen self.new).store ≡ (memory_seen self.old).store }
        ensures counts { FilesNeverFell (memory_seen self.old) (memory_seen self.new) }

        // It fails at the listed calls, and nowhere else; the file is then as before.
        ensures fails { Contains self.old.fails self.old.calls → result ≡ Err Outage.Failed }
        ensures only { IsErrOf result Outage.Failed → Contains self.old.fails self.old.calls }
        ensures ok { OnOk result (self.new ≡ record (called self.old) { entries = put_file self.old.entries name.now bytes.now }) }
        ensures fault { IsErrOf result Outage.Failed → self.new ≡ write_failed self.old }
        ensures lack { IsErrOf result Outage.OutOfMemory → self.new ≡ called self.old }
    {
        if self.is_failing_call() {
            return Err(self.write_fault());
        }
        match self.put(name, bytes) {
            Ok(()) => Ok(()),
            Err(OutOfMemory) => Err(Outage::OutOfMemory),
        }
    }
}
