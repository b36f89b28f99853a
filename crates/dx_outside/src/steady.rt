ghost use Rattle.std.specs.Prelude.{◌≡◌, ◌≤◌, ◌<◌, ◌^◌, [], length, IsOk, IfOk, OnOk, OnErr, IsErrOf, option_map};
ghost use Rattle.dx_outside.specs.Outside.{FilesNeverFell, Rose, Holds, StandsAt, Becomes, IsWhole, IsTorn};
ghost use Rattle.dx_outside.specs.Memory.{file_at, put_file, readable, steady_seen};

use crate::entry::{Entry, copy_from};
use crate::memory::{bytes_at, put_entry};
use crate::{Files, Outage};
use dx_base::OutOfMemory;
use std::alloc::Global;
use std::marker::Model;

/// Files in memory that never fail; a missing one is read as an empty one.
#[derive(Debug, Drop)]
pub struct SteadyFiles {
    alloc: Global,
    entries: Vec<Entry>,
}

impl Model for SteadyFiles {
    ghost use Rattle.std.specs.Prelude.{List};
    ghost use Rattle.dx_outside.specs.declared.entry.Entry.{Entry};

    ghost Value = { List Entry };

    ghost view = { λ s. s.entries.items };
}

impl SteadyFiles {
    /// No files. It takes no memory.
    pub fn new(alloc: Global) -> SteadyFiles
        ensures { result ≡ [] }
    {
        SteadyFiles {
            alloc,
            entries: Vec::new(alloc),
        }
    }

    /// Puts a file in place of the one of this name, or a new one.
    ///
    /// # Errors
    ///
    /// Want of memory; all is then as before.
    pub fn put(&mut self, name: &str, bytes: &[u8]) -> Result<(), OutOfMemory>
        ensures ok { OnOk result (self.new ≡ put_file self.old name.now bytes.now) }
        ensures err { OnErr result (self.new ≡ self.old) }
    {
        put_entry(self.alloc, &mut self.entries, name, bytes)
    }

    /// The bytes of the file of this name; None exactly where there is none.
    pub fn get(&self, name: &str) -> Option<&[u8]>
        ensures { option_map (λ bytes. bytes.now) result ≡ file_at self.now name.now }
    {
        bytes_at(self.entries.as_slice(), name)
    }
}

impl Files for SteadyFiles {
    ghost seen = { steady_seen };

    fn read_at(&mut self, name: &str, at: u64, into: &mut [u8]) -> Result<usize, Outage>
        requires place { at ≤ 2 ^ 26 }
        requires room { 0 < length into.old }
        ensures bound { IfOk result (λ n. n ≤ length into.new) }
        ensures bytes { IfOk result (λ n. Holds (steady_seen self.old).store name.now (StandsAt at n into.new)) }
        ensures same { (steady_seen self.new).store ≡ (steady_seen self.old).store }
        ensures counts { FilesNeverFell (steady_seen self.old) (steady_seen self.new) }
        ensures failed { IsErrOf result Outage.Failed → Rose ((steady_seen self.old).read_faults name.now) ((steady_seen self.new).read_faults name.now) }

        // It never fails, and never finds no memory.
        ensures answers { IsOk result }
        // as many bytes as there are and as fit; of a missing file none
        ensures count { IfOk result (λ n. n ≡ readable (file_at self.old name.now) at (length into.new)) }
        ensures all { self.new ≡ self.old }
    {
        match bytes_at(self.entries.as_slice(), name) {
            Some(bytes) => Ok(copy_from(bytes, at, into)),
            None => Ok(0),
        }
    }

    fn write_new(&mut self, name: &str, bytes: &[u8]) -> Result<(), Outage>
        ensures whole { OnOk result (Becomes (steady_seen self.old).store name.now (IsWhole bytes.now) (steady_seen self.new).store) }
        ensures torn { IsErrOf result Outage.Failed → Becomes (steady_seen self.old).store name.now (IsTorn bytes.now) (steady_seen self.new).store }
        ensures failed { IsErrOf result Outage.Failed → Rose ((steady_seen self.old).write_faults name.now) ((steady_seen self.new).write_faults name.now) }
        ensures memory { IsErrOf result Outage.OutOfMemory → (steady_seen self.new).store ≡ (steady_seen self.old).store }
        ensures counts { FilesNeverFell (steady_seen self.old) (steady_seen self.new) }

        ensures ok { OnOk result (self.new ≡ put_file self.old name.now bytes.now) }
        ensures err { OnErr result (self.new ≡ self.old) }
    {
        match self.put(name, bytes) {
            Ok(()) => Ok(()),
            Err(OutOfMemory) => Err(Outage::OutOfMemory),
        }
    }
}
