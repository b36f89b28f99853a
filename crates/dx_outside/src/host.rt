ghost use Rattle.std.specs.Prelude.{◌≡◌, ◌≤◌, ◌<◌, ◌^◌, length, IfOk, OnOk, OnErr, IsErrOf};
ghost use Rattle.dx_outside.specs.Outside.{Rose, FilesNeverFell, SinkNeverFell, Holds, StandsAt, Becomes, IsWhole, IsTorn, Appends, next};
ghost use Rattle.dx_outside.specs.Host.{host_files_seen, host_sink_seen};

use crate::{Files, Outage, Sink};
use std::fs;
use std::io::{self, ErrorKind, Read, Seek, SeekFrom, Write};
use std::marker::Model;
use std::rt::Files as FileSystem;

/// The files of the host. It doesn't tell their content, and keeps one count of failed reads and one of failed writes for all names.
#[derive(Drop)]
pub struct HostFiles<'a, R: FileSystem> {
    rt: &'a R,
    read_faults: u64,
    write_faults: u64,
}

impl<'a, R: FileSystem> Model for HostFiles<'a, R> {
    ghost use Rattle.dx_outside.specs.Host.{FileFaults};

    ghost Value = { FileFaults };

    ghost view = { λ s. record { reads = s.read_faults; writes = s.write_faults } };
}

impl<'a, R: FileSystem> HostFiles<'a, R> {
    /// The host's files, with no failed call yet.
    pub fn new(rt: &'a R) -> Self
        ensures { result ≡ record { reads = 0; writes = 0 } }
    {
        HostFiles {
            rt,
            read_faults: 0,
            write_faults: 0,
        }
    }

    /// Counts a read that failed, unless it found no memory.
    fn read_outage(&mut self, error: &io::Error) -> Outage
        ensures failed { result ≡ Outage.Failed → self.new ≡ record self.old { reads = next self.old.reads } }
        ensures memory { result ≡ Outage.OutOfMemory → self.new ≡ self.old }
        ensures kept_reads { self.old.reads ≤ self.new.reads }
        ensures kept_writes { self.old.writes ≡ self.new.writes }
    {
        if is_lack(error) {
            return Outage::OutOfMemory;
        }
        self.read_faults = self.read_faults.saturating_add(1);
        Outage::Failed
    }

    /// Counts a write that failed.
    fn write_fault(&mut self) -> Outage
        ensures answer { result ≡ Outage.Failed }
        ensures after { self.new ≡ record self.old { writes = next self.old.writes } }
        ensures kept { self.old.writes ≤ self.new.writes }
    {
        self.write_faults = self.write_faults.saturating_add(1);
        Outage::Failed
    }
}

/// Whether the host names want of memory.
fn is_lack(error: &io::Error) -> bool {
    error.kind() == ErrorKind::OutOfMemory
}

/// One read of a file from a place on.
fn read_from<R: FileSystem>(rt: &R, name: &str, at: u64, into: &mut [u8]) -> io::Result<usize>
    ensures { IfOk result (λ n. n ≤ length into.new) }
{
    let mut file = fs::open(rt, name)?;
    file.seek(SeekFrom::Start(at))?;
    file.read(into)
}

impl<R: FileSystem> Files for HostFiles<'_, R> {
    ghost seen = { host_files_seen };

    fn read_at(&mut self, name: &str, at: u64, into: &mut [u8]) -> Result<usize, Outage> {
        match read_from(self.rt, name, at, into) {
            Ok(n) => Ok(n),
            Err(error) => Err(self.read_outage(&error)),
        }
    }

    fn write_new(&mut self, name: &str, bytes: &[u8]) -> Result<(), Outage> {
        let mut file = match fs::create(self.rt, name) {
            Ok(file) => file,
            Err(error) => {
                if is_lack(&error) {
                    return Err(Outage::OutOfMemory);
                }
                return Err(self.write_fault());
            }
        };
        match file.write_all(bytes) {
            Ok(()) => Ok(()),
            // the file may be torn, so that want of memory is a fault here
            Err(_) => Err(self.write_fault()),
        }
    }
}

/// Standard output of the host. It doesn't tell what it took.
#[derive(Drop)]
pub struct HostSink<'a, R: Print> {
    rt: &'a R,
    faults: u64,
    lacks: u64,
}

impl<'a, R: Print> Model for HostSink<'a, R> {
    ghost use Rattle.dx_outside.specs.Host.{SinkFaults};

    ghost Value = { SinkFaults };

    ghost view = { λ s. record { faults = s.faults; lacks = s.lacks } };
}

impl<'a, R: Print> HostSink<'a, R> {
    /// Standard output, with no failed write yet.
    pub fn new(rt: &'a R) -> Self
        ensures { result ≡ record { faults = 0; lacks = 0 } }
    {
        HostSink {
            rt,
            faults: 0,
            lacks: 0,
        }
    }

    /// Counts a write that failed.
    fn fault(&mut self) -> Outage
        ensures answer { result ≡ Outage.Failed }
        ensures after { self.new ≡ record self.old { faults = next self.old.faults } }
        ensures kept { self.old.faults ≤ self.new.faults }
    {
        self.faults = self.faults.saturating_add(1);
        Outage::Failed
    }
}

impl<R: Print> Sink for HostSink<'_, R> {
    ghost seen = { host_sink_seen };

    fn write(&mut self, piece: &[u8]) -> Result<usize, Outage> {
        if piece.is_empty() {
            return Ok(0);
        }
        match io::writer(self.rt).write(piece) {
            Ok(0) => Err(self.fault()),
            Ok(n) => Ok(n),
            Err(error) => {
                if is_lack(&error) {
                    self.lacks = self.lacks.saturating_add(1);
                    return Err(Outage::OutOfMemory);
                }
                Err(self.fault())
            }
        }
    }
}
