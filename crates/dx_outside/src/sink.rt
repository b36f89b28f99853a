ghost use Rattle.std.specs.Prelude.{◌≡◌, ◌↔◌, ◌++◌, [], length, Contains, IsTrue, Err, IfOk, OnOk, OnErr, IsErrOf};
ghost use Rattle.dx_outside.specs.Outside.{Rose, SinkNeverFell, Appends, next};
ghost use Rattle.dx_outside.specs.Memory.{sink_seen, steady_sink_seen};

use crate::memory::is_listed;
use crate::{Outage, Sink};
use dx_base::OutOfMemory;
use std::alloc::Global;
use std::marker::Model;

/// A sink in memory, of which some calls fail, numbered from 0 from the making of the object on.
#[derive(Debug, Drop)]
pub struct MemorySink {
    taken: Vec<u8>,
    fails: Vec<u64>,
    calls: u64,
    faults: u64,
    lacks: u64,
}

impl Model for MemorySink {
    ghost use Rattle.dx_outside.specs.Memory.{SinkState};

    ghost Value = { SinkState };

    ghost view = { λ m. record { bytes = m.taken.items; fails = m.fails.items; calls = m.calls; faults = m.faults; lacks = m.lacks } };
}

impl MemorySink {
    /// An empty sink; the calls of these numbers fail.
    ///
    /// # Errors
    ///
    /// Want of memory for the numbers.
    pub fn new(alloc: Global, fails: &[u64]) -> Result<MemorySink, OutOfMemory>
        ensures { IfOk result (λ sink. sink ≡ record { bytes = []; fails = fails.now; calls = 0; faults = 0; lacks = 0 }) }
    {
        match fails.to_vec(alloc) {
            Ok(fails) => Ok(MemorySink {
                taken: Vec::new(alloc),
                fails,
                calls: 0,
                faults: 0,
                lacks: 0,
            }),
            Err(_) => Err(OutOfMemory),
        }
    }

    /// All bytes that were appended.
    pub fn taken(&self) -> &[u8]
        ensures { result.now ≡ self.now.bytes }
    {
        self.taken.as_slice()
    }

    /// Counts a call, and answers whether it is one that fails.
    fn is_failing_call(&mut self) -> bool
        ensures answer { IsTrue result ↔ Contains self.old.fails self.old.calls }
        ensures after { self.new ≡ record self.old { calls = next self.old.calls } }
    {
        let fails = is_listed(self.fails.as_slice(), self.calls);
        self.calls = self.calls.saturating_add(1);
        fails
    }
}

impl Sink for MemorySink {
    ghost seen = { sink_seen };

    fn write(&mut self, piece: &[u8]) -> Result<usize, Outage>
        ensures bytes { IfOk result (λ n. Appends n piece.now (sink_seen self.old).taken (sink_seen self.new).taken) }
        ensures nothing { OnErr result ((sink_seen self.new).taken ≡ (sink_seen self.old).taken) }
        ensures failed { IsErrOf result Outage.Failed → Rose (sink_seen self.old).faults (sink_seen self.new).faults }
        ensures memory { IsErrOf result Outage.OutOfMemory → Rose (sink_seen self.old).lacks (sink_seen self.new).lacks }
        ensures counts { SinkNeverFell (sink_seen self.old) (sink_seen self.new) }

        // It fails at the listed calls, and nowhere else; it takes a piece whole.
        ensures fails { Contains self.old.fails self.old.calls → result ≡ Err Outage.Failed }
        ensures only { IsErrOf result Outage.Failed → Contains self.old.fails self.old.calls }
        ensures count { IfOk result (λ n. n ≡ length piece.now) }
        ensures ok { OnOk result (self.new ≡ record self.old { bytes = self.old.bytes ++ piece.now; calls = next self.old.calls }) }
        ensures fault { IsErrOf result Outage.Failed → self.new ≡ record self.old { calls = next self.old.calls; faults = next self.old.faults } }
        ensures lack { IsErrOf result Outage.OutOfMemory → self.new ≡ record self.old { calls = next self.old.calls; lacks = next self.old.lacks } }
    {
        if self.is_failing_call() {
            self.faults = self.faults.saturating_add(1);
            return Err(Outage::Failed);
        }
        match self.taken.extend_from_slice(piece) {
            Ok(()) => Ok(piece.len()),
            Err(_) => {
                self.lacks = self.lacks.saturating_add(1);
                Err(Outage::OutOfMemory)
            }
        }
    }
}

/// A sink in memory that never fails.
#[derive(Debug, Drop)]
pub struct SteadySink {
    taken: Vec<u8>,
    lacks: u64,
}

impl Model for SteadySink {
    ghost use Rattle.dx_outside.specs.Memory.{SteadyState};

    ghost Value = { SteadyState };

    ghost view = { λ m. record { bytes = m.taken.items; lacks = m.lacks } };
}

impl SteadySink {
    /// An empty sink. It takes no memory.
    pub fn new(alloc: Global) -> SteadySink
        ensures { result ≡ record { bytes = []; lacks = 0 } }
    {
        SteadySink {
            taken: Vec::new(alloc),
            lacks: 0,
        }
    }

    /// All bytes that were appended.
    pub fn taken(&self) -> &[u8]
        ensures { result.now ≡ self.now.bytes }
    {
        self.taken.as_slice()
    }
}

impl Sink for SteadySink {
    ghost seen = { steady_sink_seen };

    fn write(&mut self, piece: &[u8]) -> Result<usize, Outage>
        ensures bytes { IfOk result (λ n. Appends n piece.now (steady_sink_seen self.old).taken (steady_sink_seen self.new).taken) }
        ensures nothing { OnErr result ((steady_sink_seen self.new).taken ≡ (steady_sink_seen self.old).taken) }
        ensures failed { IsErrOf result Outage.Failed → Rose (steady_sink_seen self.old).faults (steady_sink_seen self.new).faults }
        ensures memory { IsErrOf result Outage.OutOfMemory → Rose (steady_sink_seen self.old).lacks (steady_sink_seen self.new).lacks }
        ensures counts { SinkNeverFell (steady_sink_seen self.old) (steady_sink_seen self.new) }

        // It never fails, and takes a piece whole.
        ensures count { IfOk result (λ n. n ≡ length piece.now) }
        ensures ok { OnOk result (self.new ≡ record self.old { bytes = self.old.bytes ++ piece.now }) }
        ensures lack { OnErr result (self.new ≡ record self.old { lacks = next self.old.lacks }) }
    {
        match self.taken.extend_from_slice(piece) {
            Ok(()) => Ok(piece.len()),
            Err(_) => {
                self.lacks = self.lacks.saturating_add(1);
                Err(Outage::OutOfMemory)
            }
        }
    }
}
