ghost use Rattle.std.specs.Prelude.{◌≡◌, ◌≤◌, ◌<◌, ◌^◌, ℕ, length, IfOk, OnOk, OnErr, IsErrOf};
ghost use Rattle.dx_outside.specs.Outside.{FilesSeen, SinkSeen, Rose, FilesNeverFell, SinkNeverFell, Holds, StandsAt, Becomes, IsWhole, IsTorn, Appends};

use thiserror::Error;

/// Why a call on the outside was not done.
#[derive(Clone, Copy, Debug, PartialEq, Eq, Error)]
pub enum Outage {
    /// The call failed, and the object counted it.
    #[error("the call failed")]
    Failed,
    /// The call found no memory.
    #[error("out of memory")]
    OutOfMemory,
}

/// Files by their names.
pub trait Files {
    /// All files, where the object tells them, and for each name the counts of reads and writes that failed.
    ghost seen: { Self → FilesSeen };

    /// Reads the bytes of a file from the byte `at` on, and answers how many bytes of `into` it filled, from the first on.
    ///
    /// It answers 0 only where `at` is at or past the file's end. No file changes.
    ///
    /// # Errors
    ///
    /// `Failed` only where the count of reads of this name that failed rose in this call.
    fn read_at(&mut self, name: &str, at: u64, into: &mut [u8]) -> Result<usize, Outage>
        requires place { at ≤ 2 ^ 26 }
        requires room { 0 < length into.old }
        ensures bound { IfOk result (λ n. n ≤ length into.new) }
        ensures bytes { IfOk result (λ n. Holds (seen self.old).store name.now (StandsAt at n into.new)) }
        ensures same { (seen self.new).store ≡ (seen self.old).store }
        ensures counts { FilesNeverFell (seen self.old) (seen self.new) }
        ensures failed { IsErrOf result Outage.Failed → Rose ((seen self.old).read_faults name.now) ((seen self.new).read_faults name.now) };

    /// Makes the file of this name hold exactly these bytes, whether it is new or replaced. No other name changes.
    ///
    /// # Errors
    ///
    /// `Failed` only where the count of writes of this name that failed rose in this call; the file is then as before or holds a
    /// prefix of the bytes. After `OutOfMemory` all files are as before.
    fn write_new(&mut self, name: &str, bytes: &[u8]) -> Result<(), Outage>
        ensures whole { OnOk result (Becomes (seen self.old).store name.now (IsWhole bytes.now) (seen self.new).store) }
        ensures torn { IsErrOf result Outage.Failed → Becomes (seen self.old).store name.now (IsTorn bytes.now) (seen self.new).store }
        ensures failed { IsErrOf result Outage.Failed → Rose ((seen self.old).write_faults name.now) ((seen self.new).write_faults name.now) }
        ensures memory { IsErrOf result Outage.OutOfMemory → (seen self.new).store ≡ (seen self.old).store }
        ensures counts { FilesNeverFell (seen self.old) (seen self.new) };
}

/// A sink for bytes.
pub trait Sink {
    /// The bytes taken so far, where the object tells them, and the counts of writes that failed and that found no memory.
    ghost seen: { Self → SinkSeen };

    /// Appends the first bytes of the piece, at least one where it is not empty, and answers how many.
    ///
    /// # Errors
    ///
    /// `Failed` only where the count of failed writes rose in this call, and `OutOfMemory` only where that of writes without memory
    /// did. Either appends nothing.
    fn write(&mut self, piece: &[u8]) -> Result<usize, Outage>
        ensures bytes { IfOk result (λ n. Appends n piece.now (seen self.old).taken (seen self.new).taken) }
        ensures nothing { OnErr result ((seen self.new).taken ≡ (seen self.old).taken) }
        ensures failed { IsErrOf result Outage.Failed → Rose (seen self.old).faults (seen self.new).faults }
        ensures memory { IsErrOf result Outage.OutOfMemory → Rose (seen self.old).lacks (seen self.new).lacks }
        ensures counts { SinkNeverFell (seen self.old) (seen self.new) };
}
