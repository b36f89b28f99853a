ghost use Rattle.std.specs.Prelude.{◌≡◌};

/// How a run ended.
#[derive(Clone, Copy, Debug, PartialEq, Eq)]
pub enum Status {
    /// The command was carried out.
    Done,
    /// The file breaks a rule.
    Refused,
    /// The words are of no known form.
    Usage,
    /// A read of IN failed.
    ReadFault,
    /// The write of OUT failed.
    WriteFault,
    /// The file passes a limit.
    Limit,
    /// There was no memory.
    OutOfMemory,
    /// A write of the sink failed.
    SayFault,
}

impl Status {
    ghost use Rattle.dx_run.specs.Runs.{exit_code};

    /// The number with which the program ends.
    pub fn code(self) -> u8
        ensures { result ≡ exit_code self }
    {
        self as u8
    }
}
