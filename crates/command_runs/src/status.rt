//! How a run ends.
ghost use Rattle.std.specs.Prelude.{◌≡◌};
ghost use Rattle.command_runs.specs.Statuses.{number};

/// How a run ended. The exit code of the program is the number of the status, 0 to 8 in this order.
#[derive(Clone, Copy, Debug, PartialEq, Eq)]
pub enum Status {
    /// All was done, and the input was read to its end, or to the line that ends the run.
    Done,
    /// What was to be checked does not hold.
    Refused,
    /// The command line does not ask for anything that the program does.
    Usage,
    /// A read of the input failed.
    ReadFault,
    /// A write of the output failed.
    WriteFault,
    /// A program could not be started.
    SpawnFault,
    /// The input is not what the command reads.
    BadInput,
    /// There was not enough memory.
    Memory,
    /// The input has 1,099,511,627,776 bytes or more before its end.
    InputFull,
}

impl Status {
    /// The number of the status, 0 to 8.
    pub fn code(self) -> u8
        ensures { result ≡ number self }
    {
        self as u8
    }
}
