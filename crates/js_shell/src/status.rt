//! How a command ended, for whoever runs it.

ghost use Rattle.std.specs.Prelude.{◌≡◌};
ghost use Rattle.js_shell.specs.Statuses.{number_of};

/// How a command ended.
#[derive(Clone, Copy, Debug, PartialEq, Eq)]
pub enum Status {
    /// The script ran to its end, or it was checked and is accepted; or a script was made; or an observer sees the same of two runs.
    Done,
    /// An exception left the script.
    Threw,
    /// The words are no command.
    Usage,
    /// The script was refused.
    Source,
    /// The policy, the observer or an input was refused, or the two inputs differ for the observer.
    Policy,
    /// The monitor stopped the run.
    Stopped,
    /// The run left the language's profile.
    Left,
    /// The run needs more turns than it had.
    OutOfTurns,
    /// A file could not be read.
    ReadFault,
    /// Output could not be written.
    WriteFault,
    /// There was no memory.
    OutOfMemory,
    /// A run of a pair isn't finished.
    Unfinished,
}

impl Status {
    /// The program's exit status.
    pub fn number(self) -> u8
        ensures { result ≡ number_of self }
    {
        match self {
            Status::Done => 0,
            Status::Threw => 1,
            Status::Usage => 2,
            Status::Source => 3,
            Status::Policy => 4,
            Status::Stopped => 5,
            Status::Left => 6,
            Status::OutOfTurns => 7,
            Status::ReadFault => 8,
            Status::WriteFault => 9,
            Status::OutOfMemory => 10,
            Status::Unfinished => 11,
        }
    }
}
