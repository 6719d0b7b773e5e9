//! The commands, by the words that they were given.

/// A run of a script under a policy with an input, for one observer's view or for all.
#[derive(Clone, Copy)]
pub struct RunWords<'a> {
    pub script: &'a str,
    pub policy: &'a str,
    pub input: &'a str,
    pub turns: u64,
    pub observer: Option<&'a str>,
}

/// Two runs of a script under a policy, whose views for an observer are compared.
#[derive(Clone, Copy)]
pub struct PairWords<'a> {
    pub script: &'a str,
    pub policy: &'a str,
    pub first: &'a str,
    pub second: &'a str,
    pub observer: &'a str,
    pub turns: u64,
}

/// What the words ask for.
#[derive(Clone, Copy)]
pub enum Command<'a> {
    Run(RunWords<'a>),
    Check { script: &'a str },
    Pair(PairWords<'a>),
    Make { number: u32 },
    Trial { number: u32 },
}

/// Why no command was read.
#[derive(Clone, Copy)]
pub enum WordsFault {
    /// The words state no command.
    Usage,
    OutOfMemory,
}
