//! How runs end, and which of their lines are shown.

use flow_frames::Rule;
use flow_text::Text;
use origin_labels::OriginList;
use run_state::Leaving;

/// How a run ends.
#[derive(Drop)]
pub enum Ending {
    /// It reached the end of the script.
    Done,
    /// An exception left the script: its value's type and text, or its class and name.
    Threw {
        shown: Text,
    },
    /// A flow rule stopped it: what it needs isn't within what it has.
    Stopped {
        rule: Rule,
        need: OriginList,
        have: OriginList,
    },
    /// It left the language.
    Left(Leaving),
    /// Its turns are spent.
    OutOfTurns,
    /// A line couldn't be put.
    WriteFault,
    OutOfMemory,
}

/// Which lines of a run are put.
#[derive(Drop)]
pub enum Show {
    All,
    /// Those on the channels that an observer of these origins sees.
    Only(OriginList),
}
