//! Built-ins as programs: lists of lines that ask one request after another, and the one machine that runs them.
#![tactic(auto)]

mod advance;
mod amounts;
mod call;
mod conditions;
mod kept;
mod laws;
mod line;
mod lines;
mod program;
mod registers;
mod requests;
mod searching;
mod sights;
mod stage;
mod values;
mod wordings;

pub use call::Call;
pub use laws::programs;
pub use line::{
    Amount, Args, Ask, Condition, Count, Counter, End, Exit, Fresh, Line, Name, Place, Reason,
    Sight, TextSlot, Whole, Wording,
};
pub use program::ProgramCall;
