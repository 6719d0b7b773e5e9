//! How a flow rule stops a run.

ghost use Rattle.std.specs.Prelude.{◌≡◌};
ghost use Rattle.flow_frames.specs.declared.faults.FlowFault.TheVariants as faults;

use flow_text::OutOfMemory;

/// The flow rules.
#[derive(Clone, Copy, Debug, PartialEq, Eq)]
pub enum Rule {
    W1,
    W2,
    W3,
    W4,
    W5,
    W6,
    W7,
    W8,
    W9,
    W10,
    W11,
    W12,
}

/// A rule was broken: what it needs isn't included in what it has.
#[derive(Clone, Copy)]
pub struct FlowStop<T> {
    pub rule: Rule,
    pub need: T,
    pub have: T,
}

/// Why a call under a flow rule did nothing.
#[derive(Clone, Copy)]
pub enum FlowFault<T> {
    Stop(FlowStop<T>),
    OutOfMemory,
}

impl<T> From<OutOfMemory> for FlowFault<T> {
    ghost from_gives = { λ _ e. e ≡ faults.OutOfMemory };

    fn from(_error: OutOfMemory) -> FlowFault<T> {
        FlowFault::OutOfMemory
    }
}

impl<T> From<FlowStop<T>> for FlowFault<T> {
    ghost from_gives = { λ stop e. e ≡ faults.Stop stop };

    fn from(stop: FlowStop<T>) -> FlowFault<T> {
        FlowFault::Stop(stop)
    }
}
