//! Why an assignment did nothing.

ghost use Rattle.std.specs.Prelude.{◌≡◌};
ghost use Rattle.env_records.specs.declared.faults.AssignFault.TheVariants as faults;

use flow_frames::FlowStop;
use flow_text::OutOfMemory;

/// Why an assignment did nothing.
#[derive(Clone, Copy)]
pub enum AssignFault<T> {
    /// The binding can't be changed.
    Immutable,
    Stop(FlowStop<T>),
    OutOfMemory,
}

impl<T> From<OutOfMemory> for AssignFault<T> {
    ghost from_gives = { λ _ e. e ≡ faults.OutOfMemory };

    fn from(_error: OutOfMemory) -> AssignFault<T> {
        AssignFault::OutOfMemory
    }
}

impl<T> From<FlowStop<T>> for AssignFault<T> {
    ghost from_gives = { λ stop e. e ≡ faults.Stop stop };

    fn from(stop: FlowStop<T>) -> AssignFault<T> {
        AssignFault::Stop(stop)
    }
}
