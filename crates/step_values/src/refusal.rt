//! Why an operator gives no value.

ghost use Rattle.std.specs.Prelude.{◌≡◌};
ghost use Rattle.js_number.specs.declared.sum.AddFault.TheVariants as faults;
ghost use Rattle.run_state.specs.declared.outcome.Leaving.TheVariants as leaving;
ghost use Rattle.step_values.specs.declared.refusal.Refusal.TheVariants as refusal;
ghost use Rattle.step_values.specs.Answers.{refusal_of};

use flow_text::OutOfMemory;
use js_number::{AddFault, LeftNumbers};
use run_state::Leaving;

/// Why an operator gives no value.
#[derive(Drop)]
pub(crate) enum Refusal {
    /// The run leaves the language.
    Leaves(Leaving),
    OutOfMemory,
}

impl Refusal {
    /// What stands for an operator where it can't stand: no evaluation comes to it.
    pub(crate) fn elsewhere() -> Refusal
        ensures { result ≡ refusal.Leaves leaving.Number }
    {
        Refusal::Leaves(Leaving::Number)
    }
}

impl From<LeftNumbers> for Refusal {
    ghost from_gives = { λ _ e. e ≡ refusal.Leaves leaving.Number };

    fn from(_error: LeftNumbers) -> Refusal {
        Refusal::Leaves(Leaving::Number)
    }
}

impl From<OutOfMemory> for Refusal {
    ghost from_gives = { λ _ e. e ≡ refusal.OutOfMemory };

    fn from(_error: OutOfMemory) -> Refusal {
        Refusal::OutOfMemory
    }
}

impl From<AddFault> for Refusal {
    ghost from_gives = { λ fault e. e ≡ refusal_of fault };

    fn from(fault: AddFault) -> Refusal {
        match fault {
            AddFault::LeftNumbers => Refusal::Leaves(Leaving::Number),
            AddFault::LeftString => Refusal::Leaves(Leaving::String),
            AddFault::OutOfMemory => Refusal::OutOfMemory,
        }
    }
}
