//! The law of the set, as a function that does nothing.

ghost use Rattle.std.specs.Prelude.{◌≡◌, ◌<◌, ℕ, Bool, List, ◌∷◌, length};
ghost use Rattle.native_protocol.specs.declared.request.Answer.{Answer};
ghost use Rattle.native_protocol.specs.declared.request.Answer.TheVariants as answer;
ghost use Rattle.native_protocol.specs.Running.{behind};
ghost use Rattle.function_natives.specs.Table.{entries, steps};

use crate::natives::FunctionNatives;
use native_protocol::Natives;

/// Each of the built-ins asks for what its clause says, whatever it is answered: with any number of arguments, in calls and constructions.
pub fn follows()
    ensures { (which argc : ℕ) (construct : Bool) (answers : List Answer) → which < length entries → ⟦<FunctionNatives as Natives>⟧.asks tt (behind (⟦<FunctionNatives as Natives>⟧.after tt) (⟦<FunctionNatives as Natives>⟧.begin tt which argc construct) (answer.Begin ∷ answers)) ≡ steps which argc construct answers }
{}
