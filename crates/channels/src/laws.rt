//! The law of the five, as a function that does nothing.

ghost use Rattle.std.specs.Prelude.{◌≡◌, ℕ, Bool, List, ◌∷◌};
ghost use Rattle.native_protocol.specs.declared.request.Answer.{Answer};
ghost use Rattle.native_protocol.specs.declared.request.Answer.TheVariants as answer;
ghost use Rattle.native_protocol.specs.Running.{behind};
ghost use Rattle.channels.specs.Clauses.{clause};

use crate::natives::ChannelNatives;
use native_protocol::Natives;

/// Each of the five asks for what its clause says, whatever it is answered: for all names of origins, any number of arguments, calls and constructions.
pub fn follows()
    ensures { (names : List (List ℕ)) (which argc : ℕ) (construct : Bool) (answers : List Answer) → ⟦<ChannelNatives as Natives>⟧.asks names (behind (⟦<ChannelNatives as Natives>⟧.after names) (⟦<ChannelNatives as Natives>⟧.begin names which argc construct) (answer.Begin ∷ answers)) ≡ clause names which argc construct answers }
{}
