//! The laws of the set, as functions that do nothing.

ghost use Rattle.std.specs.Prelude.{◌≡◌, ◌<◌, ℕ, Bool, List, ◌∷◌, length};
ghost use Rattle.native_protocol.specs.declared.request.Answer.{Answer};
ghost use Rattle.native_protocol.specs.declared.request.Answer.TheVariants as answer;
ghost use Rattle.native_protocol.specs.Running.{behind};
ghost use Rattle.string_natives.specs.Table.{entries, steps};
ghost use Rattle.string_natives.specs.Texts.{joined_by, pieces};

use crate::natives::StringNatives;
use native_protocol::Natives;

/// Each of the built-ins asks for what its clause says, whatever it is answered: with any number of arguments, in calls and constructions.
pub fn follows()
    ensures { (which argc : ℕ) (construct : Bool) (answers : List Answer) → which < length entries → ⟦<StringNatives as Natives>⟧.asks tt (behind (⟦<StringNatives as Natives>⟧.after tt) (⟦<StringNatives as Natives>⟧.begin tt which argc construct) (answer.Begin ∷ answers)) ≡ steps which argc construct answers }
{}

/// The pieces that `split` makes, with the separator between them, are the text.
pub fn pieces_join()
    ensures { (separator units : List ℕ) → joined_by separator (pieces separator units) ≡ units }
{}
