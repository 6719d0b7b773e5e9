//! The laws of the set, as functions that do nothing.

ghost use Rattle.std.specs.Prelude.{◌≡◌, ◌<◌, ℕ, Bool, true, List, ◌∷◌, ◌++◌, length};
ghost use Rattle.std.specs.List.Sorted.{IsPermutation};
ghost use Rattle.native_protocol.specs.declared.request.Answer.{Answer};
ghost use Rattle.native_protocol.specs.declared.request.Answer.TheVariants as answer;
ghost use Rattle.native_protocol.specs.Running.{behind};
ghost use Rattle.es_meaning.specs.BuiltIns.{begins_in, built_ins_of, in_set};
ghost use Rattle.es_meaning.specs.Holders.{are_lawful, built_heap};
ghost use Rattle.channels.specs.Entries.{channel_entries};
ghost use Rattle.object_natives.specs.Table as objects;
ghost use Rattle.array_natives.specs.Table as arrays;
ghost use Rattle.function_natives.specs.Table as functions;
ghost use Rattle.string_natives.specs.Table as texts;
ghost use Rattle.all_natives.specs.Names.{names_found, names_wanted};
ghost use Rattle.all_natives.specs.Together.{all_entries, all_begin, all_after, all_asks, all_steps};

use crate::natives::AllNatives;
use native_protocol::Natives;

/// Each of the built-ins asks for what its clause says, whatever it is answered: for all names of origins, any number of arguments, calls and constructions.
pub fn follows()
    ensures machine { (names : List (List ℕ)) (which argc : ℕ) (construct : Bool) (answers : List Answer) → which < length all_entries → ⟦<AllNatives as Natives>⟧.asks names (behind (⟦<AllNatives as Natives>⟧.after names) (⟦<AllNatives as Natives>⟧.begin names which argc construct) (answer.Begin ∷ answers)) ≡ all_steps names which argc construct answers }
    ensures set { (names : List (List ℕ)) (which argc : ℕ) (construct : Bool) (answers : List Answer) → which < length all_entries → begins_in (built_ins_of all_entries all_begin (all_after names) all_asks) (in_set which) argc construct answers ≡ all_steps names which argc construct answers }
{}

/// Each has its holder when it is made, and no name twice; none is missing; and the names of each holder stand in the order in which the
/// standard's built-ins are listed.
pub fn in_order()
    ensures lawful { are_lawful all_entries ≡ true }
    ensures whole { IsPermutation all_entries (channel_entries ++ (objects.entries ++ (arrays.entries ++ (functions.entries ++ texts.entries)))) }
    ensures names { names_found (built_heap all_entries) ≡ names_wanted }
{}
