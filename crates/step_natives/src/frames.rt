//! The frames in which what is called stands.

ghost use Rattle.std.specs.Prelude.{◌≡◌, ◌≤◌, ◌∷◌, List, length, OnOk, IfOk};
ghost use Rattle.std.specs.Prelude.{ℕ};
ghost use Rattle.origin_labels.specs.Label.{Label};
ghost use Rattle.origin_labels.specs.Stores.{IsKept};
ghost use Rattle.js_values.specs.Readings.{IsReading};
ghost use Rattle.flow_meaning.specs.Scopes.{LabelledLine, pushed_on};
ghost use Rattle.run_state.specs.Worlds.{Grows, state_of};
ghost use Rattle.continuations.specs.declared.continuation.Control.TheVariants as control;
ghost use Rattle.continuations.specs.Kept.{scopes_of, waiting};
ghost use Rattle.continuations.specs.Invariant.{Invariant};
ghost use Rattle.step_natives.specs.Framed.{Begun, Leads};

use continuations::Stack;
use flow_frames::Kind;
use flow_text::OutOfMemory;
use js_values::Labelled;
use origin_labels::Labels;
use run_state::World;

/// Enters a frame that depends on what is called, and gives its depth. The work that ends it is still to be pushed.
pub fn enter_frame<L: Labels>(
    labels: &mut L,
    world: &mut World<L::Label>,
    stack: &Stack<'_, L::Label>,
    kind: Kind,
    _count: usize,
    label: L::Label,
) -> Result<usize, OutOfMemory>
    requires label { L.made labels.old label }
    requires standing { Invariant L.made L.meaning labels.old stack.now world.old _count (scopes_of stack.now.tasks) (waiting stack.now.tasks) control.Value }
    ensures depth { IfOk result (λ depth. depth ≡ length world.old.frames.frames) }
    ensures begun { IfOk result (λ depth. Begun L.made L.meaning labels.new kind stack.now world.new _count depth label) }
    ensures entered { OnOk result ((reading : L.Label → Label) → IsReading L.made L.meaning labels.new reading → (told : List LabelledLine) (turns : ℕ) → state_of reading world.new told turns ≡ pushed_on kind (reading label) (state_of reading world.old told turns)) }
    ensures heap { world.new.heap ≡ world.old.heap }
    ensures grows { Grows world.old world.new }
    ensures kept { IsKept L.made L.meaning L.room L.firm labels.old labels.new }
{
    let _stack = stack;
    let depth = world.frames.len();
    world.frames.push(labels, kind, label)?;
    let _count = world.frames.len();
    Ok(depth)
}

/// The value that lies undermost of those that no work keeps.
pub fn leading<'s, T: Copy>(stack: &'s Stack<'_, T>, count: usize) -> &'s Labelled<T>
    requires count { count ≡ length stack.now.loose }
    requires enough { 1 ≤ count }
    ensures { Leads stack.now.loose result.now }
{
    &stack.loose(count)[0]
}
