//! References with which work waits: what it keeps of them.

ghost use Rattle.std.specs.Prelude.{◌≡◌, ◌++◌, [], length, map, IfOk, OnOk};
ghost use Rattle.std.specs.List.{All};
ghost use Rattle.origin_labels.specs.Label.{Label};
ghost use Rattle.js_values.specs.Readings.{HasValue, IsReading, read_value};
ghost use Rattle.continuations.specs.Pending.{owns_target};
ghost use Rattle.continuations.specs.Shapes.{target_of, walk_to};
ghost use Rattle.step_objects.specs.References.{refers, HasReference};
ghost use Rattle.step_references.specs.Keeping.{laid_for, owns_walk, target_for, walk_laid};

use continuations::{Stack, Target};
use flow_text::OutOfMemory;
use js_number::Primitive;
use js_values::{Labelled, Value};
use origin_labels::Labels;
use run_state::{Named, Place};
use step_objects::Reference;

/// Lays what work keeps of a reference above the values that no work keeps yet.
#[inline(always)]
pub(crate) fn lay_reference<'p, T: Copy>(
    stack: &mut Stack<'p, T>,
    reference: Reference<'p, T>,
) -> Result<Target<'p>, OutOfMemory>
    ensures tasks { stack.new.tasks ≡ stack.old.tasks }
    ensures target { IfOk result (λ t. t ≡ target_for reference.entry) }
    ensures laid { OnOk result (stack.new.loose ≡ stack.old.loose ++ laid_for reference.entry) }
{
    match reference {
        Reference::Name(named) => {
            lay_walk(stack, named.place, named.walk)?;
            Ok(Target::Name(named.name, named.place))
        }
        Reference::Property(base, key) => {
            stack.lay(base)?;
            stack.lay(key)?;
            Ok(Target::Property)
        }
    }
}

/// Lays the label of the walk to a name that stands nowhere.
#[inline(always)]
fn lay_walk<T: Copy>(stack: &mut Stack<'_, T>, place: Place, walk: T) -> Result<(), OutOfMemory>
    ensures tasks { stack.new.tasks ≡ stack.old.tasks }
    ensures laid { OnOk result (stack.new.loose ≡ stack.old.loose ++ walk_laid place walk) }
{
    match place {
        Place::Nowhere => {
            stack.lay(Labelled {
                value: Value::Primitive(Primitive::Undefined),
                label: walk,
            })?;
            Ok(())
        }
        Place::Record(_) | Place::Global => Ok(()),
    }
}

/// Takes the reference back with which work waited.
#[inline(always)]
pub fn take_reference<'p, L: Labels>(
    labels: &L,
    stack: &mut Stack<'p, L::Label>,
    target: Target<'p>,
) -> Reference<'p, L::Label>
    requires loose { length stack.old.loose ≡ owns_target target }
    requires made { All (HasValue (L.made labels.now)) stack.old.loose }
    ensures tasks { stack.new.tasks ≡ stack.old.tasks }
    ensures none { stack.new.loose ≡ [] }
    ensures reference { HasReference (L.made labels.now) result }
    ensures refers { (reading : L.Label → Label) → IsReading L.made L.meaning labels.now reading → refers reading result ≡ target_of target.entry (map (read_value reading) stack.old.loose) }
{
    match target {
        Target::Name(name, place) => {
            let walk = take_walk(labels, stack, place);
            Reference::Name(Named { name, place, walk })
        }
        Target::Property => {
            let key = stack.pop();
            let base = stack.pop();
            Reference::Property(base, key)
        }
    }
}

/// The label of the walk to a name. Of one that stands an assignment doesn't ask for it, and none was kept.
#[inline(always)]
fn take_walk<L: Labels>(labels: &L, stack: &mut Stack<'_, L::Label>, place: Place) -> L::Label
    requires loose { length stack.old.loose ≡ owns_walk place }
    requires made { All (HasValue (L.made labels.now)) stack.old.loose }
    ensures tasks { stack.new.tasks ≡ stack.old.tasks }
    ensures none { stack.new.loose ≡ [] }
    ensures made { L.made labels.now result }
    ensures walk { (reading : L.Label → Label) → IsReading L.made L.meaning labels.now reading → reading result ≡ walk_to place (map (read_value reading) stack.old.loose) }
{
    match place {
        Place::Nowhere => stack.pop().label,
        Place::Record(_) | Place::Global => labels.bottom(),
    }
}
