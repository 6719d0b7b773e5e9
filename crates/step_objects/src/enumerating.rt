//! The keys that `for in` takes.

ghost use Rattle.std.specs.Prelude.{◌≡◌, [], IfOk};
ghost use Rattle.origin_labels.specs.Label.{bottom};
ghost use Rattle.origin_labels.specs.Stores.{IsKept};
ghost use Rattle.js_values.specs.Readings.{read_value};
ghost use Rattle.prototype_walk.specs.Answers.{IsKeyList};
ghost use Rattle.run_state.specs.Acts.{Acts, HasAnswer};
ghost use Rattle.run_state.specs.Worlds.{Belongs, Grows};
ghost use Rattle.step_objects.specs.Taking.{taken, IsListed, AreHandedOn};

use crate::needing::is_coercible;
use crate::parts::join;
use flow_frames::FlowFault;
use flow_text::OutOfMemory;
use js_values::{KeyRow, Labelled, ObjId, Value};
use origin_labels::Labels;
use prototype_walk::{KeyList, keys};
use run_state::{Leaving, Outcome, World};
use std::alloc::Global;

/// The keys that `for in` takes of a value (ECMA-262 12.6.4), none of undefined and null. They raise the innermost frame, which is the loop's, by the label of the
/// value and by that of the whole enumeration. Other primitive values would be wrapped in objects, and leave the language.
pub fn keys_of<T: Copy, L: Labels<Label = T>>(
    alloc: Global,
    labels: &mut L,
    world: &mut World<T>,
    value: Labelled<T>,
) -> Result<Outcome<KeyRow, T>, FlowFault<T>>
    requires value { L.made labels.old value.label }
    requires belongs { Belongs L.made L.meaning labels.old world.old }
    ensures acts { Acts L.made L.meaning labels.new (λ reading keys. keys) (λ reading. taken (read_value reading value)) world.old world.new result }
    ensures made { HasAnswer (λ keys. Unit {0}) (L.made labels.new) result }
    ensures belongs { Belongs L.made L.meaning labels.new world.new }
    ensures grows { Grows world.old world.new }
    ensures kept { IsKept L.made L.meaning L.room L.firm labels.old labels.new }
{
    let Some(list) = list_keys(alloc, labels, world, &value.value)? else {
        return Ok(Outcome::Leaves(Leaving::Wrapper));
    };
    let label = join(labels, value.label, list.walk)?;
    world.frames.raise_last(labels, label)?;
    let _depth = world.frames.len();
    Ok(Outcome::Goes(list.keys))
}

/// What `for in` does with the keys of a value is done with those that are taken.
pub(crate) fn taking_keys()
    ensures { AreHandedOn }
{}

/// The keys of a value, but of a primitive one that would be wrapped in an object.
fn list_keys<T: Copy, L: Labels<Label = T>>(
    alloc: Global,
    labels: &mut L,
    world: &World<T>,
    value: &Value,
) -> Result<Option<KeyList<T>>, OutOfMemory>
    requires { Belongs L.made L.meaning labels.old world.now }
    ensures listed { IfOk result (IsListed L.made L.meaning labels.new world.now.heap value.now) }
    ensures kept { IsKept L.made L.meaning L.room L.firm labels.old labels.new }
{
    match value {
        Value::Object(o) => {
            let list = keys_along(alloc, labels, world, *o)?;
            Ok(Some(list))
        }
        Value::Primitive(_) if is_coercible(value) => Ok(None),
        Value::Primitive(_) => {
            let list = no_keys(alloc, labels);
            Ok(Some(list))
        }
    }
}

/// The keys of an object and its prototypes. An object that isn't there has none.
fn keys_along<T: Copy, L: Labels<Label = T>>(
    alloc: Global,
    labels: &mut L,
    world: &World<T>,
    o: ObjId,
) -> Result<KeyList<T>, OutOfMemory>
    requires { Belongs L.made L.meaning labels.old world.now }
    ensures keys { IfOk result (IsKeyList L.made L.meaning labels.new world.now.heap o.0) }
    ensures kept { IsKept L.made L.meaning L.room L.firm labels.old labels.new }
{
    if o.0 < world.heap.len() {
        return keys(alloc, &world.heap, labels, o);
    }
    Ok(no_keys(alloc, labels))
}

/// No keys, which depend on nothing.
fn no_keys<T: Copy, L: Labels<Label = T>>(alloc: Global, labels: &L) -> KeyList<T>
    ensures keys { result.keys ≡ [] }
    ensures made { L.made labels.now result.walk }
    ensures meaning { L.meaning labels.now result.walk ≡ bottom }
{
    KeyList {
        keys: KeyRow::new(alloc),
        walk: labels.bottom(),
    }
}
