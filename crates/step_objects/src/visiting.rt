//! Whether a key that a `for in` took is still there.

ghost use Rattle.std.specs.Prelude.{◌≡◌, length, IfOk};
ghost use Rattle.origin_labels.specs.Label.{Label};
ghost use Rattle.origin_labels.specs.Stores.{IsKept};
ghost use Rattle.flow_policy.specs.Policies.{Tables};
ghost use Rattle.flow_policy.specs.Inputs.{Given};
ghost use Rattle.js_values.specs.Readings.{IsReading, read_value};
ghost use Rattle.es_meaning.specs.Outcomes.{Goes};
ghost use Rattle.es_meaning.specs.Plain.{key_text};
ghost use Rattle.flow_meaning.specs.Scopes.{LabelledLine, raise};
ghost use Rattle.run_state.specs.Acts.{Acts, HasAnswer};
ghost use Rattle.run_state.specs.Worlds.{Belongs, Grows, state_of};
ghost use Rattle.step_objects.specs.Taking.{Raises, still};

use crate::asking::has_key;
use crate::parts::text_of_key;
use flow_frames::FlowFault;
use flow_text::OutOfMemory;
use js_number::Primitive;
use js_values::{Labelled, Value};
use origin_labels::Labels;
use run_state::{Outcome, World};
use std::alloc::Global;
use step_values::truth;

/// Whether an object or a prototype of it still has a key. The answer raises the innermost frame, the loop's, by its label.
pub fn still_has<T: Copy, L: Labels<Label = T>>(
    alloc: Global,
    labels: &mut L,
    world: &mut World<T>,
    object: &Labelled<T>,
    key: &Value,
) -> Result<Outcome<bool, T>, FlowFault<T>>
    requires object { L.made labels.old object.now.label }
    requires belongs { Belongs L.made L.meaning labels.old world.old }
    ensures acts { (tables : Tables) (inputs : Given) → Acts L.made L.meaning labels.new (λ reading b. b) (λ reading. still tables inputs (read_value reading object.now) (key_text key.now)) world.old world.new result }
    ensures made { HasAnswer (λ b. Unit {0}) (L.made labels.new) result }
    ensures frames { length world.new.frames.frames ≡ length world.old.frames.frames }
    ensures belongs { Belongs L.made L.meaning labels.new world.new }
    ensures grows { Grows world.old world.new }
    ensures kept { IsKept L.made L.meaning L.room L.firm labels.old labels.new }
{
    let text = text_of_key(alloc, key.copy(alloc)?)?;
    let key = Labelled {
        value: Value::Primitive(Primitive::Str(text)),
        label: labels.bottom(),
    };
    let object = object.copy(alloc)?;
    let answer = has_key(alloc, labels, world, key, object)?;
    match answer {
        Outcome::Goes(has) => {
            raise(labels, world, has.label)?;
            Ok(Outcome::Goes(truth(&has.value)))
        }
        Outcome::Throws(error) => Ok(Outcome::Throws(error)),
        Outcome::Leaves(why) => Ok(Outcome::Leaves(why)),
    }
}

/// Raises the innermost frame by a label.
fn raise<T: Copy, L: Labels<Label = T>>(
    labels: &mut L,
    world: &mut World<T>,
    label: T,
) -> Result<(), OutOfMemory>
    requires label { L.made labels.old label }
    requires belongs { Belongs L.made L.meaning labels.old world.old }
    ensures raises { IfOk result (λ _. Raises L.made L.meaning labels.new label world.old world.new) }
    ensures frames { length world.new.frames.frames ≡ length world.old.frames.frames }
    ensures belongs { Belongs L.made L.meaning labels.new world.new }
    ensures grows { Grows world.old world.new }
    ensures kept { IsKept L.made L.meaning L.room L.firm labels.old labels.new }
{
    let result = world.frames.raise_last(labels, label);
    let _depth = world.frames.len();
    result
}
