//! Values that have to be of a kind.

ghost use Rattle.std.specs.Prelude.{◌≡◌, [], ◌∷◌};
ghost use Rattle.origin_labels.specs.Stores.{IsKept};
ghost use Rattle.flow_policy.specs.Policies.{Tables};
ghost use Rattle.flow_policy.specs.Inputs.{Given};
ghost use Rattle.js_values.specs.Readings.{HasValue, read_value};
ghost use Rattle.es_meaning.specs.Operations as operations;
ghost use Rattle.es_meaning.specs.Plain.{is_coercible};
ghost use Rattle.flow_meaning.specs.Tracked.{act, needed};
ghost use Rattle.run_state.specs.Acts.{Acts, HasAnswer};
ghost use Rattle.run_state.specs.Worlds.{Belongs, Grows};

use flow_frames::FlowFault;
use js_number::Primitive;
use js_values::{Labelled, Value};
use native_protocol::ErrorKind;
use origin_labels::Labels;
use property_access::throw_error;
use run_state::{Outcome, World};
use step_values::is_object;

/// The value, if it can have properties (ECMA-262 9.10). Undefined and null throw a TypeError, whose cause is the value's label.
pub fn base_needed<T: Copy, L: Labels<Label = T>>(
    labels: &mut L,
    world: &mut World<T>,
    value: Labelled<T>,
) -> Result<Outcome<Labelled<T>, T>, FlowFault<T>>
    requires value { L.made labels.old value.label }
    requires belongs { Belongs L.made L.meaning labels.old world.old }
    ensures acts { (tables : Tables) (inputs : Given) → Acts L.made L.meaning labels.new (λ reading. read_value reading) (λ reading. act tables inputs operations.base_needed (read_value reading value ∷ [])) world.old world.new result }
    ensures made { HasAnswer (HasValue (L.made labels.new)) (L.made labels.new) result }
    ensures belongs { Belongs L.made L.meaning labels.new world.new }
    ensures grows { Grows world.old world.new }
    ensures kept { IsKept L.made L.meaning L.room L.firm labels.old labels.new }
{
    let holds = is_coercible(&value.value);
    needed(labels, world, holds, value)
}

/// The value, if it is an object (ECMA-262 11.8.7). A primitive one throws a TypeError, whose cause is the value's label.
pub fn object_needed<T: Copy, L: Labels<Label = T>>(
    labels: &mut L,
    world: &mut World<T>,
    value: Labelled<T>,
) -> Result<Outcome<Labelled<T>, T>, FlowFault<T>>
    requires value { L.made labels.old value.label }
    requires belongs { Belongs L.made L.meaning labels.old world.old }
    ensures acts { (tables : Tables) (inputs : Given) → Acts L.made L.meaning labels.new (λ reading. read_value reading) (λ reading. act tables inputs operations.object_needed (read_value reading value ∷ [])) world.old world.new result }
    ensures made { HasAnswer (HasValue (L.made labels.new)) (L.made labels.new) result }
    ensures belongs { Belongs L.made L.meaning labels.new world.new }
    ensures grows { Grows world.old world.new }
    ensures kept { IsKept L.made L.meaning L.room L.firm labels.old labels.new }
{
    let holds = is_object(&value.value);
    needed(labels, world, holds, value)
}

/// The value where the test holds, and else a TypeError for its label.
fn needed<T: Copy, L: Labels<Label = T>>(
    labels: &mut L,
    world: &mut World<T>,
    holds: bool,
    value: Labelled<T>,
) -> Result<Outcome<Labelled<T>, T>, FlowFault<T>>
    requires value { L.made labels.old value.label }
    requires belongs { Belongs L.made L.meaning labels.old world.old }
    ensures acts { Acts L.made L.meaning labels.new (λ reading. read_value reading) (λ reading. needed holds (read_value reading value)) world.old world.new result }
    ensures made { HasAnswer (HasValue (L.made labels.new)) (L.made labels.new) result }
    ensures belongs { Belongs L.made L.meaning labels.new world.new }
    ensures grows { Grows world.old world.new }
    ensures kept { IsKept L.made L.meaning L.room L.firm labels.old labels.new }
{
    if holds {
        return Ok(Outcome::Goes(value));
    }
    throw_error(labels, world, ErrorKind::TypeError, value.label)
}

/// Whether a value can have properties.
pub(crate) fn is_coercible(value: &Value) -> bool
    ensures { result ≡ is_coercible value.now }
{
    match value {
        Value::Primitive(Primitive::Undefined | Primitive::Null) => false,
        _ => true,
    }
}
