//! The record of a `catch`.

ghost use Rattle.std.specs.Prelude.{◌≡◌, ◌<◌, length, IfOk, OnOk};
ghost use Rattle.origin_labels.specs.Stores.{IsKept};
ghost use Rattle.js_values.specs.Readings.{read_value};
ghost use Rattle.flow_meaning.specs.Tracked.{with_name};
ghost use Rattle.run_state.specs.Worlds.{Belongs, Grows};
ghost use Rattle.function_entry.specs.Changing.{Changes};

use flow_text::{OutOfMemory, Text};
use js_values::{EnvId, Labelled};
use origin_labels::Labels;
use run_state::World;
use std::alloc::Global;

/// Makes a record with one name, for a `catch` (ECMA-262 12.14). The value depends on the present context besides.
pub fn bind_name<T: Copy, L: Labels<Label = T>>(
    alloc: Global,
    labels: &mut L,
    world: &mut World<T>,
    place: EnvId,
    name: &Text,
    value: Labelled<T>,
) -> Result<EnvId, OutOfMemory>
    requires value { L.made labels.old value.label }
    requires belongs { Belongs L.made L.meaning labels.old world.old }
    ensures binds { OnOk result (Changes L.made L.meaning labels.new (λ reading. with_name place.0 name.now (read_value reading value)) world.old world.new) }
    ensures number { IfOk result (λ e. e.0 ≡ length world.old.records) }
    ensures there { IfOk result (λ e. e.0 < length world.new.records) }
    ensures frames { world.new.frames ≡ world.old.frames }
    ensures positions { world.new.positions ≡ world.old.positions }
    ensures belongs { Belongs L.made L.meaning labels.new world.new }
    ensures grows { Grows world.old world.new }
    ensures kept { IsKept L.made L.meaning L.room L.firm labels.old labels.new }
{
    if place.0 >= world.records.len() {
        return Err(OutOfMemory);
    }
    let name = name.copy(alloc)?;
    let context = world.frames.context(labels);
    let label = labels.join(value.label, context)?;
    let value = Labelled {
        value: value.value,
        label,
    };
    let e = world.records.new_record(Some(place))?;
    world.records.bind(e, name, true, value)?;
    Ok(e)
}
