//! Properties behind their base and their key (ECMA-262 11.2.1).

ghost use Rattle.std.specs.Prelude.{◌≡◌, ◌+◌, false, length, map, Ok, IfErr, IfOk};
ghost use Rattle.std.specs.List.{All};
ghost use Rattle.origin_labels.specs.Stores.{IsKept};
ghost use Rattle.flow_frames.specs.Stops.{IfStop};
ghost use Rattle.js_values.specs.Readings.{HasValue, read_value};
ghost use Rattle.es_meaning.specs.Evaluation.{index_key, with_base};
ghost use Rattle.es_meaning.specs.Operators.{is_object};
ghost use Rattle.flow_meaning.specs.Planned.{planned, asking};
ghost use Rattle.run_state.specs.Worlds.{Belongs, Grows};
ghost use Rattle.continuations.specs.declared.continuation.Continuation.TheVariants as continuation;
ghost use Rattle.continuations.specs.Pending.{owns_use};
ghost use Rattle.continuations.specs.Settings.{entrance};
ghost use Rattle.continuations.specs.Shapes.{use_of};
ghost use Rattle.continuations.specs.Stops.{HasStop};
ghost use Rattle.step_references.specs.Moving.{Begun, Moved, Resumed};

use crate::handing_on::{Went, go_on};
use crate::uses::{use_keyed, use_reference};
use continuations::{Continuation, Control, Stack, Use};
use flow_frames::FlowFault;
use flow_text::{OutOfMemory, Text};
use js_number::Primitive;
use js_values::{Labelled, Value};
use native_protocol::Hint;
use origin_labels::Labels;
use run_state::World;
use std::alloc::Global;
use step_objects::{Reference, base_needed};
use step_values::is_object;

/// The value is the base of the property with this name.
pub fn member<'p, L: Labels>(
    alloc: Global,
    labels: &mut L,
    world: &mut World<L::Label>,
    stack: &mut Stack<'p, L::Label>,
    how: Use<'p>,
    name: &'p Text,
) -> Result<Control<'p>, FlowFault<L::Label>>
    requires loose { length stack.old.loose ≡ owns_use how + 1 }
    requires made { All (HasValue (L.made labels.old)) stack.old.loose }
    requires belongs { Belongs L.made L.meaning labels.old world.old }
    ensures goes_on { Resumed L.made L.meaning labels.new (continuation.MemberBase how.entry name.entry) stack.old stack.new world.old world.new result }
    ensures moved { IfOk result (Moved (L.made labels.new) 16 stack.old stack.new world.old world.new) }
    ensures stopped { IfErr result (IfStop (HasStop (L.made labels.new))) }
    ensures belongs { Belongs L.made L.meaning labels.new world.new }
    ensures grows { Grows world.old world.new }
    ensures kept { IsKept L.made L.meaning L.room L.firm labels.old labels.new }
{
    let base = stack.pop();
    let text = name.copy(alloc)?;
    let key = Labelled {
        value: Value::Primitive(Primitive::Str(text)),
        label: labels.bottom(),
    };
    use_member(alloc, labels, world, stack, how, base, key)
}

/// The value is the key of a property, whose base lies below.
pub fn index_key<'p, L: Labels>(
    alloc: Global,
    labels: &mut L,
    world: &mut World<L::Label>,
    stack: &mut Stack<'p, L::Label>,
    how: Use<'p>,
) -> Result<Control<'p>, FlowFault<L::Label>>
    requires loose { length stack.old.loose ≡ owns_use how + 2 }
    requires made { All (HasValue (L.made labels.old)) stack.old.loose }
    requires belongs { Belongs L.made L.meaning labels.old world.old }
    ensures goes_on { Resumed L.made L.meaning labels.new (continuation.IndexKey how.entry) stack.old stack.new world.old world.new result }
    ensures moved { IfOk result (Moved (L.made labels.new) 18 stack.old stack.new world.old world.new) }
    ensures stopped { IfErr result (IfStop (HasStop (L.made labels.new))) }
    ensures belongs { Belongs L.made L.meaning labels.new world.new }
    ensures grows { Grows world.old world.new }
    ensures kept { IsKept L.made L.meaning L.room L.firm labels.old labels.new }
{
    let key = stack.pop();
    let base = stack.pop();
    use_property(alloc, labels, world, stack, how, base, key)
}

/// The value is the key of a property, converted. The base lies below.
pub fn key_of<'p, L: Labels>(
    alloc: Global,
    labels: &mut L,
    world: &mut World<L::Label>,
    stack: &mut Stack<'p, L::Label>,
    how: Use<'p>,
) -> Result<Control<'p>, FlowFault<L::Label>>
    requires loose { length stack.old.loose ≡ owns_use how + 2 }
    requires made { All (HasValue (L.made labels.old)) stack.old.loose }
    requires belongs { Belongs L.made L.meaning labels.old world.old }
    ensures goes_on { Resumed L.made L.meaning labels.new (continuation.KeyOf how.entry) stack.old stack.new world.old world.new result }
    ensures moved { IfOk result (Moved (L.made labels.new) 16 stack.old stack.new world.old world.new) }
    ensures stopped { IfErr result (IfStop (HasStop (L.made labels.new))) }
    ensures belongs { Belongs L.made L.meaning labels.new world.new }
    ensures grows { Grows world.old world.new }
    ensures kept { IsKept L.made L.meaning L.room L.firm labels.old labels.new }
{
    let key = stack.pop();
    let base = stack.pop();
    let reference = Reference::Property(base, key);
    use_reference(alloc, labels, world, stack, how, reference)
}

/// What is done with a property of a base, which must be able to have properties.
fn use_property<'p, L: Labels>(
    alloc: Global,
    labels: &mut L,
    world: &mut World<L::Label>,
    stack: &mut Stack<'p, L::Label>,
    how: Use<'p>,
    base: Labelled<L::Label>,
    key: Labelled<L::Label>,
) -> Result<Control<'p>, FlowFault<L::Label>>
    requires loose { length stack.old.loose ≡ owns_use how }
    requires made { All (HasValue (L.made labels.old)) stack.old.loose }
    requires base { L.made labels.old base.label }
    requires key { L.made labels.old key.label }
    requires belongs { Belongs L.made L.meaning labels.old world.old }
    ensures goes_on { Begun L.made L.meaning labels.new (λ tables inputs set functions reading e. index_key (planned tables inputs set functions) (entrance tables inputs set functions) (asking tables inputs set functions) (use_of how.entry (map (read_value reading) stack.old.loose)) e.env.place (read_value reading base) (read_value reading key)) stack.old stack.new world.old world.new result }
    ensures moved { IfOk result (Moved (L.made labels.new) 18 stack.old stack.new world.old world.new) }
    ensures stopped { IfErr result (IfStop (HasStop (L.made labels.new))) }
    ensures belongs { Belongs L.made L.meaning labels.new world.new }
    ensures grows { Grows world.old world.new }
    ensures kept { IsKept L.made L.meaning L.room L.firm labels.old labels.new }
{
    let answer = base_needed(labels, world, base);
    let came = go_on(labels, stack, how.owns(), answer)?;
    match came {
        Went::On(base) => use_key(alloc, labels, world, stack, how, base, key),
        Went::Off(next) => Ok(next),
    }
}

/// The same with a key that is a primitive value, which isn't converted.
fn use_member<'p, L: Labels>(
    alloc: Global,
    labels: &mut L,
    world: &mut World<L::Label>,
    stack: &mut Stack<'p, L::Label>,
    how: Use<'p>,
    base: Labelled<L::Label>,
    key: Labelled<L::Label>,
) -> Result<Control<'p>, FlowFault<L::Label>>
    requires loose { length stack.old.loose ≡ owns_use how }
    requires made { All (HasValue (L.made labels.old)) stack.old.loose }
    requires base { L.made labels.old base.label }
    requires key { L.made labels.old key.label }
    requires primitive { is_object key.value ≡ false }
    requires belongs { Belongs L.made L.meaning labels.old world.old }
    ensures goes_on { Begun L.made L.meaning labels.new (λ tables inputs set functions reading e. index_key (planned tables inputs set functions) (entrance tables inputs set functions) (asking tables inputs set functions) (use_of how.entry (map (read_value reading) stack.old.loose)) e.env.place (read_value reading base) (read_value reading key)) stack.old stack.new world.old world.new result }
    ensures moved { IfOk result (Moved (L.made labels.new) 16 stack.old stack.new world.old world.new) }
    ensures stopped { IfErr result (IfStop (HasStop (L.made labels.new))) }
    ensures belongs { Belongs L.made L.meaning labels.new world.new }
    ensures grows { Grows world.old world.new }
    ensures kept { IsKept L.made L.meaning L.room L.firm labels.old labels.new }
{
    let answer = base_needed(labels, world, base);
    let came = go_on(labels, stack, how.owns(), answer)?;
    match came {
        Went::On(base) => {
            let reference = Reference::Property(base, key);
            use_keyed(alloc, labels, world, stack, how, reference)
        }
        Went::Off(next) => Ok(next),
    }
}

/// A key that is an object is converted first.
fn use_key<'p, L: Labels>(
    alloc: Global,
    labels: &mut L,
    world: &mut World<L::Label>,
    stack: &mut Stack<'p, L::Label>,
    how: Use<'p>,
    base: Labelled<L::Label>,
    key: Labelled<L::Label>,
) -> Result<Control<'p>, FlowFault<L::Label>>
    requires loose { length stack.old.loose ≡ owns_use how }
    requires made { All (HasValue (L.made labels.old)) stack.old.loose }
    requires base { L.made labels.old base.label }
    requires key { L.made labels.old key.label }
    requires belongs { Belongs L.made L.meaning labels.old world.old }
    ensures goes_on { Begun L.made L.meaning labels.new (λ tables inputs set functions reading e. with_base (planned tables inputs set functions) (entrance tables inputs set functions) (asking tables inputs set functions) (use_of how.entry (map (read_value reading) stack.old.loose)) e.env.place (read_value reading key) (read_value reading base)) stack.old stack.new world.old world.new result }
    ensures moved { IfOk result (Moved (L.made labels.new) 18 stack.old stack.new world.old world.new) }
    ensures stopped { IfErr result (IfStop (HasStop (L.made labels.new))) }
    ensures belongs { Belongs L.made L.meaning labels.new world.new }
    ensures grows { Grows world.old world.new }
    ensures kept { IsKept L.made L.meaning L.room L.firm labels.old labels.new }
{
    if is_object(&key.value) {
        let next = convert_key(labels, world, stack, how, base, key)?;
        Ok(next)
    } else {
        let reference = Reference::Property(base, key);
        use_keyed(alloc, labels, world, stack, how, reference)
    }
}

/// A key is converted, and the base waits.
fn convert_key<'p, L: Labels>(
    labels: &L,
    world: &World<L::Label>,
    stack: &mut Stack<'p, L::Label>,
    how: Use<'p>,
    base: Labelled<L::Label>,
    key: Labelled<L::Label>,
) -> Result<Control<'p>, OutOfMemory>
    requires loose { length stack.old.loose ≡ owns_use how }
    requires made { All (HasValue (L.made labels.now)) stack.old.loose }
    requires base { L.made labels.now base.label }
    requires key { L.made labels.now key.label }
    ensures goes_on { IfOk result (λ next. Begun L.made L.meaning labels.now (λ tables inputs set functions reading e. with_base (planned tables inputs set functions) (entrance tables inputs set functions) (asking tables inputs set functions) (use_of how.entry (map (read_value reading) stack.old.loose)) e.env.place (read_value reading key) (read_value reading base)) stack.old stack.new world.now world.now (Ok next)) }
    ensures moved { IfOk result (Moved (L.made labels.now) 18 stack.old stack.new world.now world.now) }
{
    stack.lay(base)?;
    stack.push(Continuation::KeyOf(how))?;
    stack.lay(key)?;
    Ok(Control::Convert(Hint::String))
}
