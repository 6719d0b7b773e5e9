//! References: a name that is resolved, or a property of a base (ECMA-262 8.7).

ghost use Rattle.std.specs.Prelude.{◌≡◌};
ghost use Rattle.origin_labels.specs.Stores.{IsKept};
ghost use Rattle.js_values.specs.Readings.{HasValue, read_value};
ghost use Rattle.flow_meaning.specs.Tracked.{accessed, accessed_for_typeof, put_value, remove};
ghost use Rattle.run_state.specs.Accesses.{HasAccess, HasPutting, read_access, read_putting};
ghost use Rattle.run_state.specs.Acts.{Acts, HasAnswer};
ghost use Rattle.run_state.specs.Worlds.{Belongs, Grows};
ghost use Rattle.step_objects.specs.References.{refers, HasReference};

use crate::deleting::remove_property;
use flow_frames::FlowFault;
use js_values::Labelled;
use native_protocol::ErrorKind;
use origin_labels::Labels;
use property_access::{get_name, get_property, put_name, put_property, throw_error, typeof_name};
use run_state::{Access, Named, Outcome, Putting, World};
use std::alloc::Global;

/// A name that is resolved, or a base and a key, of which the key is a primitive value.
#[derive(Drop)]
pub enum Reference<'p, T> {
    Name(Named<'p, T>),
    Property(Labelled<T>, Labelled<T>),
}

/// A resolved name once more.
fn copied<'p, T: Copy>(named: &Named<'p, T>) -> Named<'p, T>
    ensures { result ≡ named.now }
{
    Named {
        name: named.name,
        place: named.place,
        walk: named.walk,
    }
}

/// What a reference comes to (ECMA-262 8.7.1).
pub fn get_value<L: Labels>(
    alloc: Global,
    labels: &mut L,
    world: &mut World<L::Label>,
    reference: &Reference<'_, L::Label>,
) -> Result<Outcome<Access<L::Label>, L::Label>, FlowFault<L::Label>>
    requires reference { HasReference (L.made labels.old) reference.now }
    requires belongs { Belongs L.made L.meaning labels.old world.old }
    ensures acts { Acts L.made L.meaning labels.new (λ reading. read_access reading) (λ reading. accessed (refers reading reference.now)) world.old world.new result }
    ensures made { HasAnswer (HasAccess (L.made labels.new)) (L.made labels.new) result }
    ensures belongs { Belongs L.made L.meaning labels.new world.new }
    ensures grows { Grows world.old world.new }
    ensures kept { IsKept L.made L.meaning L.room L.firm labels.old labels.new }
{
    match reference {
        Reference::Name(named) => get_name(alloc, labels, world, copied(named)),
        Reference::Property(base, key) => get_property(alloc, labels, world, base, key),
    }
}

/// What a reference comes to for `typeof` (ECMA-262 11.4.3): a name without a binding is undefined.
pub fn typeof_value<L: Labels>(
    alloc: Global,
    labels: &mut L,
    world: &mut World<L::Label>,
    reference: &Reference<'_, L::Label>,
) -> Result<Outcome<Access<L::Label>, L::Label>, FlowFault<L::Label>>
    requires reference { HasReference (L.made labels.old) reference.now }
    requires belongs { Belongs L.made L.meaning labels.old world.old }
    ensures acts { Acts L.made L.meaning labels.new (λ reading. read_access reading) (λ reading. accessed_for_typeof (refers reading reference.now)) world.old world.new result }
    ensures made { HasAnswer (HasAccess (L.made labels.new)) (L.made labels.new) result }
    ensures belongs { Belongs L.made L.meaning labels.new world.new }
    ensures grows { Grows world.old world.new }
    ensures kept { IsKept L.made L.meaning L.room L.firm labels.old labels.new }
{
    match reference {
        Reference::Name(named) => typeof_name(alloc, labels, world, copied(named)),
        Reference::Property(base, key) => get_property(alloc, labels, world, base, key),
    }
}

/// Gives a reference a value (ECMA-262 8.7.2), by rule W1 for a name and W2 or W3 for a property, or comes to a setter.
pub fn put_value<L: Labels>(
    alloc: Global,
    labels: &mut L,
    world: &mut World<L::Label>,
    reference: &Reference<'_, L::Label>,
    value: Labelled<L::Label>,
) -> Result<Outcome<Putting<L::Label>, L::Label>, FlowFault<L::Label>>
    requires reference { HasReference (L.made labels.old) reference.now }
    requires value { L.made labels.old value.label }
    requires belongs { Belongs L.made L.meaning labels.old world.old }
    ensures acts { Acts L.made L.meaning labels.new (λ reading. read_putting reading) (λ reading. put_value (refers reading reference.now) (read_value reading value)) world.old world.new result }
    ensures made { HasAnswer (HasPutting (L.made labels.new)) (L.made labels.new) result }
    ensures belongs { Belongs L.made L.meaning labels.new world.new }
    ensures grows { Grows world.old world.new }
    ensures kept { IsKept L.made L.meaning L.room L.firm labels.old labels.new }
{
    match reference {
        Reference::Name(named) => put_name(alloc, labels, world, copied(named), value),
        Reference::Property(base, key) => put_property(alloc, labels, world, base, key, value),
    }
}

/// Deletes a property (ECMA-262 11.4.1), by rules W4 and W5. Strict code deletes no name: a script that says so is refused.
pub fn remove<L: Labels>(
    alloc: Global,
    labels: &mut L,
    world: &mut World<L::Label>,
    reference: &Reference<'_, L::Label>,
) -> Result<Outcome<Labelled<L::Label>, L::Label>, FlowFault<L::Label>>
    requires reference { HasReference (L.made labels.old) reference.now }
    requires belongs { Belongs L.made L.meaning labels.old world.old }
    ensures acts { Acts L.made L.meaning labels.new (λ reading. read_value reading) (λ reading. remove (refers reading reference.now)) world.old world.new result }
    ensures made { HasAnswer (HasValue (L.made labels.new)) (L.made labels.new) result }
    ensures belongs { Belongs L.made L.meaning labels.new world.new }
    ensures grows { Grows world.old world.new }
    ensures kept { IsKept L.made L.meaning L.room L.firm labels.old labels.new }
{
    match reference {
        Reference::Name(_) => {
            let none = labels.bottom();
            throw_error(labels, world, ErrorKind::SyntaxError, none)
        }
        Reference::Property(base, key) => remove_property(alloc, labels, world, base, key),
    }
}
