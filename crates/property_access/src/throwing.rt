//! Errors that the engine throws.

ghost use Rattle.std.specs.Prelude.{◌≡◌, ◌<◌, ℕ, List, length, IfOk};
ghost use Rattle.origin_labels.specs.Label.{Label, bottom};
ghost use Rattle.origin_labels.specs.Stores.{IsKept};
ghost use Rattle.js_values.specs.declared.value.Labelled.{Labelled as LabelledOf};
ghost use Rattle.js_values.specs.Readings.{IsReading};
ghost use Rattle.es_meaning.specs.Operations.{Ty, Res};
ghost use Rattle.es_meaning.specs.Start.{error_prototype};
ghost use Rattle.flow_meaning.specs.Scopes.{Val, LabelledLine, jump};
ghost use Rattle.flow_meaning.specs.Tracked.{throw_error, with_error};
ghost use Rattle.run_state.specs.Acts.{Acts, HasAnswer, thrown};
ghost use Rattle.run_state.specs.Worlds.{Belongs, Grows, state_of};

use flow_frames::FlowFault;
use flow_text::OutOfMemory;
use js_values::{Class, Inner, Labelled, ObjId, Value};
use native_protocol::ErrorKind;
use origin_labels::Labels;
use run_state::{Outcome, World};

/// The prototype of errors of a kind (ECMA-262 15.11.7.7), which a run starts with.
pub fn error_prototype(kind: ErrorKind) -> ObjId
    ensures prototype { result ≡ error_prototype kind }
    ensures started { result.0 < 9 }
{
    match kind {
        ErrorKind::Error => ObjId(2),
        ErrorKind::EvalError => ObjId(3),
        ErrorKind::RangeError => ObjId(4),
        ErrorKind::ReferenceError => ObjId(5),
        ErrorKind::SyntaxError => ObjId(6),
        ErrorKind::TypeError => ObjId(7),
        ErrorKind::UriError => ObjId(8),
    }
}

/// Throws an error of the engine, which is made in the present context, for a cause. Where the flow rule for jumps (W9) stops the run, the error was made all the same.
pub fn throw_error<X, T: Copy, L: Labels<Label = T>>(
    labels: &mut L,
    world: &mut World<T>,
    kind: ErrorKind,
    cause: T,
) -> Result<Outcome<X, T>, FlowFault<T>>
    requires cause { L.made labels.old cause }
    requires belongs { Belongs L.made L.meaning labels.old world.old }
    ensures acts { (t : Ty) (read : (T → Label) → X → Res Val t) → Acts L.made L.meaning labels.new read (λ reading. throw_error kind (reading cause)) world.old world.new result }
    ensures made { HasAnswer (λ x. ⊥) (L.made labels.new) result }
    ensures belongs { Belongs L.made L.meaning labels.new world.new }
    ensures grows { Grows world.old world.new }
    ensures kept { IsKept L.made L.meaning L.room L.firm labels.old labels.new }
{
    let error = make_error(labels, world, kind)?;
    let value = Labelled {
        value: Value::Object(error),
        label: cause,
    };
    throw_value(labels, world, value)
}

/// Throws an error of the engine that depends on nothing but the present context.
pub(crate) fn throw_without_cause<X, T: Copy, L: Labels<Label = T>>(
    labels: &mut L,
    world: &mut World<T>,
    kind: ErrorKind,
) -> Result<Outcome<X, T>, FlowFault<T>>
    requires { Belongs L.made L.meaning labels.old world.old }
    ensures acts { (t : Ty) (read : (T → Label) → X → Res Val t) → Acts L.made L.meaning labels.new read (λ reading. throw_error kind bottom) world.old world.new result }
    ensures made { HasAnswer (λ x. ⊥) (L.made labels.new) result }
    ensures belongs { Belongs L.made L.meaning labels.new world.new }
    ensures grows { Grows world.old world.new }
    ensures kept { IsKept L.made L.meaning L.room L.firm labels.old labels.new }
{
    let none = labels.bottom();
    throw_error(labels, world, kind, none)
}

/// Makes an error of the engine in the present context.
fn make_error<T: Copy, L: Labels<Label = T>>(
    labels: &L,
    world: &mut World<T>,
    kind: ErrorKind,
) -> Result<ObjId, OutOfMemory>
    requires { Belongs L.made L.meaning labels.now world.old }
    ensures acts { IfOk result (λ error. (reading : T → Label) → IsReading L.made L.meaning labels.now reading → (told : List LabelledLine) (turns : ℕ) → state_of reading world.new told turns ≡ with_error kind (state_of reading world.old told turns)) }
    ensures number { IfOk result (λ error. error.0 ≡ length world.old.heap) }
    ensures belongs { Belongs L.made L.meaning labels.now world.new }
    ensures grows { Grows world.old world.new }
{
    let context = world.frames.context(labels);
    let proto = Some(error_prototype(kind));
    let heap = &mut world.heap;
    let error = heap.new_object(Class::Error, proto, context, context, Inner::Plain)?;
    Ok(error)
}

/// Throws a value, by rule W9: the frames inside the one that catches it are left.
fn throw_value<X, T: Copy, L: Labels<Label = T>>(
    labels: &mut L,
    world: &mut World<T>,
    value: Labelled<T>,
) -> Result<Outcome<X, T>, FlowFault<T>>
    requires value { L.made labels.old value.label }
    requires belongs { Belongs L.made L.meaning labels.old world.old }
    ensures acts { (t : Ty) (read : (T → Label) → X → Res Val t) → Acts L.made L.meaning labels.new read (λ reading. jump (reading value.label) (thrown reading value)) world.old world.new result }
    ensures made { HasAnswer (λ x. ⊥) (L.made labels.new) result }
    ensures belongs { Belongs L.made L.meaning labels.new world.new }
    ensures grows { Grows world.old world.new }
    ensures kept { IsKept L.made L.meaning L.room L.firm labels.old labels.new }
{
    let target = world.frames.target();
    world.frames.jump(labels, target, value.label)?;
    Ok(Outcome::Throws(value))
}
