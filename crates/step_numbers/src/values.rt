//! Names and their values.

ghost use Rattle.std.specs.Prelude.{◌≡◌, ◌<◌, ℕ, true, Some, IfSome, length};
ghost use Rattle.std.specs.Option.{option_map};
ghost use Rattle.origin_labels.specs.Stores.{IsKept};
ghost use Rattle.js_ast.specs.Trees as trees;
ghost use Rattle.js_values.specs.declared.property.Body.TheVariants.{Data};
ghost use Rattle.object_heap.specs.Formed.{own_in};
ghost use Rattle.run_state.specs.Worlds.{Belongs};
ghost use Rattle.step_numbers.specs.Evaluated.{Evaluates, global_in, name_value, named_at, value_held, value_of, value_of_body, without_memory};
ghost use Rattle.step_numbers.specs.Named.{IsHeld, IsNamed};

use crate::evaluating::{Evaluated, GLOBAL};
use flow_text::Text;
use js_number::Primitive;
use js_values::{Body, EnvId, Labelled, Value};
use origin_labels::Labels;
use run_state::World;

/// Evaluates a name, if it has a value that is no text and there is a turn for it.
#[inline(always)]
pub(crate) fn evaluated_name<L: Labels>(
    labels: &mut L,
    world: &World<L::Label>,
    at: EnvId,
    turns: u64,
    name: &Text,
) -> Option<Evaluated<L::Label>>
    requires at { at.0 < length world.now.records }
    requires belongs { Belongs L.made L.meaning labels.old world.now }
    ensures exact { L.firm labels.old ≡ true → option_map (λ x. (x.value.value, x.turns)) result ≡ named_at world.now.records world.now.heap at.0 name.now turns }
    ensures evaluates { (place : ℕ) → IfSome result (λ x. Evaluates L.made L.meaning labels.new (trees.name place name.now) at.0 world.now turns x.value x.turns) }
    ensures kept { IsKept L.made L.meaning L.room L.firm labels.old labels.new }
{
    if turns == 0 {
        return None;
    }
    let value = name_value(labels, world, at, name)?;
    Some(Evaluated {
        value,
        turns: turns - 1,
    })
}

/// The value that a name has, which a record binds from this one on, or else the global object itself (ECMA-262 10.3.1, 10.2.1.2.4). It is searched for once, and is none where it is a text, since a copy of that may want memory, or where a getter would be called.
#[inline(always)]
pub fn name_value<L: Labels>(
    labels: &mut L,
    world: &World<L::Label>,
    at: EnvId,
    name: &Text,
) -> Option<Labelled<L::Label>>
    requires at { at.0 < length world.now.records }
    requires belongs { Belongs L.made L.meaning labels.old world.now }
    ensures exact { L.firm labels.old ≡ true → option_map (λ v. v.value) result ≡ name_value world.now.records world.now.heap at.0 name.now }
    ensures named { IfSome result (IsNamed L.made L.meaning labels.new at.0 name.now world.now) }
    ensures kept { IsKept L.made L.meaning L.room L.firm labels.old labels.new }
{
    match world.records.find(at, name) {
        Some(place) => value_of(world.records.read_at(place)),
        None => global_value(labels, world, name),
    }
}

/// The same value, if it takes no memory.
#[inline(always)]
pub(crate) fn value_of<T: Copy>(found: &Labelled<T>) -> Option<Labelled<T>>
    ensures exact { option_map (λ v. v.value) result ≡ value_of (Some found.now) }
    ensures found { IfSome result (λ v. v ≡ found.now) }
{
    let value = without_memory(&found.value)?;
    Some(Labelled {
        value,
        label: found.label,
    })
}

/// A copy of a value, if that takes no memory.
#[inline(always)]
fn without_memory(value: &Value) -> Option<Value>
    ensures exact { result ≡ without_memory value.now }
    ensures same { IfSome result (λ v. v ≡ value.now) }
{
    match value {
        Value::Object(o) => Some(Value::Object(*o)),
        Value::Primitive(Primitive::Undefined) => Some(Value::Primitive(Primitive::Undefined)),
        Value::Primitive(Primitive::Null) => Some(Value::Primitive(Primitive::Null)),
        Value::Primitive(Primitive::Bool(b)) => Some(Value::Primitive(Primitive::Bool(*b))),
        Value::Primitive(Primitive::Num(n)) => Some(Value::Primitive(Primitive::Num(*n))),
        Value::Primitive(Primitive::Str(_)) => None,
    }
}

/// The value that the global object's own property with the name holds. That the property is there depends on the label of its existence, which its value has besides.
#[inline(always)]
fn global_value<L: Labels>(
    labels: &mut L,
    world: &World<L::Label>,
    name: &Text,
) -> Option<Labelled<L::Label>>
    requires { Belongs L.made L.meaning labels.old world.now }
    ensures exact { L.firm labels.old ≡ true → option_map (λ v. v.value) result ≡ value_held (own_in name.now (global_in world.now.heap)) }
    ensures held { IfSome result (IsHeld L.made L.meaning labels.new name.now world.now.heap) }
    ensures kept { IsKept L.made L.meaning L.room L.firm labels.old labels.new }
{
    let slot = world.heap.own_named(GLOBAL, name)?;
    let value = value_of_body(&slot.body)?;
    let label = labels.join(slot.existence, slot.label).ok()?;
    Some(Labelled { value, label })
}

/// The value that a property holds, if it takes no memory.
#[inline(always)]
fn value_of_body(body: &Body) -> Option<Value>
    ensures exact { result ≡ value_of_body body.now }
    ensures holds { IfSome result (λ v. body.now ≡ Data v) }
{
    match body {
        Body::Data(value) => without_memory(value),
        Body::Accessor { .. } => None,
    }
}
