//! Values that are made, copied and compared.

ghost use Rattle.std.specs.Prelude.{◌≡◌, List, map, length};
ghost use Rattle.std.specs.List.{All};
ghost use Rattle.origin_labels.specs.Stores.{IsKept};
ghost use Rattle.flow_policy.specs.Policies.{Tables};
ghost use Rattle.flow_policy.specs.Inputs.{Given};
ghost use Rattle.js_values.specs.Readings.{HasValue, read_value};
ghost use Rattle.run_state.specs.Acts.{Acts, HasAnswer};
ghost use Rattle.run_state.specs.Worlds.{Belongs, Grows};
ghost use Rattle.flow_meaning.specs.Scopes.{Val};
ghost use Rattle.step_requests.specs.Asked.{effect_on};
ghost use Rattle.step_requests.specs.declared.asked.Effect.TheVariants as effect;

use continuations::{Stack, read_register};
use flow_frames::FlowFault;
use js_ast::BinaryOperator;
use js_number::Primitive;
use js_values::{Labelled, Value};
use native_protocol::Reg;
use origin_labels::Labels;
use run_state::{Outcome, World};
use std::alloc::Global;
use step_values::binary;

/// A primitive value, which depends on nothing.
pub(crate) fn make<L: Labels>(
    labels: &mut L,
    world: &mut World<L::Label>,
    value: Primitive,
) -> Result<Outcome<Labelled<L::Label>, L::Label>, FlowFault<L::Label>>
    requires belongs { Belongs L.made L.meaning labels.old world.old }
    ensures acts { (tables : Tables) (inputs : Given) (registers : List Val) → Acts L.made L.meaning labels.new (λ reading. read_value reading) (λ reading. effect_on tables inputs (effect.Make value) registers) world.old world.new result }
    ensures made { HasAnswer (HasValue (L.made labels.new)) (L.made labels.new) result }
    ensures belongs { Belongs L.made L.meaning labels.new world.new }
    ensures grows { Grows world.old world.new }
    ensures kept { IsKept L.made L.meaning L.room L.firm labels.old labels.new }
{
    let _state = &*world;
    Ok(Outcome::Goes(Labelled {
        value: Value::Primitive(value),
        label: labels.bottom(),
    }))
}

/// What a register holds.
pub(crate) fn copy<'p, L: Labels>(
    alloc: Global,
    labels: &mut L,
    world: &mut World<L::Label>,
    stack: &Stack<'p, L::Label>,
    count: u32,
    from: Reg,
) -> Result<Outcome<Labelled<L::Label>, L::Label>, FlowFault<L::Label>>
    requires loose { length stack.now.loose ≡ count }
    requires made { All (HasValue (L.made labels.old)) stack.now.loose }
    requires belongs { Belongs L.made L.meaning labels.old world.old }
    ensures acts { (tables : Tables) (inputs : Given) → Acts L.made L.meaning labels.new (λ reading. read_value reading) (λ reading. effect_on tables inputs (effect.Copy from) (map (read_value reading) stack.now.loose)) world.old world.new result }
    ensures made { HasAnswer (HasValue (L.made labels.new)) (L.made labels.new) result }
    ensures belongs { Belongs L.made L.meaning labels.new world.new }
    ensures grows { Grows world.old world.new }
    ensures kept { IsKept L.made L.meaning L.room L.firm labels.old labels.new }
{
    let value = read_register(alloc, labels, stack, count, from)?;
    Ok(Outcome::Goes(value))
}

/// Whether two values are equal by `===` (ECMA-262 11.9.6).
pub(crate) fn same<'p, L: Labels>(
    alloc: Global,
    labels: &mut L,
    world: &mut World<L::Label>,
    stack: &Stack<'p, L::Label>,
    count: u32,
    a: Reg,
    b: Reg,
) -> Result<Outcome<Labelled<L::Label>, L::Label>, FlowFault<L::Label>>
    requires loose { length stack.now.loose ≡ count }
    requires made { All (HasValue (L.made labels.old)) stack.now.loose }
    requires belongs { Belongs L.made L.meaning labels.old world.old }
    ensures acts { (tables : Tables) (inputs : Given) → Acts L.made L.meaning labels.new (λ reading. read_value reading) (λ reading. effect_on tables inputs (effect.Same a b) (map (read_value reading) stack.now.loose)) world.old world.new result }
    ensures made { HasAnswer (HasValue (L.made labels.new)) (L.made labels.new) result }
    ensures belongs { Belongs L.made L.meaning labels.new world.new }
    ensures grows { Grows world.old world.new }
    ensures kept { IsKept L.made L.meaning L.room L.firm labels.old labels.new }
{
    let a = read_register(alloc, labels, stack, count, a)?;
    let b = read_register(alloc, labels, stack, count, b)?;
    binary(alloc, labels, BinaryOperator::StrictEqual, &a, &b)
}
