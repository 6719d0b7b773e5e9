//! Objects of literals (ECMA-262 11.1.5).

ghost use Rattle.std.specs.Prelude.{◌≡◌, length, map, Ok, IfErr, IfOk, OnOk};
ghost use Rattle.std.specs.List.{All};
ghost use Rattle.origin_labels.specs.Stores.{IsKept};
ghost use Rattle.flow_frames.specs.Stops.{IfStop};
ghost use Rattle.js_ast.specs.Views.{view_function};
ghost use Rattle.js_values.specs.Readings.{HasValue, read_value};
ghost use Rattle.flow_meaning.specs.Planned.{planned};
ghost use Rattle.function_table.specs.Tables.{table};
ghost use Rattle.run_state.specs.Worlds.{Belongs, Grows};
ghost use Rattle.continuations.specs.declared.objects.Part.TheVariants as part;
ghost use Rattle.continuations.specs.declared.continuation.Control.TheVariants as control;
ghost use Rattle.continuations.specs.Literals.{IsPart, literal_act, literal_from};
ghost use Rattle.continuations.specs.Pending.{next_plan};
ghost use Rattle.continuations.specs.Stops.{HasStop};
ghost use Rattle.step_references.specs.Moving.{Begun, Moved};
ghost use Rattle.step_literals.specs.Building.{Builds, Laid};

use crate::parts::parts_of;
use continuations::{Continuation, Control, Part, Stack, part_at};
use flow_frames::FlowFault;
use flow_text::OutOfMemory;
use function_entry::make_function;
use function_table::Functions;
use js_ast::{Expr, Function, PropertyList};
use js_values::{EnvId, Labelled, Value};
use origin_labels::Labels;
use run_state::World;
use std::alloc::Global;
use step_objects::make_object;
use step_references::hand_on;

/// The parts of a literal from one on, behind the values of those before it: getters and setters are made up to a value, which is evaluated next, or up to the end.
pub fn object<'p, L: Labels>(
    alloc: Global,
    labels: &mut L,
    world: &mut World<L::Label>,
    functions: &Functions<'_>,
    stack: &mut Stack<'p, L::Label>,
    at: EnvId,
    list: &'p PropertyList,
    count: u32,
) -> Result<Control<'p>, FlowFault<L::Label>>
    requires loose { length stack.old.loose ≡ count }
    requires made { All (HasValue (L.made labels.old)) stack.old.loose }
    requires belongs { Belongs L.made L.meaning labels.old world.old }
    ensures goes_on { Builds L.made L.meaning labels.new (table functions.now) at.0 (λ tables inputs set reading e. next_plan tables inputs set (table functions.now) (control.Object list.entry count) (map (read_value reading) stack.old.loose) e) stack.old stack.new world.old world.new result }
    ensures moved { IfOk result (Moved (L.made labels.new) 6 stack.old stack.new world.old world.new) }
    ensures stopped { IfErr result (IfStop (HasStop (L.made labels.new))) }
    ensures belongs { Belongs L.made L.meaning labels.new world.new }
    ensures grows { Grows world.old world.new }
    ensures kept { IsKept L.made L.meaning L.room L.firm labels.old labels.new }
{
    let mut done = count;
    'along: for _ in 0..usize::MAX {
        match part_at(list, done) {
            Part::Function(f) => make_part(alloc, labels, world, functions, stack, at, f)?,
            Part::Value(value) => {
                let next = begin_value(labels, world, stack, list, done, value)?;
                return Ok(next);
            }
            Part::None => return build(alloc, labels, world, stack, list, done),
        }
        let Some(more) = done.checked_add(1) else {
            return Err(FlowFault::OutOfMemory);
        };
        done = more;
    }
    // No literal has so many parts.
    Err(FlowFault::OutOfMemory)
}

/// The function of a getter or a setter is made, and lies uppermost.
fn make_part<'p, L: Labels>(
    alloc: Global,
    labels: &mut L,
    world: &mut World<L::Label>,
    functions: &Functions<'_>,
    stack: &mut Stack<'p, L::Label>,
    at: EnvId,
    f: &Function,
) -> Result<(), OutOfMemory>
    requires { Belongs L.made L.meaning labels.old world.old }
    ensures laid { OnOk result (Laid L.made L.meaning labels.new (table functions.now) at.0 (view_function f.now) stack.old stack.new world.old world.new) }
    ensures belongs { Belongs L.made L.meaning labels.new world.new }
    ensures grows { Grows world.old world.new }
    ensures kept { IsKept L.made L.meaning L.room L.firm labels.old labels.new }
{
    let made = make_function(alloc, labels, world, functions, f, at)?;
    stack.lay(Labelled {
        value: Value::Object(made),
        label: labels.bottom(),
    })?;
    Ok(())
}

/// The value of a part is evaluated.
fn begin_value<'p, L: Labels>(
    labels: &L,
    world: &World<L::Label>,
    stack: &mut Stack<'p, L::Label>,
    list: &'p PropertyList,
    count: u32,
    value: &'p Expr,
) -> Result<Control<'p>, OutOfMemory>
    requires loose { length stack.old.loose ≡ count }
    requires made { All (HasValue (L.made labels.now)) stack.old.loose }
    requires part { IsPart (part.Value value) list.now count }
    ensures goes_on { IfOk result (λ next. Begun L.made L.meaning labels.now (λ tables inputs set functions reading e. literal_from list.entry.now count tables inputs set functions (map (read_value reading) stack.old.loose) e) stack.old stack.new world.now world.now (Ok next)) }
    ensures moved { IfOk result (Moved (L.made labels.now) 6 stack.old stack.new world.now world.now) }
{
    stack.push(Continuation::Property(list, count))?;
    Ok(Control::Expr(value))
}

/// The object of a literal with the values of all its parts.
fn build<'p, L: Labels>(
    alloc: Global,
    labels: &mut L,
    world: &mut World<L::Label>,
    stack: &mut Stack<'p, L::Label>,
    list: &'p PropertyList,
    count: u32,
) -> Result<Control<'p>, FlowFault<L::Label>>
    requires loose { length stack.old.loose ≡ count }
    requires made { All (HasValue (L.made labels.old)) stack.old.loose }
    requires belongs { Belongs L.made L.meaning labels.old world.old }
    ensures goes_on { Begun L.made L.meaning labels.new (λ tables inputs set functions reading e. (planned tables inputs set functions).act (literal_act list.entry.now) (map (read_value reading) stack.old.loose)) stack.old stack.new world.old world.new result }
    ensures moved { IfOk result (Moved (L.made labels.new) 6 stack.old stack.new world.old world.new) }
    ensures stopped { IfErr result (IfStop (HasStop (L.made labels.new))) }
    ensures belongs { Belongs L.made L.meaning labels.new world.new }
    ensures grows { Grows world.old world.new }
    ensures kept { IsKept L.made L.meaning L.room L.firm labels.old labels.new }
{
    let count = count as usize;
    let parts = parts_of(alloc, list.items(), stack.loose(count))?;
    stack.clear(count);
    let answer = make_object(labels, world, parts);
    hand_on(labels, stack, answer)
}
