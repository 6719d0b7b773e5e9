//! Arrays of literals (ECMA-262 11.1.4).

ghost use Rattle.std.specs.Prelude.{◌≡◌, length, map, IfErr, IfOk};
ghost use Rattle.std.specs.List.{All};
ghost use Rattle.origin_labels.specs.Stores.{IsKept};
ghost use Rattle.flow_frames.specs.Stops.{IfStop};
ghost use Rattle.js_values.specs.Readings.{HasValue, read_value};
ghost use Rattle.run_state.specs.Worlds.{Belongs, Grows};
ghost use Rattle.continuations.specs.declared.continuation.Control.TheVariants as control;
ghost use Rattle.continuations.specs.Pending.{next_plan};
ghost use Rattle.continuations.specs.Stops.{HasStop};
ghost use Rattle.step_references.specs.Moving.{Begun, Moved};
ghost use Rattle.step_literals.specs.Arrays.{are_elements, is_hole};

use continuations::{Control, Stack};
use flow_frames::FlowFault;
use flow_text::OutOfMemory;
use js_ast::{Item, ItemList};
use js_values::Labelled;
use origin_labels::Labels;
use property_requests::{Element, make_array};
use run_state::World;
use std::alloc::Global;

/// The array of a literal with the values of its items, so many, that no work keeps.
pub fn array<'p, L: Labels>(
    alloc: Global,
    labels: &mut L,
    world: &mut World<L::Label>,
    stack: &mut Stack<'p, L::Label>,
    list: &'p ItemList,
    count: u32,
) -> Result<Control<'p>, FlowFault<L::Label>>
    requires loose { length stack.old.loose ≡ count }
    requires made { All (HasValue (L.made labels.old)) stack.old.loose }
    requires belongs { Belongs L.made L.meaning labels.old world.old }
    ensures goes_on { Begun L.made L.meaning labels.new (λ tables inputs set functions reading e. next_plan tables inputs set functions (control.Array list.entry count) (map (read_value reading) stack.old.loose) e) stack.old stack.new world.old world.new result }
    ensures moved { IfOk result (Moved (L.made labels.new) 6 stack.old stack.new world.old world.new) }
    ensures stopped { IfErr result (IfStop (HasStop (L.made labels.new))) }
    ensures belongs { Belongs L.made L.meaning labels.new world.new }
    ensures grows { Grows world.old world.new }
    ensures kept { IsKept L.made L.meaning L.room L.firm labels.old labels.new }
{
    let count = count as usize;
    let items = list.items();
    let length = number_of(items.len())?;
    let elements = elements_of(alloc, items, stack.loose(count))?;
    stack.clear(count);
    let made = make_array(alloc, labels, world, length, elements)?;
    stack.lay(made)?;
    Ok(Control::Value)
}

/// The elements of a literal: its items that are no holes, with their values, as far as both go.
fn elements_of<T: Copy>(
    alloc: Global,
    items: &[Item],
    values: &[Labelled<T>],
) -> Result<Vec<Element<T>>, OutOfMemory>
    ensures { IfOk result (λ elements. are_elements items.now values.now elements.items) }
{
    let mut elements = Vec::with_capacity(alloc, values.len())?;
    let mut left = values;
    'items: for (n, item) in items.iter().enumerate() {
        if !is_hole(item) {
            let [value, rest @ ..] = left else {
                return Ok(elements);
            };
            let place = number_of(n)?;
            let value = value.copy(alloc)?;
            elements.push(Element { place, value })?;
            left = rest;
        }
    }
    Ok(elements)
}

fn is_hole(item: &Item) -> bool
    ensures { result ≡ is_hole item.now }
{
    matches!(item, Item::Hole)
}

fn number_of(n: usize) -> Result<u32, OutOfMemory>
    ensures { IfOk result (λ m. m ≡ n) }
{
    match u32::try_from(n) {
        Ok(n) => Ok(n),
        Err(_) => Err(OutOfMemory),
    }
}
