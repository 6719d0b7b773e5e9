//! Array literals: what is evaluated of them, in which order (ECMA-262 11.1.4), and the conversions of a value for the `length` of an array (15.4.5.1).

ghost use Rattle.std.specs.Prelude.{◌≡◌, ◌+◌, length, IfOk};
ghost use Rattle.std.specs.Option.{option_map};
ghost use Rattle.continuations.specs.declared.continuation.Continuation.TheVariants as continuation;
ghost use Rattle.js_ast.specs.Nodes.{nodes_of};
ghost use Rattle.js_ast.specs.Views.{view_expr};
ghost use Rattle.continuations.specs.Arrays.{IsFound, counts_from, counts_twice, item_from, items_from};
ghost use Rattle.continuations.specs.Loads.{Adds};
ghost use Rattle.continuations.specs.Resuming.{BeginsBehind, Keeps, ResumesBehind};

use crate::continuation::{Continuation, Control};
use crate::stack::Stack;
use flow_text::OutOfMemory;
use js_ast::{Expr, Item, ItemList};
use js_values::Labelled;
use run_state::SetLength;
use std::alloc::Global;

/// What stands at a place of a literal: nothing, a hole, or an item that is evaluated.
#[derive(Clone, Copy)]
pub enum Found<'p> {
    End,
    Hole,
    Value(&'p Expr),
}

fn item_at<'p>(list: &'p ItemList, place: u32) -> Found<'p>
    ensures { IsFound result list.entry.now place }
{
    let Some(item) = list.items().get(place as usize) else {
        return Found::End;
    };
    match item {
        Item::Value(value) => Found::Value(value),
        Item::Hole => Found::Hole,
    }
}

/// The first item of a literal, from one on, that is no hole, with its number.
fn item_from<'p>(list: &'p ItemList, at: u32) -> Result<Option<(u32, &'p Expr)>, OutOfMemory>
    ensures { IfOk result (λ first. option_map (λ r. (r.0, view_expr r.1.now)) first ≡ item_from at (nodes_of list.entry.now)) }
{
    let mut place = at;
    'along: loop {
        match item_at(list, place) {
            Found::End => return Ok(None),
            Found::Value(value) => return Ok(Some((place, value))),
            Found::Hole => {}
        }
        let Some(next) = place.checked_add(1) else {
            return Err(OutOfMemory);
        };
        place = next;
    }
}

/// The items of a literal from one on, behind the values, so many, of those before it. The first that is no hole is evaluated next.
pub fn begin_items<'p, T: Copy>(
    stack: &mut Stack<'p, T>,
    list: &'p ItemList,
    at: u32,
    count: u32,
) -> Result<Control<'p>, OutOfMemory>
    requires { length stack.old.loose ≡ count }
    ensures goes_on { IfOk result (BeginsBehind (items_from list.entry.now at) stack.old stack.new) }
    ensures keeps { IfOk result (Keeps stack.old stack.new) }
    ensures adds { IfOk result (Adds 7 stack.old stack.new) }
{
    let first = item_from(list, at)?;
    match first {
        Some((place, value)) => {
            stack.push(Continuation::Item(list, place, count))?;
            Ok(Control::Expr(value))
        }
        None => Ok(Control::Array(list, count)),
    }
}

/// Behind the value of an item those that stand behind it.
#[tactic(auto, using(crate::proofs::Steps::values_more), unfolding(es_meaning::specs::Evaluation::more_items))]
pub fn more_items<'p, T: Copy>(
    stack: &mut Stack<'p, T>,
    list: &'p ItemList,
    place: u32,
    count: u32,
) -> Result<Control<'p>, OutOfMemory>
    requires { length stack.old.loose ≡ count + 1 }
    ensures goes_on { IfOk result (ResumesBehind (continuation.Item list.entry place count) stack.old stack.new) }
    ensures keeps { IfOk result (Keeps stack.old stack.new) }
    ensures adds { IfOk result (Adds 7 stack.old stack.new) }
{
    let Some(at) = place.checked_add(1) else {
        return Err(OutOfMemory);
    };
    match count.checked_add(1) {
        Some(count) => begin_items(stack, list, at, count),
        None => Err(OutOfMemory),
    }
}

/// A value for the `length` of an array, whose label is that of base, key and walk, is converted for the first time. It waits with the array.
pub fn begin_length<'p, T: Copy>(
    alloc: Global,
    stack: &mut Stack<'p, T>,
    how: SetLength,
    array: Labelled<T>,
    value: Labelled<T>,
) -> Result<Control<'p>, OutOfMemory>
    requires { length stack.old.loose ≡ 0 }
    ensures goes_on { IfOk result (counts_from how array value stack.old stack.new) }
    ensures adds { IfOk result (Adds 10 stack.old stack.new) }
{
    let kept = array.copy(alloc)?;
    let again = value.copy(alloc)?;
    stack.lay(kept)?;
    stack.lay(again)?;
    stack.push(Continuation::LengthOnce(how))?;
    stack.lay(array)?;
    stack.lay(value)?;
    Ok(Control::ConvertBeside)
}

/// The same value is converted for the second time. What it came to first waits with the array.
pub fn convert_again<'p, T: Copy>(
    alloc: Global,
    stack: &mut Stack<'p, T>,
    how: SetLength,
    array: Labelled<T>,
    value: Labelled<T>,
    first: Labelled<T>,
) -> Result<Control<'p>, OutOfMemory>
    requires { length stack.old.loose ≡ 0 }
    ensures goes_on { IfOk result (counts_twice how array value first stack.old stack.new) }
    ensures adds { IfOk result (Adds 8 stack.old stack.new) }
{
    let kept = array.copy(alloc)?;
    stack.lay(kept)?;
    stack.lay(first)?;
    stack.push(Continuation::LengthTwice(how))?;
    stack.lay(array)?;
    stack.lay(value)?;
    Ok(Control::ConvertBeside)
}
