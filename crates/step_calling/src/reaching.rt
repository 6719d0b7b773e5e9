//! What is called in the end, through a chain of bound functions (ECMA-262 15.3.4.5.1, 15.3.4.5.2).

ghost use Rattle.std.specs.Prelude.{◌≡◌, ◌≤◌, drop, length, IfOk};
ghost use Rattle.origin_labels.specs.Stores.{IsKept};
ghost use Rattle.js_values.specs.declared.value.Value.TheVariants as value;
ghost use Rattle.js_values.specs.Readings.{HasHeap};
ghost use Rattle.step_natives.specs.Framed.{Leads};
ghost use Rattle.step_calling.specs.Reaching.{ReachesCall, ReachesConstruction};

use crate::bound_target::{bound_target_of, is_bound};
use crate::laying::{lay_call, lay_construction};
use continuations::Stack;
use flow_text::OutOfMemory;
use js_values::ObjId;
use object_heap::Heap;
use origin_labels::Labels;
use std::alloc::Global;

/// The function that is reached, the label of it and of all on the way, and how many values lie loose then.
#[derive(Clone, Copy)]
pub(crate) struct Reached<T> {
    pub function: ObjId,
    pub label: T,
    pub count: usize,
}

/// The function that a call reaches which has this label itself. What lies loose is what that is called with.
#[inline(always)]
pub(crate) fn reach_call<'p, T: Copy, L: Labels<Label = T>>(
    alloc: Global,
    labels: &mut L,
    heap: &Heap<T>,
    stack: &mut Stack<'p, T>,
    count: usize,
    f: ObjId,
    label: T,
) -> Result<Reached<T>, OutOfMemory>
    requires count { count ≡ length stack.old.loose }
    requires enough { 2 ≤ count }
    requires label { L.made labels.old label }
    requires leads { Leads (drop 1 stack.old.loose) (record { value = value.Object f; label = label }) }
    requires belongs { HasHeap (L.made labels.old) heap.now }
    ensures reaches { IfOk result (ReachesCall L.made L.meaning labels.new heap.now f label stack.old stack.new) }
    ensures kept { IsKept L.made L.meaning L.room L.firm labels.old labels.new }
{
    if is_bound(heap, f) {
        reach_bound_call(alloc, labels, heap, stack, count, f, label)
    } else {
        Ok(Reached {
            function: f,
            label,
            count,
        })
    }
}

/// The same of a function that is bound, as hardly any is. It isn't inlined, so that the call of any other makes no room for a target.
#[inline(never)]
fn reach_bound_call<'p, T: Copy, L: Labels<Label = T>>(
    alloc: Global,
    labels: &mut L,
    heap: &Heap<T>,
    stack: &mut Stack<'p, T>,
    count: usize,
    f: ObjId,
    label: T,
) -> Result<Reached<T>, OutOfMemory>
    requires count { count ≡ length stack.old.loose }
    requires enough { 2 ≤ count }
    requires label { L.made labels.old label }
    requires leads { Leads (drop 1 stack.old.loose) (record { value = value.Object f; label = label }) }
    requires belongs { HasHeap (L.made labels.old) heap.now }
    ensures reaches { IfOk result (ReachesCall L.made L.meaning labels.new heap.now f label stack.old stack.new) }
    ensures kept { IsKept L.made L.meaning L.room L.firm labels.old labels.new }
{
    let aim = bound_target_of(alloc, labels, heap, f)?;
    match aim {
        None => Ok(Reached {
            function: f,
            label,
            count,
        }),
        Some(aim) => {
            let function = aim.function;
            let joined = labels.join(label, aim.label)?;
            let count = lay_call(alloc, stack, count, aim, joined)?;
            Ok(Reached {
                function,
                label: joined,
                count,
            })
        }
    }
}

/// The function that a construction reaches.
#[inline(always)]
pub(crate) fn reach_construction<'p, T: Copy, L: Labels<Label = T>>(
    alloc: Global,
    labels: &mut L,
    heap: &Heap<T>,
    stack: &mut Stack<'p, T>,
    count: usize,
    f: ObjId,
    label: T,
) -> Result<Reached<T>, OutOfMemory>
    requires count { count ≡ length stack.old.loose }
    requires enough { 1 ≤ count }
    requires label { L.made labels.old label }
    requires leads { Leads stack.old.loose (record { value = value.Object f; label = label }) }
    requires belongs { HasHeap (L.made labels.old) heap.now }
    ensures reaches { IfOk result (ReachesConstruction L.made L.meaning labels.new heap.now f label stack.old stack.new) }
    ensures kept { IsKept L.made L.meaning L.room L.firm labels.old labels.new }
{
    if is_bound(heap, f) {
        reach_bound_construction(alloc, labels, heap, stack, count, f, label)
    } else {
        Ok(Reached {
            function: f,
            label,
            count,
        })
    }
}

/// The same of a function that is bound, and not inlined either.
#[inline(never)]
fn reach_bound_construction<'p, T: Copy, L: Labels<Label = T>>(
    alloc: Global,
    labels: &mut L,
    heap: &Heap<T>,
    stack: &mut Stack<'p, T>,
    count: usize,
    f: ObjId,
    label: T,
) -> Result<Reached<T>, OutOfMemory>
    requires count { count ≡ length stack.old.loose }
    requires enough { 1 ≤ count }
    requires label { L.made labels.old label }
    requires leads { Leads stack.old.loose (record { value = value.Object f; label = label }) }
    requires belongs { HasHeap (L.made labels.old) heap.now }
    ensures reaches { IfOk result (ReachesConstruction L.made L.meaning labels.new heap.now f label stack.old stack.new) }
    ensures kept { IsKept L.made L.meaning L.room L.firm labels.old labels.new }
{
    let aim = bound_target_of(alloc, labels, heap, f)?;
    match aim {
        None => Ok(Reached {
            function: f,
            label,
            count,
        }),
        Some(aim) => {
            let function = aim.function;
            let joined = labels.join(label, aim.label)?;
            let count = lay_construction(alloc, stack, count, aim, joined)?;
            Ok(Reached {
                function,
                label: joined,
                count,
            })
        }
    }
}
