//! What a bound function comes to (ECMA-262 15.3.4.5.1).

ghost use Rattle.std.specs.Prelude.{◌≡◌, ◌<◌, false, Some, None, IfOk, length, slice_get};
ghost use Rattle.origin_labels.specs.Label.{union};
ghost use Rattle.origin_labels.specs.Stores.{IsKept};
ghost use Rattle.js_values.specs.Readings.{HasHeap, HasInner, HasValue};
ghost use Rattle.step_calling.specs.BoundTargets.{ComesTo, ComesToItself, HasBoundTarget, IsBoundTarget, IsBehind, StandsBound, bound_in, holds_target};

use crate::lists::{append, in_front};
use flow_text::OutOfMemory;
use js_values::{ArgList, Inner, Labelled, ObjId};
use object_heap::Heap;
use origin_labels::Labels;
use std::alloc::Global;

/// The function that the call of a bound one comes to in the end, with the `this` and the first arguments that it gets, and the label of the targets on the way.
#[derive(Drop)]
pub struct BoundTarget<T> {
    pub function: ObjId,
    pub label: T,
    pub this: Labelled<T>,
    pub args: ArgList<T>,
}

/// Whether an object is a bound function. Any other comes to itself, as one does that isn't there. Hardly any function is bound, and this makes no target.
#[inline(always)]
pub(crate) fn is_bound<T: Copy>(heap: &Heap<T>, o: ObjId) -> bool
    ensures { result ≡ false → ComesToItself heap.now o.0 }
{
    if o.0 >= heap.len() {
        return false;
    }
    holds_target(heap.inner(o))
}

/// Whether an inner part is that of a bound function.
#[inline(always)]
fn holds_target<T: Copy>(inner: &Inner<T>) -> bool
    ensures { result ≡ holds_target inner.now }
{
    match inner {
        Inner::Bound { .. } => true,
        Inner::Plain | Inner::Script { .. } | Inner::Native { .. } => false,
    }
}

/// What the call of an object comes to, if it is a bound function. An object that isn't there is none.
pub(crate) fn bound_target_of<T: Copy, L: Labels<Label = T>>(
    alloc: Global,
    labels: &mut L,
    heap: &Heap<T>,
    o: ObjId,
) -> Result<Option<BoundTarget<T>>, OutOfMemory>
    requires { HasHeap (L.made labels.old) heap.now }
    ensures comes { IfOk result (ComesTo L.made L.meaning labels.new heap.now o.0) }
    ensures kept { IsKept L.made L.meaning L.room L.firm labels.old labels.new }
{
    if o.0 >= heap.len() {
        return Ok(None);
    }
    let bound = bound_in(alloc, heap.inner(o))?;
    match bound {
        None => Ok(None),
        Some(aim) => {
            let aim = walk_targets(alloc, labels, heap, o, aim)?;
            Ok(Some(aim))
        }
    }
}

/// What a bound function itself calls.
fn bound_in<T: Copy>(alloc: Global, inner: &Inner<T>) -> Result<Option<BoundTarget<T>>, OutOfMemory>
    ensures { IfOk result (λ found. found ≡ bound_in inner.now) }
{
    match inner {
        Inner::Bound {
            target,
            label,
            this,
            args,
        } => {
            let this = this.copy(alloc)?;
            let mut copied = ArgList::new(alloc);
            append(alloc, &mut copied, args.items())?;
            Ok(Some(BoundTarget {
                function: *target,
                label: *label,
                this,
                args: copied,
            }))
        }
        Inner::Plain | Inner::Script { .. } | Inner::Native { .. } => Ok(None),
    }
}

/// What a bound function calls whose target calls something: the target's `this` counts, and its arguments stand in front.
fn behind<T: Copy, L: Labels<Label = T>>(
    alloc: Global,
    labels: &mut L,
    aim: &BoundTarget<T>,
    next: BoundTarget<T>,
) -> Result<BoundTarget<T>, OutOfMemory>
    requires aim { HasBoundTarget (L.made labels.old) aim.now }
    requires next { HasBoundTarget (L.made labels.old) next }
    ensures behind { IfOk result (IsBehind L.made L.meaning labels.new aim.now next) }
    ensures kept { IsKept L.made L.meaning L.room L.firm labels.old labels.new }
{
    let label = labels.join(aim.label, next.label)?;
    let args = in_front(alloc, next.args.items(), aim.args.items())?;
    Ok(BoundTarget {
        function: next.function,
        label,
        this: next.this,
        args,
    })
}

/// The walk from a bound function, which has this target, along the targets.
fn walk_targets<T: Copy, L: Labels<Label = T>>(
    alloc: Global,
    labels: &mut L,
    heap: &Heap<T>,
    _o: ObjId,
    first: BoundTarget<T>,
) -> Result<BoundTarget<T>, OutOfMemory>
    requires there { StandsBound heap.now _o.0 (Some first) }
    requires belongs { HasHeap (L.made labels.old) heap.now }
    ensures aimed { IfOk result (IsBoundTarget L.made L.meaning labels.new heap.now _o.0) }
    ensures kept { IsKept L.made L.meaning L.room L.firm labels.old labels.new }
{
    // Its clause says that each target's number is below its function's, so that the walk ends.
    let _count = heap.len();
    let mut aim = first;
    'along: loop {
        let bound = bound_in(alloc, heap.inner(aim.function))?;
        match bound {
            Some(next) => aim = behind(alloc, labels, &aim, next)?,
            None => return Ok(aim),
        }
    }
}
