//! What lies loose before a call or a construction, laid anew.

ghost use Rattle.std.specs.Prelude.{◌≡◌, ◌≤◌, ◌++◌, [], ◌∷◌, drop, length, OnOk, IfOk};
ghost use Rattle.es_meaning.specs.Plain.{undefined};
ghost use Rattle.js_values.specs.declared.value.Value.TheVariants as value;
ghost use Rattle.step_calling.specs.Reaching.{called_with};

use crate::bound_target::BoundTarget;
use crate::lists::append;
use continuations::Stack;
use flow_text::OutOfMemory;
use js_number::Primitive;
use js_values::{ArgList, Labelled, ObjId, Value};
use std::alloc::Global;

/// Lays values on top.
pub(crate) fn lay_all<'p, T: Copy>(
    alloc: Global,
    stack: &mut Stack<'p, T>,
    values: &[Labelled<T>],
) -> Result<(), OutOfMemory>
    ensures tasks { stack.new.tasks ≡ stack.old.tasks }
    ensures laid { OnOk result (stack.new.loose ≡ stack.old.loose ++ values.now) }
{
    for value in values {
        stack.lay(value.copy(alloc)?)?;
    }
    Ok(())
}

/// Takes all values away that no work keeps. Those from a place on come behind others in a list.
fn take_from<'p, T: Copy>(
    alloc: Global,
    stack: &mut Stack<'p, T>,
    count: usize,
    from: usize,
    list: &mut ArgList<T>,
) -> Result<(), OutOfMemory>
    requires count { count ≡ length stack.old.loose }
    requires enough { from ≤ count }
    ensures tasks { stack.new.tasks ≡ stack.old.tasks }
    ensures none { OnOk result (stack.new.loose ≡ []) }
    ensures taken { OnOk result (list.new ≡ list.old ++ drop from stack.old.loose) }
{
    append(alloc, list, &stack.loose(count)[from..])?;
    stack.clear(count);
    Ok(())
}

/// A function that is reached, as a value with this label.
fn reached<T: Copy>(function: ObjId, label: T) -> Labelled<T>
    ensures { result ≡ record { value = value.Object function; label = label } }
{
    Labelled {
        value: Value::Object(function),
        label,
    }
}

/// A call is laid anew: with the `this` and behind the arguments of a bound function, which comes to a function with this label. Answers how many values lie then.
pub(crate) fn lay_call<'p, T: Copy>(
    alloc: Global,
    stack: &mut Stack<'p, T>,
    count: usize,
    aim: BoundTarget<T>,
    label: T,
) -> Result<usize, OutOfMemory>
    requires count { count ≡ length stack.old.loose }
    requires enough { 2 ≤ count }
    ensures tasks { stack.new.tasks ≡ stack.old.tasks }
    ensures laid { OnOk result (stack.new.loose ≡ aim.this ∷ called_with aim.function label (aim.args ++ drop 2 stack.old.loose)) }
    ensures count { IfOk result (λ n. n ≡ length stack.new.loose) }
{
    let mut args = aim.args;
    take_from(alloc, stack, count, 2, &mut args)?;
    stack.lay(aim.this)?;
    stack.lay(reached(aim.function, label))?;
    lay_all(alloc, stack, args.items())?;
    let Some(more) = args.items().len().checked_add(2) else {
        return Err(OutOfMemory);
    };
    Ok(more)
}

/// The same of a construction, which has no `this`.
pub(crate) fn lay_construction<'p, T: Copy>(
    alloc: Global,
    stack: &mut Stack<'p, T>,
    count: usize,
    aim: BoundTarget<T>,
    label: T,
) -> Result<usize, OutOfMemory>
    requires count { count ≡ length stack.old.loose }
    requires enough { 1 ≤ count }
    ensures tasks { stack.new.tasks ≡ stack.old.tasks }
    ensures laid { OnOk result (stack.new.loose ≡ called_with aim.function label (aim.args ++ drop 1 stack.old.loose)) }
    ensures count { IfOk result (λ n. n ≡ length stack.new.loose) }
{
    let mut args = aim.args;
    take_from(alloc, stack, count, 1, &mut args)?;
    stack.lay(reached(aim.function, label))?;
    lay_all(alloc, stack, args.items())?;
    let Some(more) = args.items().len().checked_add(1) else {
        return Err(OutOfMemory);
    };
    Ok(more)
}

/// The registers of a built-in that constructs: `this` is undefined there. Answers how many there are.
pub(crate) fn lay_undefined_below<'p, T: Copy>(
    alloc: Global,
    stack: &mut Stack<'p, T>,
    count: usize,
    none: T,
) -> Result<usize, OutOfMemory>
    requires count { count ≡ length stack.old.loose }
    ensures tasks { stack.new.tasks ≡ stack.old.tasks }
    ensures laid { OnOk result (stack.new.loose ≡ record { value = undefined; label = none } ∷ stack.old.loose) }
    ensures count { IfOk result (λ n. n ≡ length stack.new.loose) }
{
    let mut values = ArgList::new(alloc);
    take_from(alloc, stack, count, 0, &mut values)?;
    stack.lay(Labelled {
        value: Value::Primitive(Primitive::Undefined),
        label: none,
    })?;
    lay_all(alloc, stack, values.items())?;
    let Some(more) = values.items().len().checked_add(1) else {
        return Err(OutOfMemory);
    };
    Ok(more)
}
