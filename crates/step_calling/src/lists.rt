//! Lists of values with labels.

ghost use Rattle.std.specs.Prelude.{◌≡◌, ◌++◌, [], ◌∷◌, OnOk, IfOk};

use flow_text::OutOfMemory;
use js_values::{ArgList, Labelled};
use std::alloc::Global;

/// Appends values to a list.
pub(crate) fn append<T: Copy>(
    alloc: Global,
    list: &mut ArgList<T>,
    values: &[Labelled<T>],
) -> Result<(), OutOfMemory>
    ensures { OnOk result (list.new ≡ list.old ++ values.now) }
{
    for value in values {
        list.push(value.copy(alloc)?)?;
    }
    Ok(())
}

/// Values in front of others.
pub(crate) fn in_front<T: Copy>(
    alloc: Global,
    front: &[Labelled<T>],
    values: &[Labelled<T>],
) -> Result<ArgList<T>, OutOfMemory>
    ensures { IfOk result (λ list. list ≡ front.now ++ values.now) }
{
    let mut list = ArgList::new(alloc);
    append(alloc, &mut list, front)?;
    append(alloc, &mut list, values)?;
    Ok(list)
}
