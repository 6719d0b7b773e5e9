//! Values that stand in the script (ECMA-262 11.1.3).

ghost use Rattle.std.specs.Prelude.{◌≡◌, [], length, IfOk};
ghost use Rattle.flow_meaning.specs.Planned.{Give, gave, planned};
ghost use Rattle.continuations.specs.declared.continuation.Control.TheVariants as control;
ghost use Rattle.continuations.specs.Pending.{next_plan};
ghost use Rattle.continuations.specs.Loads.{Adds};
ghost use Rattle.continuations.specs.Moving.{BeginsAnywhere, Rests};

use continuations::{Control, Stack};
use flow_text::{OutOfMemory, Text};
use js_number::{Int, Num, Primitive};
use js_values::{Labelled, Value};
use origin_labels::Labels;
use std::alloc::Global;

/// A number that stands in the script.
pub fn number<'p, L: Labels>(
    labels: &L,
    stack: &mut Stack<'p, L::Label>,
    n: &'p Int,
) -> Result<Control<'p>, OutOfMemory>
    requires loose { length stack.old.loose ≡ 0 }
    ensures goes_on { IfOk result (BeginsAnywhere L.made L.meaning labels.now (λ tables inputs set functions e. next_plan tables inputs set functions (control.Number n.entry) [] e) stack.old stack.new) }
    ensures rests { IfOk result (Rests (L.made labels.now) stack.old stack.new) }
    ensures adds { IfOk result (Adds 6 stack.old stack.new) }
{
    literal(labels, stack, Primitive::Num(Num::Int(*n)))
}

/// A text that stands in the script.
pub fn text<'p, L: Labels>(
    alloc: Global,
    labels: &L,
    stack: &mut Stack<'p, L::Label>,
    units: &'p Text,
) -> Result<Control<'p>, OutOfMemory>
    requires loose { length stack.old.loose ≡ 0 }
    ensures goes_on { IfOk result (BeginsAnywhere L.made L.meaning labels.now (λ tables inputs set functions e. next_plan tables inputs set functions (control.Text units.entry) [] e) stack.old stack.new) }
    ensures rests { IfOk result (Rests (L.made labels.now) stack.old stack.new) }
    ensures adds { IfOk result (Adds 6 stack.old stack.new) }
{
    let units = units.copy(alloc)?;
    literal(labels, stack, Primitive::Str(units))
}

/// A boolean that stands in the script.
pub fn boolean<'p, L: Labels>(
    labels: &L,
    stack: &mut Stack<'p, L::Label>,
    b: bool,
) -> Result<Control<'p>, OutOfMemory>
    requires loose { length stack.old.loose ≡ 0 }
    ensures goes_on { IfOk result (BeginsAnywhere L.made L.meaning labels.now (λ tables inputs set functions e. next_plan tables inputs set functions (control.Bool b) [] e) stack.old stack.new) }
    ensures rests { IfOk result (Rests (L.made labels.now) stack.old stack.new) }
    ensures adds { IfOk result (Adds 6 stack.old stack.new) }
{
    literal(labels, stack, Primitive::Bool(b))
}

/// `null`.
pub fn null<'p, L: Labels>(
    labels: &L,
    stack: &mut Stack<'p, L::Label>,
) -> Result<Control<'p>, OutOfMemory>
    requires loose { length stack.old.loose ≡ 0 }
    ensures goes_on { IfOk result (BeginsAnywhere L.made L.meaning labels.now (λ tables inputs set functions e. next_plan tables inputs set functions control.Null [] e) stack.old stack.new) }
    ensures rests { IfOk result (Rests (L.made labels.now) stack.old stack.new) }
    ensures adds { IfOk result (Adds 6 stack.old stack.new) }
{
    literal(labels, stack, Primitive::Null)
}

/// A primitive value without an origin.
fn literal<'p, L: Labels>(
    labels: &L,
    stack: &mut Stack<'p, L::Label>,
    value: Primitive,
) -> Result<Control<'p>, OutOfMemory>
    requires loose { length stack.old.loose ≡ 0 }
    ensures goes_on { IfOk result (BeginsAnywhere L.made L.meaning labels.now (λ tables inputs set functions e s. Give (gave ((planned tables inputs set functions).literal value)) s) stack.old stack.new) }
    ensures rests { IfOk result (Rests (L.made labels.now) stack.old stack.new) }
    ensures adds { IfOk result (Adds 6 stack.old stack.new) }
{
    stack.lay(Labelled {
        value: Value::Primitive(value),
        label: labels.bottom(),
    })?;
    Ok(Control::Value)
}
