//! What reads and puts came to: getters and setters are called.

ghost use Rattle.std.specs.Prelude.{◌≡◌, [], ◌∷◌, ◌++◌, length, IfOk, OnOk};
ghost use Rattle.js_values.specs.declared.value.Value.TheVariants as kinds;
ghost use Rattle.run_state.specs.declared.world.World.{World};
ghost use Rattle.run_state.specs.Accesses.{HasAccess, HasPutting, read_access, read_putting};
ghost use Rattle.continuations.specs.declared.continuation.Control.TheVariants as control;
ghost use Rattle.continuations.specs.Pending.{owns};
ghost use Rattle.step_references.specs.Moving.{Comes, IfGiven, Moved, entering_access, entering_putting, given_or};

use continuations::{Continuation, Control, Stack, begin_length};
use flow_text::OutOfMemory;
use js_values::{Labelled, ObjId, Value};
use origin_labels::Labels;
use run_state::{Access, Putting, SetLength};
use std::alloc::Global;

/// What a read came to: its value, or its getter is called.
#[inline(always)]
pub fn enter_access<'p, L: Labels>(
    _labels: &L,
    stack: &mut Stack<'p, L::Label>,
    access: Access<L::Label>,
) -> Result<Control<'p>, OutOfMemory>
    requires loose { length stack.old.loose ≡ 0 }
    requires made { HasAccess (L.made _labels.now) access }
    ensures goes_on { IfOk result (Comes (λ tables inputs set functions reading. entering_access tables inputs set functions reading (read_access reading access)) stack.old stack.new) }
    ensures moved { (world : World L.Label) → IfOk result (Moved (L.made _labels.now) 8 stack.old stack.new world world) }
{
    match access {
        Access::Value(value) => {
            stack.lay(value)?;
            Ok(Control::Value)
        }
        Access::Getter {
            label,
            function,
            this,
        } => {
            stack.lay(this)?;
            stack.lay(called(function, label))?;
            Ok(Control::Call(0))
        }
    }
}

/// What a put came to: the value that its assignment gives; or its setter is called, or the `length` of an array is set, and then that.
#[inline(always)]
pub(crate) fn enter_putting<'p, L: Labels>(
    alloc: Global,
    _labels: &L,
    stack: &mut Stack<'p, L::Label>,
    putting: Putting<L::Label>,
    value: Option<Labelled<L::Label>>,
    gives: Labelled<L::Label>,
) -> Result<Control<'p>, OutOfMemory>
    requires loose { length stack.old.loose ≡ 0 }
    requires made { HasPutting (L.made _labels.now) putting }
    requires value { IfGiven (L.made _labels.now) value }
    requires gives { L.made _labels.now gives.label }
    ensures goes_on { IfOk result (Comes (λ tables inputs set functions reading. entering_putting value gives tables inputs set functions reading (read_putting reading putting)) stack.old stack.new) }
    ensures moved { (world : World L.Label) → IfOk result (Moved (L.made _labels.now) 11 stack.old stack.new world world) }
{
    match putting {
        Putting::Put => {
            stack.lay(gives)?;
            Ok(Control::Value)
        }
        Putting::Setter {
            label,
            function,
            this,
        } => {
            let given = given_or(alloc, value, &gives)?;
            stack.lay(gives)?;
            let next = begin_setter(
                stack,
                Continuation::GiveBehind,
                called(function, label),
                this,
                given,
            )?;
            Ok(next)
        }
        Putting::Length { label, array } => {
            let given = given_or(alloc, value, &gives)?;
            stack.lay(gives)?;
            stack.push(Continuation::GiveBehind)?;
            let next = begin_length(alloc, stack, SetLength::Put, called(array, label), given)?;
            Ok(next)
        }
    }
}

/// A function, or an array, as a value.
#[inline(always)]
pub(crate) fn called<T>(function: ObjId, label: T) -> Labelled<T>
    ensures { result ≡ record { value = kinds.Object function; label = label } }
{
    Labelled {
        value: Value::Object(function),
        label,
    }
}

/// The value that a setter is given.
#[inline(always)]
fn given_or<T: Copy>(
    alloc: Global,
    value: Option<Labelled<T>>,
    gives: &Labelled<T>,
) -> Result<Labelled<T>, OutOfMemory>
    ensures { IfOk result (λ v. v ≡ given_or value gives.now) }
{
    match value {
        Some(v) => Ok(v),
        None => gives.copy(alloc),
    }
}

/// A setter is called with a value, above work that keeps the values that lie loose.
pub(crate) fn begin_setter<'p, T: Copy>(
    stack: &mut Stack<'p, T>,
    work: Continuation<'p>,
    setter: Labelled<T>,
    this: Labelled<T>,
    given: Labelled<T>,
) -> Result<Control<'p>, OutOfMemory>
    requires { owns work ≡ length stack.old.loose }
    ensures calls { IfOk result (λ move. move ≡ control.Call 1) }
    ensures laid { OnOk result (stack.new ≡ record { tasks = stack.old.tasks ++ (work.entry, stack.old.loose) ∷ []; loose = this ∷ setter ∷ given ∷ [] }) }
{
    stack.push(work)?;
    stack.lay(this)?;
    stack.lay(setter)?;
    stack.lay(given)?;
    Ok(Control::Call(1))
}
