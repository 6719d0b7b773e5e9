//! What is entered for a built-in, which waits: functions that it calls or constructs with, the getters and setters that its reads and puts came to, and
//! the conversions of a value for the `length` of an array.

ghost use Rattle.std.specs.Prelude.{◌≡◌, [], ◌∷◌, ◌++◌, map, length, IfOk, OnOk, Some, None};
ghost use Rattle.std.specs.List.{All};
ghost use Rattle.js_values.specs.declared.value.Value.TheVariants as kinds;
ghost use Rattle.js_values.specs.Readings.{HasValue, read_value};
ghost use Rattle.flow_meaning.specs.Tracked.{has_getter, has_setter};
ghost use Rattle.continuations.specs.declared.continuation.Continuation.TheVariants as continuation;
ghost use Rattle.continuations.specs.Answering.{Reads};
ghost use Rattle.step_requests.specs.Asked.{asked_plan, entering_access, entering_putting, length_entered};
ghost use Rattle.step_requests.specs.Doing.{Gives, HeldIn, IsQuiet, Rests};
ghost use Rattle.step_requests.specs.declared.asked.Asked.TheVariants as asked;

use crate::moved::Moved;
use continuations::{Continuation, Control, Stack, begin_length, read_register};
use flow_text::OutOfMemory;
use js_values::{Labelled, ObjId, Value};
use native_protocol::{Reg, RegList};
use origin_labels::Labels;
use run_state::SetLength;
use std::alloc::Global;

/// A function, or an array, as a value.
fn called<T>(function: ObjId, label: T) -> Labelled<T>
    ensures { result ≡ record { value = kinds.Object function; label = label } }
{
    Labelled {
        value: Value::Object(function),
        label,
    }
}

/// A getter is called, and what it gives goes into the register.
pub(crate) fn enter_getter<'p, L: Labels>(
    _labels: &L,
    stack: &mut Stack<'p, L::Label>,
    count: u32,
    to: Reg,
    label: L::Label,
    function: ObjId,
    this: Labelled<L::Label>,
) -> Result<Moved<'p, L::Label>, OutOfMemory>
    requires loose { length stack.old.loose ≡ count }
    requires made { All (HasValue (L.made _labels.now)) stack.old.loose }
    requires label { L.made _labels.now label }
    requires this { HasValue (L.made _labels.now) this }
    ensures gives { IfOk result (Gives L.made L.meaning _labels.now (λ tables inputs set functions reading steps vs. entering_access tables inputs set functions to steps vs (has_getter (reading label) function (read_value reading this))) stack.old stack.new) }
    ensures quiet { IfOk result IsQuiet }
    ensures rests { IfOk result (Rests (L.made _labels.now) stack.old stack.new) }
{
    stack.push(Continuation::Answered(count, Some(to)))?;
    stack.lay(this)?;
    stack.lay(called(function, label))?;
    Ok(Moved::Waits(Control::Call(0)))
}

/// A setter is called with a value.
pub(crate) fn enter_setter<'p, L: Labels>(
    _labels: &L,
    stack: &mut Stack<'p, L::Label>,
    count: u32,
    label: L::Label,
    function: ObjId,
    this: Labelled<L::Label>,
    value: Labelled<L::Label>,
) -> Result<Moved<'p, L::Label>, OutOfMemory>
    requires loose { length stack.old.loose ≡ count }
    requires made { All (HasValue (L.made _labels.now)) stack.old.loose }
    requires label { L.made _labels.now label }
    requires this { HasValue (L.made _labels.now) this }
    requires value { HasValue (L.made _labels.now) value }
    ensures gives { IfOk result (Gives L.made L.meaning _labels.now (λ tables inputs set functions reading steps vs. entering_putting tables inputs set functions (read_value reading value) steps vs (has_setter (reading label) function (read_value reading this))) stack.old stack.new) }
    ensures quiet { IfOk result IsQuiet }
    ensures rests { IfOk result (Rests (L.made _labels.now) stack.old stack.new) }
{
    stack.push(Continuation::Answered(count, None))?;
    stack.lay(this)?;
    stack.lay(called(function, label))?;
    stack.lay(value)?;
    Ok(Moved::Waits(Control::Call(1)))
}

/// The `length` of an array is set, by base, key and walk with this label.
pub(crate) fn enter_length<'p, L: Labels>(
    alloc: Global,
    _labels: &L,
    stack: &mut Stack<'p, L::Label>,
    count: u32,
    how: SetLength,
    label: L::Label,
    array: ObjId,
    value: Labelled<L::Label>,
) -> Result<Moved<'p, L::Label>, OutOfMemory>
    requires loose { length stack.old.loose ≡ count }
    requires made { All (HasValue (L.made _labels.now)) stack.old.loose }
    requires label { L.made _labels.now label }
    requires value { HasValue (L.made _labels.now) value }
    ensures gives { IfOk result (Gives L.made L.meaning _labels.now (λ tables inputs set functions reading steps vs. length_entered tables inputs set functions how (reading label) array.0 (read_value reading value) steps vs) stack.old stack.new) }
    ensures rests { IfOk result (Rests (L.made _labels.now) stack.old stack.new) }
    ensures quiet { IfOk result IsQuiet }
{
    stack.push(Continuation::Answered(count, None))?;
    let next = begin_length(alloc, stack, how, called(array, label), value)?;
    Ok(Moved::Waits(next))
}

/// What registers hold.
pub(crate) fn read_registers<'p, L: Labels>(
    alloc: Global,
    labels: &L,
    stack: &Stack<'p, L::Label>,
    count: u32,
    registers: &[Reg],
) -> Result<Vec<Labelled<L::Label>>, OutOfMemory>
    requires loose { length stack.now.loose ≡ count }
    requires made { All (HasValue (L.made labels.now)) stack.now.loose }
    ensures reads { IfOk result (λ values. HeldIn L.made L.meaning labels.now registers.now stack.now.loose values.items) }
    ensures made { IfOk result (λ values. All (HasValue (L.made labels.now)) values.items) }
{
    let mut values = Vec::new(alloc);
    'registers: for register in registers {
        let value = read_one(alloc, labels, stack, count, register)?;
        values.push(value)?;
    }
    Ok(values)
}

/// What a register of a list holds.
fn read_one<'p, L: Labels>(
    alloc: Global,
    labels: &L,
    stack: &Stack<'p, L::Label>,
    count: u32,
    register: &Reg,
) -> Result<Labelled<L::Label>, OutOfMemory>
    requires loose { length stack.now.loose ≡ count }
    requires made { All (HasValue (L.made labels.now)) stack.now.loose }
    ensures reads { IfOk result (Reads L.made L.meaning labels.now register.now stack.now.loose) }
    ensures made { IfOk result (HasValue (L.made labels.now)) }
{
    read_register(alloc, labels, stack, count, *register)
}

/// Lays values on top.
fn lay_all<'p, T: Copy>(
    alloc: Global,
    stack: &mut Stack<'p, T>,
    values: &[Labelled<T>],
) -> Result<(), OutOfMemory>
    ensures tasks { stack.new.tasks ≡ stack.old.tasks }
    ensures laid { OnOk result (stack.new.loose ≡ stack.old.loose ++ values.now) }
{
    for value in values {
        stack.lay(value.copy(alloc)?)?;
    }
    Ok(())
}

/// How many values there are.
fn count_of<T>(values: &[Labelled<T>]) -> Result<u32, OutOfMemory>
    ensures { IfOk result (λ n. n ≡ length values.now) }
{
    match u32::try_from(values.len()) {
        Ok(count) => Ok(count),
        Err(_) => Err(OutOfMemory),
    }
}

/// A value is called.
pub(crate) fn call<'p, L: Labels>(
    alloc: Global,
    labels: &L,
    stack: &mut Stack<'p, L::Label>,
    count: u32,
    callee: Reg,
    this: Reg,
    args: &RegList,
    to: Reg,
) -> Result<Moved<'p, L::Label>, OutOfMemory>
    requires loose { length stack.old.loose ≡ count }
    requires made { All (HasValue (L.made labels.now)) stack.old.loose }
    ensures gives { IfOk result (Gives L.made L.meaning labels.now (λ tables inputs set functions reading. asked_plan tables inputs set functions (asked.Call callee this args.now to)) stack.old stack.new) }
    ensures quiet { IfOk result IsQuiet }
    ensures rests { IfOk result (Rests (L.made labels.now) stack.old stack.new) }
{
    let callee = read_register(alloc, labels, stack, count, callee)?;
    let this = read_register(alloc, labels, stack, count, this)?;
    let args = read_registers(alloc, labels, stack, count, args.items())?;
    let given = count_of(&args)?;
    stack.push(Continuation::Answered(count, Some(to)))?;
    stack.lay(this)?;
    stack.lay(callee)?;
    lay_all(alloc, stack, &args)?;
    Ok(Moved::Waits(Control::Call(given)))
}

/// A value constructs.
pub(crate) fn construct<'p, L: Labels>(
    alloc: Global,
    labels: &L,
    stack: &mut Stack<'p, L::Label>,
    count: u32,
    callee: Reg,
    args: &RegList,
    to: Reg,
) -> Result<Moved<'p, L::Label>, OutOfMemory>
    requires loose { length stack.old.loose ≡ count }
    requires made { All (HasValue (L.made labels.now)) stack.old.loose }
    ensures gives { IfOk result (Gives L.made L.meaning labels.now (λ tables inputs set functions reading. asked_plan tables inputs set functions (asked.Construct callee args.now to)) stack.old stack.new) }
    ensures quiet { IfOk result IsQuiet }
    ensures rests { IfOk result (Rests (L.made labels.now) stack.old stack.new) }
{
    let callee = read_register(alloc, labels, stack, count, callee)?;
    let args = read_registers(alloc, labels, stack, count, args.items())?;
    let given = count_of(&args)?;
    stack.push(Continuation::Answered(count, Some(to)))?;
    stack.lay(callee)?;
    lay_all(alloc, stack, &args)?;
    Ok(Moved::Waits(Control::Construct(given)))
}
