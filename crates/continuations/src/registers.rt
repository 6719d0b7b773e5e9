//! The registers of a built-in: the values that no work keeps while it runs, and the operands of its work while it waits.

ghost use Rattle.std.specs.Prelude.{◌≡◌, ◌≤◌, ◌+◌, ◌-◌, ◌++◌, [], length, replicate, IfOk, OnOk};
ghost use Rattle.std.specs.List.{All};
ghost use Rattle.js_values.specs.Readings.{HasValue};
ghost use Rattle.es_meaning.specs.Plain.{undefined};
ghost use Rattle.continuations.specs.Answering.{IsAnswered, Reads, Writes};
ghost use Rattle.continuations.specs.Loads.{Adds};
ghost use Rattle.continuations.specs.Pending.{values_of};

use crate::continuation::Control;
use crate::stack::Stack;
use flow_text::OutOfMemory;
use js_number::Primitive;
use js_values::{Labelled, Value};
use native_protocol::Reg;
use origin_labels::Labels;
use std::alloc::Global;

/// So many registers hold undefined, which depends on nothing.
fn lay_undefined<'p, L: Labels>(
    labels: &L,
    stack: &mut Stack<'p, L::Label>,
    none: L::Label,
    count: u32,
) -> Result<(), OutOfMemory>
    requires { L.made labels.now none }
    ensures tasks { stack.new.tasks ≡ stack.old.tasks }
    ensures laid { OnOk result (stack.new.loose ≡ stack.old.loose ++ replicate count (record { value = undefined; label = none })) }
{
    let _store = labels;
    for _ in 0..count {
        stack.lay(Labelled {
            value: Value::Primitive(Primitive::Undefined),
            label: none,
        })?;
    }
    Ok(())
}

/// A register behind all others gets a value. Those between hold undefined.
#[tactic(auto, using(crate::proofs::RegisterLaws::appended_size))]
fn append_register<'p, L: Labels>(
    labels: &L,
    stack: &mut Stack<'p, L::Label>,
    count: u32,
    at: u32,
    value: Labelled<L::Label>,
) -> Result<u32, OutOfMemory>
    requires loose { length stack.old.loose ≡ count }
    requires behind { count ≤ at }
    requires value { HasValue (L.made labels.now) value }
    requires made { All (HasValue (L.made labels.now)) stack.old.loose }
    ensures tasks { stack.new.tasks ≡ stack.old.tasks }
    ensures written { IfOk result (λ n. Writes L.made L.meaning labels.now (record { 0 = at }) value stack.old.loose stack.new.loose) }
    ensures length { IfOk result (λ n. length stack.new.loose ≡ n) }
    ensures made { IfOk result (λ n. All (HasValue (L.made labels.now)) stack.new.loose) }
{
    let Some(more) = at.checked_add(1) else {
        return Err(OutOfMemory);
    };
    let none = labels.bottom();
    lay_undefined(labels, stack, none, at - count)?;
    stack.lay(value)?;
    Ok(more)
}

/// A register gets a value. Answers how many registers there are then.
#[tactic(auto, using(crate::proofs::RegisterLaws::set_writes, crate::proofs::RegisterLaws::set_has))]
pub fn write_register<'p, L: Labels>(
    labels: &L,
    stack: &mut Stack<'p, L::Label>,
    count: u32,
    to: Reg,
    value: Labelled<L::Label>,
) -> Result<u32, OutOfMemory>
    requires loose { length stack.old.loose ≡ count }
    requires value { HasValue (L.made labels.now) value }
    requires made { All (HasValue (L.made labels.now)) stack.old.loose }
    ensures tasks { stack.new.tasks ≡ stack.old.tasks }
    ensures written { IfOk result (λ n. Writes L.made L.meaning labels.now to value stack.old.loose stack.new.loose) }
    ensures length { IfOk result (λ n. length stack.new.loose ≡ n) }
    ensures made { IfOk result (λ n. All (HasValue (L.made labels.now)) stack.new.loose) }
{
    let Ok(at) = u32::try_from(to.0) else {
        return Err(OutOfMemory);
    };
    if at < count {
        stack.set(count as usize, at as usize, value);
        Ok(count)
    } else {
        append_register(labels, stack, count, at, value)
    }
}

/// What a register holds: undefined where nothing was written.
#[tactic(auto, using(crate::proofs::RegisterLaws::register_reads, crate::proofs::RegisterLaws::register_has, crate::proofs::RegisterLaws::none_reads))]
pub fn read_register<'p, L: Labels>(
    alloc: Global,
    labels: &L,
    stack: &Stack<'p, L::Label>,
    count: u32,
    from: Reg,
) -> Result<Labelled<L::Label>, OutOfMemory>
    requires loose { length stack.now.loose ≡ count }
    requires made { All (HasValue (L.made labels.now)) stack.now.loose }
    ensures reads { IfOk result (Reads L.made L.meaning labels.now from stack.now.loose) }
    ensures made { IfOk result (HasValue (L.made labels.now)) }
{
    match stack.loose(count as usize).get(from.0 as usize) {
        Some(value) => {
            let value = value.copy(alloc)?;
            Ok(value)
        }
        None => Ok(Labelled {
            value: Value::Primitive(Primitive::Undefined),
            label: labels.bottom(),
        }),
    }
}

/// What a built-in asked for is done: the value goes into a register, or nowhere, and the built-in asks next.
pub fn answered<'p, L: Labels>(
    labels: &L,
    stack: &mut Stack<'p, L::Label>,
    count: u32,
    to: Option<Reg>,
) -> Result<Control<'p>, OutOfMemory>
    requires loose { length stack.old.loose ≡ count + 1 }
    requires made { All (HasValue (L.made labels.now)) stack.old.loose }
    ensures goes_on { IfOk result (IsAnswered L.made L.meaning labels.now count to stack.old stack.new) }
    ensures tasks { stack.new.tasks ≡ stack.old.tasks }
    ensures values { IfOk result (λ next. length stack.new.loose ≡ values_of next) }
    ensures made { IfOk result (λ next. All (HasValue (L.made labels.now)) stack.new.loose) }
    ensures adds { IfOk result (Adds 0 stack.old stack.new) }
{
    let value = stack.pop();
    match to {
        None => Ok(Control::Request(count)),
        Some(register) => {
            let count = write_register(labels, stack, count, register, value)?;
            Ok(Control::Request(count))
        }
    }
}
