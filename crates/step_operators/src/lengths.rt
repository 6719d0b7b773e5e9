//! Behind the conversions of a value that the `length` of an array is given (ECMA-262 15.4.5.1, steps 3.c and 3.d).

ghost use Rattle.std.specs.Prelude.{◌≡◌, pos, length, Ok, IfErr, IfOk};
ghost use Rattle.std.specs.List.{All};
ghost use Rattle.origin_labels.specs.Stores.{IsKept};
ghost use Rattle.flow_frames.specs.Stops.{IfStop};
ghost use Rattle.js_number.specs.declared.num.Num.TheVariants as nums;
ghost use Rattle.js_number.specs.Compare.{equal_numbers};
ghost use Rattle.js_values.specs.Readings.{HasValue, read_value};
ghost use Rattle.es_meaning.specs.Plain.{number_in};
ghost use Rattle.flow_meaning.specs.Planned.{end_first, gave};
ghost use Rattle.run_state.specs.Worlds.{Belongs, Grows};
ghost use Rattle.continuations.specs.declared.continuation.Continuation.TheVariants as continuation;
ghost use Rattle.continuations.specs.Pending.{end_both, sets_length};
ghost use Rattle.continuations.specs.Settings.{entrance};
ghost use Rattle.continuations.specs.Stops.{HasStop};
ghost use Rattle.step_references.specs.Moving.{Begun, Moved, Resumed};
ghost use Rattle.step_operators.specs.Lengths.{counted_of, range_error};

use crate::instances::object_in;
use continuations::{Control, Stack, convert_again, leave_by};
use flow_frames::FlowFault;
use flow_text::OutOfMemory;
use js_number::{LeftNumbers, Num, to_number, to_uint32};
use js_values::{Labelled, Value};
use native_protocol::ErrorKind;
use origin_labels::Labels;
use property_access::throw_error;
use property_requests::set_length;
use run_state::{Leaving, SetLength, World};
use std::alloc::Global;
use step_references::hand_on;

/// The value came to a primitive one for the first time. It lies below that, on the array.
pub fn length_once<'p, L: Labels>(
    alloc: Global,
    labels: &L,
    world: &World<L::Label>,
    stack: &mut Stack<'p, L::Label>,
    how: SetLength,
) -> Result<Control<'p>, OutOfMemory>
    requires loose { length stack.old.loose ≡ 3 }
    requires made { All (HasValue (L.made labels.now)) stack.old.loose }
    ensures goes_on { IfOk result (λ next. Resumed L.made L.meaning labels.now (continuation.LengthOnce how) stack.old stack.new world.now world.now (Ok next)) }
    ensures moved { IfOk result (Moved (L.made labels.now) 8 stack.old stack.new world.now world.now) }
{
    let first = stack.pop();
    let value = stack.pop();
    let array = stack.pop();
    behind_first(alloc, labels, world, stack, how, array, value, first)
}

/// What the value came to has to be a number of the language, and the value is converted once more.
fn behind_first<'p, L: Labels>(
    alloc: Global,
    labels: &L,
    world: &World<L::Label>,
    stack: &mut Stack<'p, L::Label>,
    how: SetLength,
    array: Labelled<L::Label>,
    value: Labelled<L::Label>,
    first: Labelled<L::Label>,
) -> Result<Control<'p>, OutOfMemory>
    requires loose { length stack.old.loose ≡ 0 }
    requires array { L.made labels.now array.label }
    requires value { L.made labels.now value.label }
    requires first { L.made labels.now first.label }
    ensures goes_on { IfOk result (λ next. Begun L.made L.meaning labels.now (λ tables inputs set functions reading e. end_first (entrance tables inputs set functions) (reading array.label) (read_value reading value) (sets_length tables inputs set functions how (read_value reading array)) (gave (read_value reading first))) stack.old stack.new world.now world.now (Ok next)) }
    ensures moved { IfOk result (Moved (L.made labels.now) 8 stack.old stack.new world.now world.now) }
{
    match number_in(&first.value) {
        Ok(_) => convert_again(alloc, stack, how, array, value, first),
        Err(LeftNumbers) => leave_by(labels, stack, Leaving::Number),
    }
}

/// It came to a primitive one once more, which lies on what it came to first.
pub fn length_twice<'p, L: Labels>(
    alloc: Global,
    labels: &mut L,
    world: &mut World<L::Label>,
    stack: &mut Stack<'p, L::Label>,
    how: SetLength,
) -> Result<Control<'p>, FlowFault<L::Label>>
    requires loose { length stack.old.loose ≡ 3 }
    requires made { All (HasValue (L.made labels.old)) stack.old.loose }
    requires belongs { Belongs L.made L.meaning labels.old world.old }
    ensures goes_on { Resumed L.made L.meaning labels.new (continuation.LengthTwice how) stack.old stack.new world.old world.new result }
    ensures moved { IfOk result (Moved (L.made labels.new) 6 stack.old stack.new world.old world.new) }
    ensures stopped { IfErr result (IfStop (HasStop (L.made labels.new))) }
    ensures belongs { Belongs L.made L.meaning labels.new world.new }
    ensures grows { Grows world.old world.new }
    ensures kept { IsKept L.made L.meaning L.room L.firm labels.old labels.new }
{
    let second = stack.pop();
    let first = stack.pop();
    let array = stack.pop();
    behind_both(alloc, labels, world, stack, how, array, first, second)
}

/// The `length` is given the number, if ToUint32 of the first is the second.
fn behind_both<'p, L: Labels>(
    alloc: Global,
    labels: &mut L,
    world: &mut World<L::Label>,
    stack: &mut Stack<'p, L::Label>,
    how: SetLength,
    array: Labelled<L::Label>,
    first: Labelled<L::Label>,
    second: Labelled<L::Label>,
) -> Result<Control<'p>, FlowFault<L::Label>>
    requires loose { length stack.old.loose ≡ 0 }
    requires array { L.made labels.old array.label }
    requires first { L.made labels.old first.label }
    requires second { L.made labels.old second.label }
    requires belongs { Belongs L.made L.meaning labels.old world.old }
    ensures goes_on { Begun L.made L.meaning labels.new (λ tables inputs set functions reading e. end_both tables inputs set functions (reading array.label) (sets_length tables inputs set functions how (read_value reading array)) (read_value reading first) (gave (read_value reading second))) stack.old stack.new world.old world.new result }
    ensures moved { IfOk result (Moved (L.made labels.new) 6 stack.old stack.new world.old world.new) }
    ensures stopped { IfErr result (IfStop (HasStop (L.made labels.new))) }
    ensures belongs { Belongs L.made L.meaning labels.new world.new }
    ensures grows { Grows world.old world.new }
    ensures kept { IsKept L.made L.meaning L.room L.firm labels.old labels.new }
{
    let given = labels.join(first.label, second.label)?;
    match counted(&first.value, &second.value) {
        Ok(Some(count)) => give_number(alloc, labels, world, stack, how, &array, count, given),
        Ok(None) => refuse_number(labels, world, stack, &array, given),
        Err(LeftNumbers) => {
            let next = leave_by(labels, stack, Leaving::Number)?;
            Ok(next)
        }
    }
}

/// The `length` is given a number, which has this label.
fn give_number<'p, L: Labels>(
    alloc: Global,
    labels: &mut L,
    world: &mut World<L::Label>,
    stack: &mut Stack<'p, L::Label>,
    how: SetLength,
    array: &Labelled<L::Label>,
    count: u32,
    given: L::Label,
) -> Result<Control<'p>, FlowFault<L::Label>>
    requires loose { length stack.old.loose ≡ 0 }
    requires array { L.made labels.old array.now.label }
    requires given { L.made labels.old given }
    requires belongs { Belongs L.made L.meaning labels.old world.old }
    ensures goes_on { Begun L.made L.meaning labels.new (λ tables inputs set functions reading e. sets_length tables inputs set functions how (read_value reading array.now) count (reading given)) stack.old stack.new world.old world.new result }
    ensures moved { IfOk result (Moved (L.made labels.new) 6 stack.old stack.new world.old world.new) }
    ensures stopped { IfErr result (IfStop (HasStop (L.made labels.new))) }
    ensures belongs { Belongs L.made L.meaning labels.new world.new }
    ensures grows { Grows world.old world.new }
    ensures kept { IsKept L.made L.meaning L.room L.firm labels.old labels.new }
{
    let object = object_in(&array.value);
    let answer = set_length(alloc, labels, world, how, object, array.label, count, given);
    hand_on(labels, stack, answer)
}

/// No `length` is such a number.
fn refuse_number<'p, L: Labels>(
    labels: &mut L,
    world: &mut World<L::Label>,
    stack: &mut Stack<'p, L::Label>,
    array: &Labelled<L::Label>,
    given: L::Label,
) -> Result<Control<'p>, FlowFault<L::Label>>
    requires loose { length stack.old.loose ≡ 0 }
    requires array { L.made labels.old array.now.label }
    requires given { L.made labels.old given }
    requires belongs { Belongs L.made L.meaning labels.old world.old }
    ensures goes_on { Begun L.made L.meaning labels.new (λ tables inputs set functions reading e. range_error (reading array.now.label) (reading given)) stack.old stack.new world.old world.new result }
    ensures moved { IfOk result (Moved (L.made labels.new) 6 stack.old stack.new world.old world.new) }
    ensures stopped { IfErr result (IfStop (HasStop (L.made labels.new))) }
    ensures belongs { Belongs L.made L.meaning labels.new world.new }
    ensures grows { Grows world.old world.new }
    ensures kept { IsKept L.made L.meaning L.room L.firm labels.old labels.new }
{
    let cause = labels.join(array.label, given)?;
    let answer = throw_error(labels, world, ErrorKind::RangeError, cause);
    hand_on(labels, stack, answer)
}

/// ToNumber of a value that was converted to a primitive one.
fn number_in(value: &Value) -> Result<Num, LeftNumbers>
    ensures { result ≡ number_in value.now }
{
    match value {
        Value::Primitive(p) => to_number(p),
        Value::Object(_) => Ok(Num::Nan),
    }
}

/// The `length` that both conversions come to, if they come to one.
fn counted(first: &Value, second: &Value) -> Result<Option<u32>, LeftNumbers>
    ensures { result ≡ counted_of first.now second.now }
{
    let m = number_in(first)?;
    let n = number_in(second)?;
    let count = to_uint32(m);
    if is_count(count, n) {
        Ok(Some(count))
    } else {
        Ok(None)
    }
}

/// Whether a number is this one.
fn is_count(count: u32, number: Num) -> bool
    ensures { result ≡ equal_numbers (nums.Int (pos count)) number }
{
    match number {
        Num::Int(n) => i64::from(count) == n.get(),
        Num::Nan => false,
    }
}
