//! What acts came to, handed on to the built-in that asked for them.

ghost use Rattle.std.specs.Prelude.{◌≡◌, ◌<◌, ℕ, length, IfErr, IfOk, IfSome};
ghost use Rattle.std.specs.List.{All};
ghost use Rattle.flow_frames.specs.Stops.{IfStop};
ghost use Rattle.origin_labels.specs.Label.{Label};
ghost use Rattle.js_values.specs.Readings.{HasValue, IsReading, read_value};
ghost use Rattle.property_requests.specs.Owning.{HasParts};
ghost use Rattle.run_state.specs.declared.world.World.{World};
ghost use Rattle.run_state.specs.Accesses.{HasAccess, HasDefining, HasPutting, read_access, read_defining, read_putting};
ghost use Rattle.run_state.specs.Acts.{HasAnswer};
ghost use Rattle.continuations.specs.Stops.{HasStop};
ghost use Rattle.step_objects.specs.Standing.{StandsBy};
ghost use Rattle.step_requests.specs.Asked.{answered_to, entering_access, entering_defining, entering_putting, giving_parts, value_or_undefined};
ghost use Rattle.step_requests.specs.Doing.{Gives, IsQuiet, Leaves, Parts, Prints, Rests, Settles, SettlesPrinted, read_parts};
ghost use Rattle.channel_requests.specs.Answers.{HasPrinted, IfPrinted};

use crate::asked::OwnRegisters;
use crate::entering::{enter_getter, enter_length, enter_setter};
use crate::moved::Moved;
use channel_requests::Printed;
use continuations::{Control, Jump, Stack, leave_by, write_register};
use flow_frames::FlowFault;
use flow_text::OutOfMemory;
use js_number::Primitive;
use js_values::{Labelled, Value};
use native_protocol::{Answer, Reg};
use origin_labels::Labels;
use property_requests::OwnProperty;
use run_state::{Access, Defining, Outcome, Putting, SetLength};
use std::alloc::Global;

/// What an act went on with, or the next move where it threw or left the language.
#[derive(Drop)]
pub(crate) enum Went<'p, X> {
    On(X),
    Off(Control<'p>),
}

/// An act's answer: what it threw lies alone, in place of the registers.
pub(crate) fn go_on<'p, X: Drop, L: Labels>(
    labels: &L,
    stack: &mut Stack<'p, L::Label>,
    count: u32,
    came: Result<Outcome<X, L::Label>, FlowFault<L::Label>>,
) -> Result<Went<'p, X>, FlowFault<L::Label>>
    requires loose { length stack.old.loose ≡ count }
    requires made { HasAnswer (λ x. Unit {0}) (L.made labels.now) came }
    ensures parts { Parts (L.made labels.now) stack.old stack.new came result }
    ensures stopped { IfErr result (IfStop (HasStop (L.made labels.now))) }
{
    let came = came?;
    match came {
        Outcome::Goes(x) => Ok(Went::On(x)),
        Outcome::Throws(error) => {
            stack.clear(count as usize);
            stack.lay(error)?;
            Ok(Went::Off(Control::Jumps(Jump::Throws)))
        }
        Outcome::Leaves(why) => {
            stack.clear(count as usize);
            let next = leave_by(labels, stack, why)?;
            Ok(Went::Off(next))
        }
    }
}

/// What was asked for is done: its value goes into a register, or nowhere.
fn give<'p, L: Labels>(
    labels: &L,
    stack: &mut Stack<'p, L::Label>,
    count: u32,
    to: Option<Reg>,
    value: Labelled<L::Label>,
) -> Result<Moved<'p, L::Label>, OutOfMemory>
    requires loose { length stack.old.loose ≡ count }
    requires made { All (HasValue (L.made labels.now)) stack.old.loose }
    requires value { HasValue (L.made labels.now) value }
    ensures gives { IfOk result (Gives L.made L.meaning labels.now (λ tables inputs set functions reading steps vs. answered_to to steps vs (read_value reading value)) stack.old stack.new) }
    ensures quiet { IfOk result IsQuiet }
    ensures rests { IfOk result (Rests (L.made labels.now) stack.old stack.new) }
{
    match to {
        None => Ok(Moved::Asks(count, Answer::Done)),
        Some(register) => {
            let count = write_register(labels, stack, count, register, value)?;
            Ok(Moved::Asks(count, Answer::Done))
        }
    }
}

/// What comes behind an act: its value goes into a register, or nowhere.
pub(crate) fn hand_on<'p, L: Labels>(
    labels: &L,
    stack: &mut Stack<'p, L::Label>,
    count: u32,
    to: Option<Reg>,
    came: Result<Outcome<Labelled<L::Label>, L::Label>, FlowFault<L::Label>>,
) -> Result<Moved<'p, L::Label>, FlowFault<L::Label>>
    requires loose { length stack.old.loose ≡ count }
    requires made { All (HasValue (L.made labels.now)) stack.old.loose }
    requires came { HasAnswer (HasValue (L.made labels.now)) (L.made labels.now) came }
    ensures settles { Settles L.made L.meaning labels.now (λ reading. read_value reading) (λ tables inputs set functions reading. answered_to to) stack.old stack.new came result }
    ensures leaves { (world_old : World L.Label) (world_new : World L.Label) → StandsBy world_old world_new came → IfOk result (Leaves (L.made labels.now) stack.old stack.new world_old world_new) }
    ensures quiet { IfOk result IsQuiet }
    ensures stopped { IfErr result (IfStop (HasStop (L.made labels.now))) }
{
    let went = go_on(labels, stack, count, came)?;
    match went {
        Went::On(value) => {
            let moved = give(labels, stack, count, to, value)?;
            Ok(moved)
        }
        Went::Off(next) => Ok(Moved::Ends(next)),
    }
}

/// What comes behind a read: its value goes into the register, or its getter is called, and the built-in waits.
pub(crate) fn hand_on_access<'p, L: Labels>(
    labels: &L,
    stack: &mut Stack<'p, L::Label>,
    count: u32,
    to: Reg,
    came: Result<Outcome<Access<L::Label>, L::Label>, FlowFault<L::Label>>,
) -> Result<Moved<'p, L::Label>, FlowFault<L::Label>>
    requires loose { length stack.old.loose ≡ count }
    requires made { All (HasValue (L.made labels.now)) stack.old.loose }
    requires came { HasAnswer (HasAccess (L.made labels.now)) (L.made labels.now) came }
    ensures settles { Settles L.made L.meaning labels.now (λ reading. read_access reading) (λ tables inputs set functions reading. entering_access tables inputs set functions to) stack.old stack.new came result }
    ensures leaves { (world_old : World L.Label) (world_new : World L.Label) → StandsBy world_old world_new came → IfOk result (Leaves (L.made labels.now) stack.old stack.new world_old world_new) }
    ensures quiet { IfOk result IsQuiet }
    ensures stopped { IfErr result (IfStop (HasStop (L.made labels.now))) }
{
    let went = go_on(labels, stack, count, came)?;
    match went {
        Went::On(access) => {
            let moved = give_access(labels, stack, count, to, access)?;
            Ok(moved)
        }
        Went::Off(next) => Ok(Moved::Ends(next)),
    }
}

fn give_access<'p, L: Labels>(
    labels: &L,
    stack: &mut Stack<'p, L::Label>,
    count: u32,
    to: Reg,
    access: Access<L::Label>,
) -> Result<Moved<'p, L::Label>, OutOfMemory>
    requires loose { length stack.old.loose ≡ count }
    requires made { All (HasValue (L.made labels.now)) stack.old.loose }
    requires access { HasAccess (L.made labels.now) access }
    ensures gives { IfOk result (Gives L.made L.meaning labels.now (λ tables inputs set functions reading steps vs. entering_access tables inputs set functions to steps vs (read_access reading access)) stack.old stack.new) }
    ensures quiet { IfOk result IsQuiet }
    ensures rests { IfOk result (Rests (L.made labels.now) stack.old stack.new) }
{
    match access {
        Access::Value(value) => give(labels, stack, count, Some(to), value),
        Access::Getter {
            label,
            function,
            this,
        } => enter_getter(labels, stack, count, to, label, function, this),
    }
}

/// What comes behind a put: it is done; or its setter is called with the value, or the `length` of an array is set, and the built-in waits.
pub(crate) fn hand_on_putting<'p, L: Labels>(
    alloc: Global,
    labels: &L,
    stack: &mut Stack<'p, L::Label>,
    count: u32,
    value: Labelled<L::Label>,
    came: Result<Outcome<Putting<L::Label>, L::Label>, FlowFault<L::Label>>,
) -> Result<Moved<'p, L::Label>, FlowFault<L::Label>>
    requires loose { length stack.old.loose ≡ count }
    requires made { All (HasValue (L.made labels.now)) stack.old.loose }
    requires value { HasValue (L.made labels.now) value }
    requires came { HasAnswer (HasPutting (L.made labels.now)) (L.made labels.now) came }
    ensures settles { Settles L.made L.meaning labels.now (λ reading. read_putting reading) (λ tables inputs set functions reading. entering_putting tables inputs set functions (read_value reading value)) stack.old stack.new came result }
    ensures leaves { (world_old : World L.Label) (world_new : World L.Label) → StandsBy world_old world_new came → IfOk result (Leaves (L.made labels.now) stack.old stack.new world_old world_new) }
    ensures quiet { IfOk result IsQuiet }
    ensures stopped { IfErr result (IfStop (HasStop (L.made labels.now))) }
{
    let went = go_on(labels, stack, count, came)?;
    match went {
        Went::On(putting) => {
            let moved = give_putting(alloc, labels, stack, count, value, putting)?;
            Ok(moved)
        }
        Went::Off(next) => Ok(Moved::Ends(next)),
    }
}

fn give_putting<'p, L: Labels>(
    alloc: Global,
    labels: &L,
    stack: &mut Stack<'p, L::Label>,
    count: u32,
    value: Labelled<L::Label>,
    putting: Putting<L::Label>,
) -> Result<Moved<'p, L::Label>, OutOfMemory>
    requires loose { length stack.old.loose ≡ count }
    requires made { All (HasValue (L.made labels.now)) stack.old.loose }
    requires value { HasValue (L.made labels.now) value }
    requires putting { HasPutting (L.made labels.now) putting }
    ensures gives { IfOk result (Gives L.made L.meaning labels.now (λ tables inputs set functions reading steps vs. entering_putting tables inputs set functions (read_value reading value) steps vs (read_putting reading putting)) stack.old stack.new) }
    ensures quiet { IfOk result IsQuiet }
    ensures rests { IfOk result (Rests (L.made labels.now) stack.old stack.new) }
{
    match putting {
        Putting::Put => Ok(Moved::Asks(count, Answer::Done)),
        Putting::Setter {
            label,
            function,
            this,
        } => enter_setter(labels, stack, count, label, function, this, value),
        Putting::Length { label, array } => {
            enter_length(
                alloc,
                labels,
                stack,
                count,
                SetLength::Put,
                label,
                array,
                value,
            )
        }
    }
}

/// What comes behind a definition: it is done; or the `length` of an array is set, and the built-in waits.
pub(crate) fn hand_on_defining<'p, L: Labels>(
    alloc: Global,
    labels: &L,
    stack: &mut Stack<'p, L::Label>,
    count: u32,
    value: Option<Labelled<L::Label>>,
    came: Result<Outcome<Defining<L::Label>, L::Label>, FlowFault<L::Label>>,
) -> Result<Moved<'p, L::Label>, FlowFault<L::Label>>
    requires loose { length stack.old.loose ≡ count }
    requires made { All (HasValue (L.made labels.now)) stack.old.loose }
    requires value { IfSome value (HasValue (L.made labels.now)) }
    requires came { HasAnswer (HasDefining (L.made labels.now)) (L.made labels.now) came }
    ensures settles { Settles L.made L.meaning labels.now (λ reading. read_defining reading) (λ tables inputs set functions reading. entering_defining tables inputs set functions (value_or_undefined reading value)) stack.old stack.new came result }
    ensures leaves { (world_old : World L.Label) (world_new : World L.Label) → StandsBy world_old world_new came → IfOk result (Leaves (L.made labels.now) stack.old stack.new world_old world_new) }
    ensures quiet { IfOk result IsQuiet }
    ensures stopped { IfErr result (IfStop (HasStop (L.made labels.now))) }
{
    let went = go_on(labels, stack, count, came)?;
    match went {
        Went::On(defining) => {
            let moved = give_defining(alloc, labels, stack, count, value, defining)?;
            Ok(moved)
        }
        Went::Off(next) => Ok(Moved::Ends(next)),
    }
}

fn give_defining<'p, L: Labels>(
    alloc: Global,
    labels: &L,
    stack: &mut Stack<'p, L::Label>,
    count: u32,
    value: Option<Labelled<L::Label>>,
    defining: Defining<L::Label>,
) -> Result<Moved<'p, L::Label>, OutOfMemory>
    requires loose { length stack.old.loose ≡ count }
    requires made { All (HasValue (L.made labels.now)) stack.old.loose }
    requires value { IfSome value (HasValue (L.made labels.now)) }
    requires defining { HasDefining (L.made labels.now) defining }
    ensures gives { IfOk result (Gives L.made L.meaning labels.now (λ tables inputs set functions reading steps vs. entering_defining tables inputs set functions (value_or_undefined reading value) steps vs (read_defining reading defining)) stack.old stack.new) }
    ensures quiet { IfOk result IsQuiet }
    ensures rests { IfOk result (Rests (L.made labels.now) stack.old stack.new) }
{
    match defining {
        Defining::Defined { .. } => Ok(Moved::Asks(count, Answer::Done)),
        Defining::Length {
            label,
            array,
            marks,
        } => {
            let how = SetLength::Define(marks);
            let value = given_or_undefined(labels, value);
            enter_length(alloc, labels, stack, count, how, label, array, value)
        }
    }
}

/// A value that is given, or undefined.
fn given_or_undefined<L: Labels>(
    labels: &L,
    value: Option<Labelled<L::Label>>,
) -> Labelled<L::Label>
    requires { IfSome value (HasValue (L.made labels.now)) }
    ensures made { HasValue (L.made labels.now) result }
    ensures is { (reading : L.Label → Label) → IsReading L.made L.meaning labels.now reading → read_value reading result ≡ value_or_undefined reading value }
{
    match value {
        Some(value) => value,
        None => Labelled {
            value: Value::Primitive(Primitive::Undefined),
            label: labels.bottom(),
        },
    }
}

/// What comes behind the question for an own property: its four parts go into registers.
pub(crate) fn hand_on_own<'p, L: Labels>(
    labels: &L,
    stack: &mut Stack<'p, L::Label>,
    count: u32,
    to: OwnRegisters,
    came: Result<Outcome<OwnProperty<L::Label>, L::Label>, FlowFault<L::Label>>,
) -> Result<Moved<'p, L::Label>, FlowFault<L::Label>>
    requires loose { length stack.old.loose ≡ count }
    requires made { All (HasValue (L.made labels.now)) stack.old.loose }
    requires came { HasAnswer (HasParts (L.made labels.now)) (L.made labels.now) came }
    ensures settles { Settles L.made L.meaning labels.now (λ reading. read_parts reading) (λ tables inputs set functions reading. giving_parts to) stack.old stack.new came result }
    ensures leaves { (world_old : World L.Label) (world_new : World L.Label) → StandsBy world_old world_new came → IfOk result (Leaves (L.made labels.now) stack.old stack.new world_old world_new) }
    ensures quiet { IfOk result IsQuiet }
    ensures stopped { IfErr result (IfStop (HasStop (L.made labels.now))) }
{
    let went = go_on(labels, stack, count, came)?;
    match went {
        Went::On(property) => {
            let moved = give_parts(labels, stack, count, to, property)?;
            Ok(moved)
        }
        Went::Off(next) => Ok(Moved::Ends(next)),
    }
}

fn give_parts<'p, L: Labels>(
    labels: &L,
    stack: &mut Stack<'p, L::Label>,
    count: u32,
    to: OwnRegisters,
    property: OwnProperty<L::Label>,
) -> Result<Moved<'p, L::Label>, OutOfMemory>
    requires loose { length stack.old.loose ≡ count }
    requires made { All (HasValue (L.made labels.now)) stack.old.loose }
    requires parts { HasParts (L.made labels.now) property }
    ensures gives { IfOk result (Gives L.made L.meaning labels.now (λ tables inputs set functions reading steps vs. giving_parts to steps vs (read_parts reading property)) stack.old stack.new) }
    ensures quiet { IfOk result IsQuiet }
    ensures rests { IfOk result (Rests (L.made labels.now) stack.old stack.new) }
{
    let one = write_register(labels, stack, count, to.marks, property.marks)?;
    let two = write_register(labels, stack, one, to.value, property.value)?;
    let three = write_register(labels, stack, two, to.get, property.get)?;
    let four = write_register(labels, stack, three, to.set, property.set)?;
    Ok(Moved::Asks(four, Answer::Done))
}

/// What comes behind a line: it is handed out, and the built-in asks next.
pub(crate) fn hand_on_printed<'p, L: Labels>(
    labels: &L,
    stack: &mut Stack<'p, L::Label>,
    count: u32,
    came: Result<Outcome<Printed<L::Label>, L::Label>, FlowFault<L::Label>>,
) -> Result<Moved<'p, L::Label>, FlowFault<L::Label>>
    requires loose { length stack.old.loose ≡ count }
    requires made { All (HasValue (L.made labels.now)) stack.old.loose }
    requires came { HasAnswer (HasPrinted (L.made labels.now)) (L.made labels.now) came }
    ensures settles { SettlesPrinted L.made L.meaning labels.now stack.old stack.new came result }
    ensures leaves { (world : World L.Label) → IfOk result (Leaves (L.made labels.now) stack.old stack.new world world) }
    ensures printed { (channels : ℕ) → IfOk came (IfPrinted (λ p. p.channel < channels)) → IfOk result (Prints (L.made labels.now) channels) }
    ensures stopped { IfErr result (IfStop (HasStop (L.made labels.now))) }
{
    let went = go_on(labels, stack, count, came)?;
    match went {
        Went::On(line) => Ok(Moved::Prints(count, line)),
        Went::Off(next) => Ok(Moved::Ends(next)),
    }
}
