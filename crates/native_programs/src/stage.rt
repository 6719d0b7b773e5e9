//! What a line that asks is at: its own request, or one of a conversion.

ghost use Rattle.std.specs.Prelude.{◌≡◌, IfOk};
ghost use Rattle.native_programs.specs.Stages.{stage_asks, stage_after, asked_after, object_seen, text_seen, text_goes, number_seen, number_goes, counted_as, end_after, looked, kept_as};

use crate::amounts::whole_of;
use crate::kept::Kept;
use crate::line::{Ask, Counter, End, Exit, Place, Reason, Sight, TextSlot, Whole};
use crate::sights::sees;
use crate::values::Values;
use flow_text::OutOfMemory;
use js_number::{Num, Primitive};
use native_protocol::{Answer, ErrorKind, HeldText, NumberOf, Progress, Request, Seen, TextOf};
use std::alloc::Global;

/// The request of a line, or a conversion that it began.
#[derive(Drop)]
pub enum Stage {
    Asking(Ask),
    Text(TextOf, TextSlot),
    Number(NumberOf, Counter, Whole),
}

/// Where an answer leads: behind the line, elsewhere, or to another stage of it.
#[derive(Drop)]
pub enum Outcome {
    Next(Kept),
    Exits(Exit, Kept),
    Waits(Stage, Kept),
}

// A value that is needed and isn't there.
const TYPE_ERROR: Exit = Exit::Ends(End::Throw(ErrorKind::TypeError));

const WRAPPER: Exit = Exit::Ends(End::Leave(Reason::Wrapper));

// Behind what is given.
const RETURNS: End = End::Return(Place::Free(2));

impl Stage {
    /// What it asks for.
    pub(crate) fn request(&self, alloc: Global, values: &Values) -> Result<Request, OutOfMemory>
        ensures { IfOk result (λ request. request ≡ stage_asks self.now values.now) }
    {
        match self {
            Stage::Asking(ask) => values.request(alloc, *ask),
            Stage::Text(text, _) => text.request(alloc),
            Stage::Number(number, _, _) => number.request(alloc),
        }
    }

    /// Where an answer leads.
    pub(crate) fn after(
        self,
        alloc: Global,
        values: Kept,
        answer: Answer,
    ) -> Result<Outcome, OutOfMemory>
        ensures { IfOk result (λ outcome. outcome ≡ stage_after self values answer) }
    {
        match self {
            Stage::Asking(ask) => asked(alloc, ask, values, answer),
            Stage::Text(text, to) => Ok(text_goes(to, values, text.after(alloc, answer)?)),
            Stage::Number(number, to, whole) => {
                Ok(number_goes(to, whole, values, number.after(answer)))
            }
        }
    }
}

// Where the answer to a line's own request leads.
fn asked(alloc: Global, ask: Ask, values: Kept, answer: Answer) -> Result<Outcome, OutOfMemory>
    ensures { IfOk result (λ outcome. outcome ≡ asked_after ask values answer) }
{
    match ask {
        Ask::ToObject(_) => Ok(object_seen(&answer.seen(), values)),
        Ask::Look(_, sight, exit) => Ok(looked(sight, exit, values, answer.seen())),
        Ask::Text(at, sight, to, exit) => {
            text_seen(alloc, at, sight, to, exit, values, answer.seen())
        }
        Ask::Number(at, sight, to, whole, exit) => {
            number_seen(at, sight, to, whole, exit, values, answer.seen())
        }
        Ask::Ends(end) => Ok(Outcome::Waits(Stage::Asking(Ask::Ends(end_after(end))), values)),
        Ask::Get(_, _, _)
        | Ask::Has(_, _, _)
        | Ask::Put(_, _, _)
        | Ask::Delete(_, _, _)
        | Ask::Define(_, _, _, _)
        | Ask::Copy(_, _)
        | Ask::Same(_, _, _)
        | Ask::Make(_, _)
        | Ask::New(_, _)
        | Ask::NewFrom(_, _, _)
        | Ask::Call(_, _, _, _)
        | Ask::Bind(_, _, _, _) => Ok(Outcome::Next(values)),
    }
}

// Behind what a call gives it returns, and any other end stays as it is.
fn end_after(end: End) -> End
    ensures { result ≡ end_after end }
{
    match end {
        End::Give(_) => RETURNS,
        other => other,
    }
}

fn looked(sight: Sight, exit: Exit, mut values: Kept, seen: Seen) -> Outcome
    ensures { result ≡ looked sight exit values seen }
{
    let expected = sees(sight, &seen);
    values.set_seen(seen);
    if expected {
        Outcome::Next(values)
    } else {
        Outcome::Exits(exit, values)
    }
}

// ToObject (ECMA-262 9.9): a wrapper of another primitive value isn't offered.
fn object_seen(seen: &Seen, values: Kept) -> Outcome
    ensures { result ≡ object_seen seen.now values }
{
    match seen {
        Seen::Object(_) => Outcome::Next(values),
        Seen::Prim(Primitive::Undefined) | Seen::Prim(Primitive::Null) => {
            Outcome::Exits(TYPE_ERROR, values)
        }
        Seen::Prim(_) => Outcome::Exits(WRAPPER, values),
    }
}

fn text_seen(
    alloc: Global,
    at: Place,
    sight: Sight,
    to: TextSlot,
    exit: Exit,
    values: Kept,
    seen: Seen,
) -> Result<Outcome, OutOfMemory>
    ensures { IfOk result (λ outcome. outcome ≡ text_seen at sight to exit values seen) }
{
    if !sees(sight, &seen) {
        return Ok(Outcome::Exits(exit, values));
    }
    let before = values.values();
    let text = TextOf::register(before.register(at)?, before.free(0)?, before.free(1)?);
    Ok(text_goes(to, values, text.after(alloc, Answer::Seen(seen))?))
}

fn text_goes(to: TextSlot, values: Kept, progress: Progress<TextOf, HeldText>) -> Outcome
    ensures { result ≡ text_goes to values progress }
{
    match progress {
        Progress::Going(text) => Outcome::Waits(Stage::Text(text, to), values),
        Progress::Ready(held) => Outcome::Next(with_text(to, values, held)),
    }
}

// The text is kept, and the register that holds it.
fn with_text(to: TextSlot, mut values: Kept, held: HeldText) -> Kept
    ensures { result ≡ kept_as to held values }
{
    let HeldText { text, at } = held;
    values.set_text(to, text);
    values.set_held(at);
    values
}

fn number_seen(
    at: Place,
    sight: Sight,
    to: Counter,
    whole: Whole,
    exit: Exit,
    values: Kept,
    seen: Seen,
) -> Result<Outcome, OutOfMemory>
    ensures { IfOk result (λ outcome. outcome ≡ number_seen at sight to whole exit values seen) }
{
    if !sees(sight, &seen) {
        return Ok(Outcome::Exits(exit, values));
    }
    let before = values.values();
    let number = NumberOf::register(before.register(at)?, before.free(0)?, before.free(1)?);
    Ok(number_goes(to, whole, values, number.after(Answer::Seen(seen))))
}

fn number_goes(
    to: Counter,
    whole: Whole,
    values: Kept,
    progress: Progress<NumberOf, Num>,
) -> Outcome
    ensures { result ≡ number_goes to whole values progress }
{
    match progress {
        Progress::Going(number) => Outcome::Waits(Stage::Number(number, to, whole), values),
        Progress::Ready(number) => Outcome::Next(with_number(to, whole, values, &number)),
    }
}

// The whole number of it is kept, and the number.
fn with_number(to: Counter, whole: Whole, mut values: Kept, number: &Num) -> Kept
    ensures { result ≡ counted_as to whole number.now values }
{
    values.set_counter(to, whole_of(whole, *number));
    values.set_number(*number);
    values
}
