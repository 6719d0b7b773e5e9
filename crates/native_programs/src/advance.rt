//! Lines that ask for nothing, up to the next that does.

ghost use Rattle.std.specs.Prelude.{◌≡◌, IfOk};
ghost use Rattle.native_programs.specs.Advancing.{advance, pace, appends, pushes, leaves_by, exits, enters, one_less};
ghost use Rattle.native_programs.specs.Wordings.{unit_of, fits};
ghost use Rattle.native_programs.specs.declared.line.Line.TheVariants as line;

use crate::kept::Kept;
use crate::line::{
    Amount, Ask, Condition, Count, Counter, End, Exit, Line, Reason, TextSlot, Wording,
};
use crate::lines::{Left, Lines, Turn, behind_ends};
use flow_text::{OutOfMemory, Text};
use native_protocol::ErrorKind;
use std::alloc::Global;

/// What lines come to: a line that asks, a loop that is entered, or that the loop round them goes on or is left.
#[derive(Drop)]
pub enum Reached {
    Asks(Lines, Ask, Kept),
    Enters(Turn, Kept),
    NextTurn(Kept),
    LeavesLoop(Kept),
}

/// What stands where no line is.
pub(crate) const FAILING: Ask = Ask::Ends(End::Throw(ErrorKind::TypeError));

// So many units has a text at most.
const LONGEST: usize = 1_048_576;

// What one line comes to: it goes on with other lines, or stops there.
#[derive(Drop)]
pub(crate) enum Pace {
    On(Lines, Kept),
    Stops(Reached),
}

/// What the lines come to.
pub(crate) fn advance(
    alloc: Global,
    lines: &'static [Line],
    values: Kept,
) -> Result<Reached, OutOfMemory>
    ensures { IfOk result (λ to. to ≡ advance 0 lines.now values) }
{
    match lines {
        [] => Ok(Reached::Asks(Lines::of(lines), FAILING, values)),
        [line, more @ ..] => match make_pace(alloc, *line, more, values)? {
            Pace::On(on, values) => advance(alloc, on.items(), values),
            Pace::Stops(to) => Ok(to),
        },
    }
}

// What a line comes to, with those behind it.
fn make_pace(
    alloc: Global,
    line: Line,
    more: &'static [Line],
    values: Kept,
) -> Result<Pace, OutOfMemory>
    ensures { IfOk result (λ paced. paced ≡ pace line more.now values) }
{
    match line {
        Line::Ask(ask) => Ok(Pace::Stops(Reached::Asks(Lines::of(more), ask, values))),
        Line::AskIf(condition, ask) => Ok(asked_if(condition, ask, more, values)),
        Line::Let(counter, amount) => counted(counter, amount, more, values),
        Line::Set(slot, wording) => worded(alloc, slot, wording, more, values),
        Line::Append(to, from) => append(alloc, to, from, more, values),
        Line::Push(to, unit) => push(to, unit, more, values),
        Line::When(condition, exit) => Ok(exited_if(condition, exit, more, values)),
        Line::Go(exit) => Ok(exited(exit, more, values)),
        Line::If(condition) => passed_over(condition, more, values),
        Line::EndIf => Ok(Pace::On(Lines::of(more), values)),
        Line::Loop(count, first) => begun(alloc, count, first, more, values),
        Line::EndLoop => Ok(Pace::Stops(Reached::NextTurn(values))),
    }
}

fn asked_if(condition: Condition, ask: Ask, more: &'static [Line], values: Kept) -> Pace
    ensures { result ≡ pace (line.AskIf condition ask) more.now values }
{
    if values.values().holds(condition) {
        Pace::Stops(Reached::Asks(Lines::of(more), ask, values))
    } else {
        Pace::On(Lines::of(more), values)
    }
}

fn exited_if(condition: Condition, exit: Exit, more: &'static [Line], values: Kept) -> Pace
    ensures { result ≡ pace (line.When condition exit) more.now values }
{
    if values.values().holds(condition) {
        exited(exit, more, values)
    } else {
        Pace::On(Lines::of(more), values)
    }
}

fn passed_over(
    condition: Condition,
    more: &'static [Line],
    values: Kept,
) -> Result<Pace, OutOfMemory>
    ensures { IfOk result (λ paced. paced ≡ pace (line.If condition) more.now values) }
{
    let next = if values.values().holds(condition) {
        more
    } else {
        behind_ends(1, more)?
    };
    Ok(Pace::On(Lines::of(next), values))
}

fn counted(
    counter: Counter,
    amount: Amount,
    more: &'static [Line],
    mut values: Kept,
) -> Result<Pace, OutOfMemory>
    ensures { IfOk result (λ paced. paced ≡ pace (line.Let counter amount) more.now values) }
{
    let number = values.values().amount(amount)?;
    values.set_counter(counter, number);
    Ok(Pace::On(Lines::of(more), values))
}

fn worded(
    alloc: Global,
    slot: TextSlot,
    wording: Wording,
    more: &'static [Line],
    mut values: Kept,
) -> Result<Pace, OutOfMemory>
    ensures { IfOk result (λ paced. paced ≡ pace (line.Set slot wording) more.now values) }
{
    let text = values.values().worded(alloc, wording)?;
    values.set_text(slot, text);
    Ok(Pace::On(Lines::of(more), values))
}

fn begun(
    alloc: Global,
    count: Count,
    first: Ask,
    more: &'static [Line],
    mut values: Kept,
) -> Result<Pace, OutOfMemory>
    ensures { IfOk result (λ paced. paced ≡ pace (line.Loop count first) more.now values) }
{
    let left = one_less(values.values().turns(count)?);
    values.clear(alloc);
    entered(count, first, left, more, values)
}

fn append(
    alloc: Global,
    to: TextSlot,
    from: TextSlot,
    more: &'static [Line],
    mut values: Kept,
) -> Result<Pace, OutOfMemory>
    ensures { IfOk result (λ paced. paced ≡ appends to from more.now values) }
{
    if fits(values.values().text(to), values.values().text(from)) {
        let added = values.values().text(from).copy(alloc)?;
        values.append(to, added.units())?;
        Ok(Pace::On(Lines::of(more), values))
    } else {
        Ok(leaving_run(Reason::Text, more, values))
    }
}

fn push(
    to: TextSlot,
    unit: Counter,
    more: &'static [Line],
    mut values: Kept,
) -> Result<Pace, OutOfMemory>
    ensures { IfOk result (λ paced. paced ≡ pushes to unit more.now values) }
{
    if values.values().text(to).len() < LONGEST {
        let unit = unit_of(values.values().counter(unit));
        values.append(to, &[unit])?;
        Ok(Pace::On(Lines::of(more), values))
    } else {
        Ok(leaving_run(Reason::Text, more, values))
    }
}

// The unit of a number.
fn unit_of(number: i64) -> u16
    ensures { result ≡ unit_of number }
{
    (number.unsigned_abs() % (1 << 16)) as u16
}

// The run is left.
fn leaving_run(reason: Reason, more: &'static [Line], values: Kept) -> Pace
    ensures { result ≡ leaves_by reason more.now values }
{
    let ask = Ask::Ends(End::Leave(reason));
    Pace::Stops(Reached::Asks(Lines::of(more), ask, values))
}

fn exited(exit: Exit, more: &'static [Line], values: Kept) -> Pace
    ensures { result ≡ exits exit more.now values }
{
    match exit {
        Exit::Stay => Pace::On(Lines::of(more), values),
        Exit::Ends(end) => Pace::Stops(Reached::Asks(Lines::of(more), Ask::Ends(end), values)),
        Exit::NextTurn => Pace::Stops(Reached::NextTurn(values)),
        Exit::LeaveLoop => Pace::Stops(Reached::LeavesLoop(values)),
    }
}

fn entered(
    count: Count,
    first: Ask,
    left: Option<Left>,
    more: &'static [Line],
    values: Kept,
) -> Result<Pace, OutOfMemory>
    ensures { IfOk result (λ paced. paced ≡ enters count first more.now values left) }
{
    let behind = Lines::of(behind_ends(1, more)?);
    match left {
        None => Ok(Pace::On(behind, values)),
        Some(left) => {
            let turn = Turn {
                count,
                first,
                left,
                body: Lines::of(more),
                behind,
            };
            Ok(Pace::Stops(Reached::Enters(turn, values)))
        }
    }
}

/// How many turns are left where one more is taken, if there is one.
pub(crate) fn one_less(left: Left) -> Option<Left>
    ensures { result ≡ one_less left }
{
    match left {
        Left::Turns(turns) => {
            if turns == 0 {
                None
            } else {
                Some(Left::Turns(turns - 1))
            }
        }
        Left::Endless => Some(Left::Endless),
    }
}

// Whether both texts together are no longer than a text may be.
fn fits(a: &Text, b: &Text) -> bool
    ensures { result ≡ fits a.now b.now }
{
    a.len() <= LONGEST && b.len() <= LONGEST - a.len()
}
