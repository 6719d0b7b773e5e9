//! Callbacks for each element (ECMA-262 15.4.4.16 to 15.4.4.22), line by line.

use crate::shared::{ARRAY, ELEMENT, GAVE, MADE, NOTHING, PRESENT, TOTAL, TYPE_ERROR};
use js_values::Class;
use native_programs::Amount::{Next, Prior, Whole};
use native_programs::Args::{Element, Folded};
use native_programs::Ask::{
    Call, Copy, Define, Ends, Get, Has, Look, Make, New, Number, Put, ToObject,
};
use native_programs::Condition::{Given, Is, NotGiven};
use native_programs::Count::{Down, Up};
use native_programs::Counter::{Count, Index, Last, Length};
use native_programs::End::{Give, Return};
use native_programs::Exit::{Ends as GoesTo, LeaveLoop, NextTurn, Stay};
use native_programs::Line::{Ask, AskIf, EndIf, EndLoop, Go, If, Let, Loop, When};
use native_programs::Name::At;
use native_programs::Place::{Argument, This};
use native_programs::Sight::{Anything, Callable, NotTrue, True};
use native_programs::Whole::Uint32;
use native_programs::{Exit, Fresh, Line, Name};

const GIVES_TRUE: Exit = GoesTo(Give(Fresh::Truth(true)));

const GIVES_FALSE: Exit = GoesTo(Give(Fresh::Truth(false)));

// The callback is called with an element, its index and the whole.
const CALLED: Line = Ask(Call(Argument(0), Argument(1), Element(ELEMENT, MADE), GAVE));

/// `every` (15.4.4.16).
pub const EVERY: [Line; 12] = [
    Ask(ToObject(This)),
    Ask(Get(This, Name::Length, MADE)),
    Ask(Number(MADE, Anything, Length, Uint32, Stay)),
    Ask(Look(Argument(0), Callable, TYPE_ERROR)),
    Loop(Up(Index, Length), Has(This, At(Index), PRESENT)),
    Ask(Look(PRESENT, True, NextTurn)),
    Ask(Get(This, At(Index), ELEMENT)),
    Ask(Make(Fresh::Number(Index), MADE)),
    CALLED,
    Ask(Look(GAVE, True, GIVES_FALSE)),
    EndLoop,
    Ask(Ends(Give(Fresh::Truth(true)))),
];

/// `some` (15.4.4.17).
pub const SOME: [Line; 12] = [
    Ask(ToObject(This)),
    Ask(Get(This, Name::Length, MADE)),
    Ask(Number(MADE, Anything, Length, Uint32, Stay)),
    Ask(Look(Argument(0), Callable, TYPE_ERROR)),
    Loop(Up(Index, Length), Has(This, At(Index), PRESENT)),
    Ask(Look(PRESENT, True, NextTurn)),
    Ask(Get(This, At(Index), ELEMENT)),
    Ask(Make(Fresh::Number(Index), MADE)),
    CALLED,
    Ask(Look(GAVE, NotTrue, GIVES_TRUE)),
    EndLoop,
    Ask(Ends(Give(Fresh::Truth(false)))),
];

/// `forEach` (15.4.4.18).
pub const FOR_EACH: [Line; 11] = [
    Ask(ToObject(This)),
    Ask(Get(This, Name::Length, MADE)),
    Ask(Number(MADE, Anything, Length, Uint32, Stay)),
    Ask(Look(Argument(0), Callable, TYPE_ERROR)),
    Loop(Up(Index, Length), Has(This, At(Index), PRESENT)),
    Ask(Look(PRESENT, True, NextTurn)),
    Ask(Get(This, At(Index), ELEMENT)),
    Ask(Make(Fresh::Number(Index), MADE)),
    CALLED,
    EndLoop,
    Ask(Ends(Return(NOTHING))),
];

/// `map` (15.4.4.19).
pub const MAP: [Line; 15] = [
    Ask(ToObject(This)),
    Ask(Get(This, Name::Length, MADE)),
    Ask(Number(MADE, Anything, Length, Uint32, Stay)),
    Ask(Look(Argument(0), Callable, TYPE_ERROR)),
    Ask(New(Class::Array, ARRAY)),
    Ask(Make(Fresh::Number(Length), MADE)),
    Ask(Put(ARRAY, Name::Length, MADE)),
    Loop(Up(Index, Length), Has(This, At(Index), PRESENT)),
    Ask(Look(PRESENT, True, NextTurn)),
    Ask(Get(This, At(Index), ELEMENT)),
    Ask(Make(Fresh::Number(Index), MADE)),
    CALLED,
    Ask(Define(ARRAY, At(Index), GAVE, true)),
    EndLoop,
    Ask(Ends(Return(ARRAY))),
];

/// `filter` (15.4.4.20).
pub const FILTER: [Line; 15] = [
    Ask(ToObject(This)),
    Ask(Get(This, Name::Length, MADE)),
    Ask(Number(MADE, Anything, Length, Uint32, Stay)),
    Ask(Look(Argument(0), Callable, TYPE_ERROR)),
    Ask(New(Class::Array, ARRAY)),
    Loop(Up(Index, Length), Has(This, At(Index), PRESENT)),
    Ask(Look(PRESENT, True, NextTurn)),
    Ask(Get(This, At(Index), ELEMENT)),
    Ask(Make(Fresh::Number(Index), MADE)),
    CALLED,
    Ask(Look(GAVE, True, NextTurn)),
    Ask(Define(ARRAY, At(Count), ELEMENT, true)),
    Let(Count, Next(Count)),
    EndLoop,
    Ask(Ends(Return(ARRAY))),
];

/// `reduce` (15.4.4.21). `Count` tells whether a first value was found: kPresent of step 8.
pub const REDUCE: [Line; 22] = [
    Ask(ToObject(This)),
    Ask(Get(This, Name::Length, MADE)),
    Ask(Number(MADE, Anything, Length, Uint32, Stay)),
    Ask(Look(Argument(0), Callable, TYPE_ERROR)),
    AskIf(Given(1), Copy(Argument(1), TOTAL)),
    If(NotGiven(1)),
    Loop(Up(Index, Length), Has(This, At(Index), PRESENT)),
    Ask(Look(PRESENT, True, NextTurn)),
    Ask(Get(This, At(Index), TOTAL)),
    Let(Index, Next(Index)),
    Let(Count, Whole(1)),
    Go(LeaveLoop),
    EndLoop,
    When(Is(Count, 0), TYPE_ERROR),
    EndIf,
    Loop(Up(Index, Length), Has(This, At(Index), PRESENT)),
    Ask(Look(PRESENT, True, NextTurn)),
    Ask(Get(This, At(Index), ELEMENT)),
    Ask(Make(Fresh::Number(Index), MADE)),
    Ask(Call(Argument(0), NOTHING, Folded(TOTAL, ELEMENT, MADE), TOTAL)),
    EndLoop,
    Ask(Ends(Return(TOTAL))),
];

/// `reduceRight` (15.4.4.22). `Count` is as in `reduce`.
pub const REDUCE_RIGHT: [Line; 24] = [
    Ask(ToObject(This)),
    Ask(Get(This, Name::Length, MADE)),
    Ask(Number(MADE, Anything, Length, Uint32, Stay)),
    Ask(Look(Argument(0), Callable, TYPE_ERROR)),
    Let(Index, Prior(Length)),
    Let(Last, Whole(-1)),
    AskIf(Given(1), Copy(Argument(1), TOTAL)),
    If(NotGiven(1)),
    Loop(Down(Index, Last), Has(This, At(Index), PRESENT)),
    Ask(Look(PRESENT, True, NextTurn)),
    Ask(Get(This, At(Index), TOTAL)),
    Let(Index, Prior(Index)),
    Let(Count, Whole(1)),
    Go(LeaveLoop),
    EndLoop,
    When(Is(Count, 0), TYPE_ERROR),
    EndIf,
    Loop(Down(Index, Last), Has(This, At(Index), PRESENT)),
    Ask(Look(PRESENT, True, NextTurn)),
    Ask(Get(This, At(Index), ELEMENT)),
    Ask(Make(Fresh::Number(Index), MADE)),
    Ask(Call(Argument(0), NOTHING, Folded(TOTAL, ELEMENT, MADE), TOTAL)),
    EndLoop,
    Ask(Ends(Return(TOTAL))),
];
