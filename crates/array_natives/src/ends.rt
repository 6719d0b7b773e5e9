//! What is added and removed at the ends (ECMA-262 15.4.4.6, 15.4.4.7, 15.4.4.9, 15.4.4.13), line by line.

use crate::shared::{DELETED, ELEMENT, MADE, NOTHING, OTHER, PRESENT};
use native_programs::Amount::{Of, Passed, Plus, Prior, Whole};
use native_programs::Ask::{Delete, Ends, Get, Has, Look, Make, Number, Put, ToObject};
use native_programs::Condition::{Is, Sees};
use native_programs::Count::{Down, Up};
use native_programs::Counter::{Index, Items, Last, Length};
use native_programs::End::Return;
use native_programs::Exit::{NextTurn, Stay};
use native_programs::Line::{Ask, EndIf, EndLoop, Go, If, Let, Loop};
use native_programs::Name::{At, Before, BeforeSum, Sum};
use native_programs::Place::{ArgumentAt, This};
use native_programs::Sight::{Anything, True};
use native_programs::Whole::Uint32;
use native_programs::{Fresh, Line, Name};

/// `pop` (15.4.4.6). The new `length` is put as a text.
pub const POP: [Line; 14] = [
    Ask(ToObject(This)),
    Ask(Get(This, Name::Length, MADE)),
    Ask(Number(MADE, Anything, Length, Uint32, Stay)),
    If(Is(Length, 0)),
    Ask(Make(Fresh::Whole(0), MADE)),
    Ask(Put(This, Name::Length, MADE)),
    Ask(Ends(Return(NOTHING))),
    EndIf,
    Let(Index, Prior(Length)),
    Ask(Make(Fresh::Digits(Index), MADE)),
    Ask(Get(This, At(Index), ELEMENT)),
    Ask(Delete(This, At(Index), DELETED)),
    Ask(Put(This, Name::Length, MADE)),
    Ask(Ends(Return(ELEMENT))),
];

/// `push` (15.4.4.7).
pub const PUSH: [Line; 10] = [
    Ask(ToObject(This)),
    Ask(Get(This, Name::Length, MADE)),
    Ask(Number(MADE, Anything, Length, Uint32, Stay)),
    Let(Items, Passed(0)),
    Loop(
        Up(Index, Items),
        Put(This, Sum(Length, Index), ArgumentAt(0, Index)),
    ),
    EndLoop,
    Let(Length, Plus(Length, Items)),
    Ask(Make(Fresh::Number(Length), MADE)),
    Ask(Put(This, Name::Length, MADE)),
    Ask(Ends(Return(MADE))),
];

/// `shift` (15.4.4.9).
pub const SHIFT: [Line; 24] = [
    Ask(ToObject(This)),
    Ask(Get(This, Name::Length, MADE)),
    Ask(Number(MADE, Anything, Length, Uint32, Stay)),
    If(Is(Length, 0)),
    Ask(Make(Fresh::Whole(0), MADE)),
    Ask(Put(This, Name::Length, MADE)),
    Ask(Ends(Return(NOTHING))),
    EndIf,
    Ask(Get(This, At(Index), OTHER)),
    Let(Index, Whole(1)),
    Loop(Up(Index, Length), Has(This, At(Index), PRESENT)),
    Ask(Look(PRESENT, Anything, Stay)),
    If(Sees(True)),
    Ask(Get(This, At(Index), ELEMENT)),
    Ask(Put(This, Before(Index), ELEMENT)),
    Go(NextTurn),
    EndIf,
    Ask(Delete(This, Before(Index), DELETED)),
    EndLoop,
    Ask(Delete(This, Before(Length), DELETED)),
    Let(Length, Prior(Length)),
    Ask(Make(Fresh::Number(Length), MADE)),
    Ask(Put(This, Name::Length, MADE)),
    Ask(Ends(Return(OTHER))),
];

/// `unshift` (15.4.4.13).
pub const UNSHIFT: [Line; 21] = [
    Ask(ToObject(This)),
    Ask(Get(This, Name::Length, MADE)),
    Ask(Number(MADE, Anything, Length, Uint32, Stay)),
    Let(Items, Passed(0)),
    Let(Index, Of(Length)),
    Loop(Down(Index, Last), Has(This, Before(Index), PRESENT)),
    Ask(Look(PRESENT, Anything, Stay)),
    If(Sees(True)),
    Ask(Get(This, Before(Index), ELEMENT)),
    Ask(Put(This, BeforeSum(Index, Items), ELEMENT)),
    Go(NextTurn),
    EndIf,
    Ask(Delete(This, BeforeSum(Index, Items), DELETED)),
    EndLoop,
    Let(Index, Whole(0)),
    Loop(Up(Index, Items), Put(This, At(Index), ArgumentAt(0, Index))),
    EndLoop,
    Let(Length, Plus(Length, Items)),
    Ask(Make(Fresh::Number(Length), MADE)),
    Ask(Put(This, Name::Length, MADE)),
    Ask(Ends(Return(MADE))),
];
