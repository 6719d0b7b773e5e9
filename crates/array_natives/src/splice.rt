//! `splice` (ECMA-262 15.4.4.12), line by line.

use crate::shared::{ARRAY, DELETED, ELEMENT, MADE, PRESENT};
use js_values::Class;
use native_programs::Amount::{Minus, Of, Passed, Plus, Relative, Whole, Within};
use native_programs::Ask::{
    Define, Delete, Ends, Get, Has, Look, Make, New, Number, Put, ToObject,
};
use native_programs::Condition::{More, Sees};
use native_programs::Count::{Down, Up};
use native_programs::Counter::{Count, First, Index, Items, Last, Length};
use native_programs::End::Return;
use native_programs::Exit::{NextTurn, Stay};
use native_programs::Line::{Ask, EndIf, EndLoop, Go, If, Let, Loop};
use native_programs::Name::{At, Before, BeforeSum, Sum};
use native_programs::Place::{Argument, ArgumentAt, This};
use native_programs::Sight::{Anything, True};
use native_programs::Whole::{Integer, Uint32};
use native_programs::{Fresh, Line, Name};

/// `splice`. Steps 1 to 9 copy what is removed: `First` is the start and `Count` the number of removed elements. Steps 12 and 13 move the
/// rest, down where fewer items come than go, up where more do. Steps 14 to 16 put the items, which are `Items`, and the `length`.
pub const SPLICE: [Line; 52] = [
    Ask(ToObject(This)),
    Ask(New(Class::Array, ARRAY)),
    Ask(Get(This, Name::Length, MADE)),
    Ask(Number(MADE, Anything, Length, Uint32, Stay)),
    Ask(Number(Argument(0), Anything, First, Integer, Stay)),
    Let(First, Relative(First, Length)),
    Ask(Number(Argument(1), Anything, Count, Integer, Stay)),
    Let(Last, Minus(Length, First)),
    Let(Count, Within(Count, Last)),
    Loop(Up(Index, Count), Has(This, Sum(First, Index), PRESENT)),
    Ask(Look(PRESENT, True, NextTurn)),
    Ask(Get(This, Sum(First, Index), ELEMENT)),
    Ask(Define(ARRAY, At(Index), ELEMENT, true)),
    EndLoop,
    Let(Items, Passed(2)),
    If(More(Count, Items)),
    Let(Index, Of(First)),
    Let(Last, Minus(Length, Count)),
    Loop(Up(Index, Last), Has(This, Sum(Index, Count), PRESENT)),
    Ask(Look(PRESENT, Anything, Stay)),
    If(Sees(True)),
    Ask(Get(This, Sum(Index, Count), ELEMENT)),
    Ask(Put(This, Sum(Index, Items), ELEMENT)),
    Go(NextTurn),
    EndIf,
    Ask(Delete(This, Sum(Index, Items), DELETED)),
    EndLoop,
    Let(Index, Of(Length)),
    Let(Last, Plus(Last, Items)),
    Loop(Down(Index, Last), Delete(This, Before(Index), DELETED)),
    EndLoop,
    EndIf,
    If(More(Items, Count)),
    Let(Index, Minus(Length, Count)),
    Loop(
        Down(Index, First),
        Has(This, BeforeSum(Index, Count), PRESENT),
    ),
    Ask(Look(PRESENT, Anything, Stay)),
    If(Sees(True)),
    Ask(Get(This, BeforeSum(Index, Count), ELEMENT)),
    Ask(Put(This, BeforeSum(Index, Items), ELEMENT)),
    Go(NextTurn),
    EndIf,
    Ask(Delete(This, BeforeSum(Index, Items), DELETED)),
    EndLoop,
    EndIf,
    Let(Index, Whole(0)),
    Loop(
        Up(Index, Items),
        Put(This, Sum(First, Index), ArgumentAt(2, Index)),
    ),
    EndLoop,
    Let(Length, Minus(Length, Count)),
    Let(Length, Plus(Length, Items)),
    Ask(Make(Fresh::Number(Length), MADE)),
    Ask(Put(This, Name::Length, MADE)),
    Ask(Ends(Return(ARRAY))),
];
