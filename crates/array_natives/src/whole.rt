//! What is made of an array as a whole (ECMA-262 15.4.4.2, 15.4.4.4, 15.4.4.5, 15.4.4.8, 15.4.4.10), line by line.

use crate::shared::{ARRAY, DELETED, ELEMENT, GAVE, MADE, OTHER, OTHER_PRESENT, PRESENT};
use js_values::Class;
use native_programs::Amount::{Half, Next, Passed, Relative, Whole};
use native_programs::Args::None;
use native_programs::Ask::{
    Call, Define, Delete, Ends, Get, Has, Look, New, Number, Put, Text, ToObject,
};
use native_programs::Condition::{Last as IsLast, Sees, SeesNot};
use native_programs::Count::Up;
use native_programs::Counter::{Count, First, Index, Items, Last, Length};
use native_programs::End::{Give, Return};
use native_programs::Exit::{NextTurn, Stay};
use native_programs::Line::{Append, Ask, EndIf, EndLoop, Go, If, Let, Loop, Set, When};
use native_programs::Name::{At, Join, Mirror};
use native_programs::Place::{Argument, Item, This};
use native_programs::Sight::{Anything, Array, Callable, Given, True, Valued};
use native_programs::TextSlot::{Piece, Result, Sought};
use native_programs::Whole::{Integer, Uint32};
use native_programs::Wording::{ClassSeen, Comma};
use native_programs::{Amount, Fresh, Line, Name};

/// `toString` (15.4.4.2).
pub const TO_STRING: [Line; 10] = [
    Ask(ToObject(This)),
    Ask(Get(This, Join, MADE)),
    Ask(Look(MADE, Anything, Stay)),
    If(Sees(Callable)),
    Ask(Call(MADE, This, None, GAVE)),
    Ask(Ends(Return(GAVE))),
    EndIf,
    Ask(Look(This, Anything, Stay)),
    Set(Result, ClassSeen),
    Ask(Ends(Give(Fresh::Text(Result)))),
];

/// `concat` (15.4.4.4). The `length` of the result isn't put. After each array `Length` and `Index` are 0 again.
pub const CONCAT: [Line; 24] = [
    Ask(ToObject(This)),
    Ask(New(Class::Array, ARRAY)),
    Let(Items, Passed(0)),
    Let(Items, Next(Items)),
    Loop(Up(First, Items), Look(Item(First), Anything, Stay)),
    If(SeesNot(Array)),
    Ask(Define(ARRAY, At(Count), Item(First), true)),
    Let(Count, Next(Count)),
    Go(NextTurn),
    EndIf,
    Ask(Get(Item(First), Name::Length, MADE)),
    Ask(Number(MADE, Anything, Length, Uint32, Stay)),
    Loop(Up(Index, Length), Has(Item(First), At(Index), PRESENT)),
    Ask(Look(PRESENT, Anything, Stay)),
    If(Sees(True)),
    Ask(Get(Item(First), At(Index), ELEMENT)),
    Ask(Define(ARRAY, At(Count), ELEMENT, true)),
    EndIf,
    Let(Count, Next(Count)),
    EndLoop,
    Let(Length, Whole(0)),
    Let(Index, Whole(0)),
    EndLoop,
    Ask(Ends(Return(ARRAY))),
];

/// `join` (15.4.4.5).
pub const JOIN: [Line; 12] = [
    Ask(ToObject(This)),
    Ask(Get(This, Name::Length, MADE)),
    Ask(Number(MADE, Anything, Length, Uint32, Stay)),
    Set(Sought, Comma),
    Ask(Text(Argument(0), Given, Sought, Stay)),
    Loop(Up(Index, Length), Get(This, At(Index), ELEMENT)),
    Ask(Text(ELEMENT, Valued, Piece, Stay)),
    Append(Result, Piece),
    When(IsLast(Index, Length), NextTurn),
    Append(Result, Sought),
    EndLoop,
    Ask(Ends(Give(Fresh::Text(Result)))),
];

/// `reverse` (15.4.4.8). The upper place is as far from the end as the lower one is from the start.
pub const REVERSE: [Line; 25] = [
    Ask(ToObject(This)),
    Ask(Get(This, Name::Length, MADE)),
    Ask(Number(MADE, Anything, Length, Uint32, Stay)),
    Let(Last, Half(Length)),
    Loop(Up(Index, Last), Get(This, At(Index), ELEMENT)),
    Ask(Get(This, Mirror(Index, Length), OTHER)),
    Ask(Has(This, At(Index), PRESENT)),
    Ask(Has(This, Mirror(Index, Length), OTHER_PRESENT)),
    Ask(Look(PRESENT, Anything, Stay)),
    If(Sees(True)),
    Ask(Look(OTHER_PRESENT, Anything, Stay)),
    If(Sees(True)),
    Ask(Put(This, At(Index), OTHER)),
    Ask(Put(This, Mirror(Index, Length), ELEMENT)),
    Go(NextTurn),
    EndIf,
    Ask(Delete(This, At(Index), DELETED)),
    Ask(Put(This, Mirror(Index, Length), ELEMENT)),
    Go(NextTurn),
    EndIf,
    Ask(Look(OTHER_PRESENT, True, NextTurn)),
    Ask(Put(This, At(Index), OTHER)),
    Ask(Delete(This, Mirror(Index, Length), DELETED)),
    EndLoop,
    Ask(Ends(Return(This))),
];

/// `slice` (15.4.4.10). The `length` of the result isn't put.
pub const SLICE: [Line; 18] = [
    Ask(ToObject(This)),
    Ask(New(Class::Array, ARRAY)),
    Ask(Get(This, Name::Length, MADE)),
    Ask(Number(MADE, Anything, Length, Uint32, Stay)),
    Ask(Number(Argument(0), Anything, Index, Integer, Stay)),
    Let(Index, Relative(Index, Length)),
    Let(Last, Amount::Of(Length)),
    Ask(Number(Argument(1), Given, Last, Integer, Stay)),
    Let(Last, Relative(Last, Length)),
    Loop(Up(Index, Last), Has(This, At(Index), PRESENT)),
    Ask(Look(PRESENT, Anything, Stay)),
    If(Sees(True)),
    Ask(Get(This, At(Index), ELEMENT)),
    Ask(Define(ARRAY, At(Count), ELEMENT, true)),
    EndIf,
    Let(Count, Next(Count)),
    EndLoop,
    Ask(Ends(Return(ARRAY))),
];
