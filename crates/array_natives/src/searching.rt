//! The searches of an element (ECMA-262 15.4.4.14, 15.4.4.15), line by line.

use crate::shared::{ELEMENT, GAVE, MADE, NOT_FOUND, PRESENT};
use native_programs::Amount::{Lesser, Plus, Prior, Relative, Whole};
use native_programs::Ask::{Ends, Get, Has, Look, Number, Same, ToObject};
use native_programs::Condition::{Below, Given, Is, NotLess};
use native_programs::Count::{Down, Up};
use native_programs::Counter::{First, Index, Last, Length};
use native_programs::End::Give;
use native_programs::Exit::{Ends as GoesTo, NextTurn, Stay};
use native_programs::Line::{Ask, AskIf, EndIf, EndLoop, If, Let, Loop, When};
use native_programs::Name::At;
use native_programs::Place::{Argument, This};
use native_programs::Sight::{Anything, NotTrue, True};
use native_programs::Whole::{Integer, Uint32};
use native_programs::{Exit, Fresh, Line, Name};

const FOUND: Exit = GoesTo(Give(Fresh::Number(Index)));

/// `indexOf` (15.4.4.14).
pub const INDEX_OF: [Line; 14] = [
    Ask(ToObject(This)),
    Ask(Get(This, Name::Length, MADE)),
    Ask(Number(MADE, Anything, Length, Uint32, Stay)),
    When(Is(Length, 0), GoesTo(NOT_FOUND)),
    AskIf(
        Given(1),
        Number(Argument(1), Anything, Index, Integer, Stay),
    ),
    When(NotLess(Index, Length), GoesTo(NOT_FOUND)),
    Let(Index, Relative(Index, Length)),
    Loop(Up(Index, Length), Has(This, At(Index), PRESENT)),
    Ask(Look(PRESENT, True, NextTurn)),
    Ask(Get(This, At(Index), ELEMENT)),
    Ask(Same(Argument(0), ELEMENT, GAVE)),
    Ask(Look(GAVE, NotTrue, FOUND)),
    EndLoop,
    Ask(Ends(NOT_FOUND)),
];

/// `lastIndexOf` (15.4.4.15).
pub const LAST_INDEX_OF: [Line; 19] = [
    Ask(ToObject(This)),
    Ask(Get(This, Name::Length, MADE)),
    Ask(Number(MADE, Anything, Length, Uint32, Stay)),
    When(Is(Length, 0), GoesTo(NOT_FOUND)),
    Let(Index, Prior(Length)),
    Let(First, Prior(Length)),
    AskIf(
        Given(1),
        Number(Argument(1), Anything, First, Integer, Stay),
    ),
    Let(Index, Lesser(First, Index)),
    If(Below(First, 0)),
    Let(Index, Plus(Length, First)),
    EndIf,
    Let(Last, Whole(-1)),
    Loop(Down(Index, Last), Has(This, At(Index), PRESENT)),
    Ask(Look(PRESENT, True, NextTurn)),
    Ask(Get(This, At(Index), ELEMENT)),
    Ask(Same(Argument(0), ELEMENT, GAVE)),
    Ask(Look(GAVE, NotTrue, FOUND)),
    EndLoop,
    Ask(Ends(NOT_FOUND)),
];
