//! `Array` and `Array.isArray` (ECMA-262 15.4.1 to 15.4.3), line by line.

use crate::shared::{ARRAY, MADE};
use js_values::Class;
use native_programs::Amount::Passed;
use native_programs::Ask::{Define, Ends, Look, Make, New, Number, Put};
use native_programs::Condition::{Differs, Given, HasNumber, NotGiven};
use native_programs::Count::Up;
use native_programs::Counter::{Index, Items, Length};
use native_programs::End::{Give, Return};
use native_programs::Exit::Stay;
use native_programs::Line::{Ask, AskIf, EndIf, EndLoop, If, Let, Loop, When};
use native_programs::Name::At;
use native_programs::Place::{Argument, ArgumentAt};
use native_programs::Whole::Uint32;
use native_programs::{End, Exit, Fresh, Line, Name, Sight};
use native_protocol::ErrorKind;

const RANGE_ERROR: Exit = Exit::Ends(End::Throw(ErrorKind::RangeError));

const GIVES_FALSE: Exit = Exit::Ends(Give(Fresh::Truth(false)));

/// `Array(..)` and `new Array(..)` (15.4.1.1, 15.4.2.1, 15.4.2.2).
pub const ARRAY_OF: [Line; 14] = [
    If(NotGiven(1)),
    AskIf(
        Given(0),
        Number(Argument(0), Sight::Number, Length, Uint32, Stay),
    ),
    EndIf,
    When(Differs(Length), RANGE_ERROR),
    Ask(New(Class::Array, ARRAY)),
    If(HasNumber),
    Ask(Make(Fresh::Number(Length), MADE)),
    Ask(Put(ARRAY, Name::Length, MADE)),
    Ask(Ends(Return(ARRAY))),
    EndIf,
    Let(Items, Passed(0)),
    Loop(
        Up(Index, Items),
        Define(ARRAY, At(Index), ArgumentAt(0, Index), true),
    ),
    EndLoop,
    Ask(Ends(Return(ARRAY))),
];

/// `isArray` (15.4.3.2).
pub const IS_ARRAY: [Line; 2] = [
    Ask(Look(Argument(0), Sight::Array, GIVES_FALSE)),
    Ask(Ends(Give(Fresh::Truth(true)))),
];
