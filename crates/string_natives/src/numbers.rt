//! `parseInt`, `isNaN` and the text of a number (ECMA-262 15.1.2.2, 15.1.2.4, 15.7.4.2), line by line.

use crate::shared::{RANGE_ERROR, TYPE_ERROR, WRAPPER};
use native_programs::Amount::Whole;
use native_programs::Ask::{Ends, Look, Number, Text};
use native_programs::Condition::{
    Below, Given as IsGiven, IsNan, NotBelow, ParsesNot, Sees, SeesNot,
};
use native_programs::Counter::Count;
use native_programs::End::{Give, Leave};
use native_programs::Exit::{Ends as GoesTo, Stay};
use native_programs::Line::{Ask, AskIf, Let, Set, When};
use native_programs::Place::{Argument, This};
use native_programs::Sight::{Anything, Given, Number as IsNumber, NumberObject};
use native_programs::TextSlot::{Result, Subject};
use native_programs::Whole::{Int32, Integer};
use native_programs::Wording::InRadix;
use native_programs::{Exit, Fresh, Line, Reason};

const GIVES_TRUE: Exit = GoesTo(Give(Fresh::Truth(true)));

const NUMBER: Exit = GoesTo(Leave(Reason::Number));

/// `parseInt` (15.1.2.2).
pub const PARSE_INT: [Line; 4] = [
    Ask(Text(Argument(0), Anything, Subject, Stay)),
    Ask(Number(Argument(1), Anything, Count, Int32, Stay)),
    When(ParsesNot(Subject, Count), NUMBER),
    Ask(Ends(Give(Fresh::Parsed(Subject, Count)))),
];

/// `isNaN` (15.1.2.4).
pub const IS_NAN: [Line; 3] = [
    Ask(Number(Argument(0), Anything, Count, Integer, Stay)),
    When(IsNan, GIVES_TRUE),
    Ask(Ends(Give(Fresh::Truth(false)))),
];

/// `Number.prototype.toString` (15.7.4.2). The one object of its class is the prototype.
pub const NUMBER_TO_STRING: [Line; 9] = [
    Ask(Look(This, Anything, Stay)),
    When(Sees(NumberObject), WRAPPER),
    When(SeesNot(IsNumber), TYPE_ERROR),
    Let(Count, Whole(10)),
    AskIf(IsGiven(0), Number(Argument(0), Given, Count, Integer, Stay)),
    When(Below(Count, 2), RANGE_ERROR),
    When(NotBelow(Count, 37), RANGE_ERROR),
    Set(Result, InRadix(Count)),
    Ask(Ends(Give(Fresh::Text(Result)))),
];
