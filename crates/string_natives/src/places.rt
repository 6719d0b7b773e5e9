//! Units and places of a text (ECMA-262 15.5.4.4, 15.5.4.5, 15.5.4.7, 15.5.4.8), line by line.

use crate::shared::TYPE_ERROR;
use native_programs::Amount::{Found, FoundBack, Next, Of, Size, UnitAt, Within};
use native_programs::Ask::{Ends, Number, Text};
use native_programs::Condition::{Below, IsNan, NotLess};
use native_programs::Counter::{Count, Index, Last, Length};
use native_programs::End::Give;
use native_programs::Exit::{Ends as GoesTo, Stay};
use native_programs::Line::{Ask, EndIf, If, Let, When};
use native_programs::Place::{Argument, This};
use native_programs::Sight::{Anything, Valued};
use native_programs::TextSlot::{Result, Sought, Subject};
use native_programs::Whole::Integer;
use native_programs::{Exit, Fresh, Line};

const NO_TEXT: Exit = GoesTo(Give(Fresh::Text(Result)));

const NO_NUMBER: Exit = GoesTo(Give(Fresh::Nan));

/// `charAt` (15.5.4.4).
pub const CHAR_AT: [Line; 7] = [
    Ask(Text(This, Valued, Subject, TYPE_ERROR)),
    Ask(Number(Argument(0), Anything, Index, Integer, Stay)),
    Let(Length, Size(Subject)),
    When(Below(Index, 0), NO_TEXT),
    When(NotLess(Index, Length), NO_TEXT),
    Let(Last, Next(Index)),
    Ask(Ends(Give(Fresh::Part(Subject, Index, Last)))),
];

/// `charCodeAt` (15.5.4.5).
pub const CHAR_CODE_AT: [Line; 7] = [
    Ask(Text(This, Valued, Subject, TYPE_ERROR)),
    Ask(Number(Argument(0), Anything, Index, Integer, Stay)),
    Let(Length, Size(Subject)),
    When(Below(Index, 0), NO_NUMBER),
    When(NotLess(Index, Length), NO_NUMBER),
    Let(Count, UnitAt(Subject, Index)),
    Ask(Ends(Give(Fresh::Number(Count)))),
];

/// `indexOf` (15.5.4.7).
pub const TEXT_INDEX_OF: [Line; 7] = [
    Ask(Text(This, Valued, Subject, TYPE_ERROR)),
    Ask(Text(Argument(0), Anything, Sought, Stay)),
    Ask(Number(Argument(1), Anything, Index, Integer, Stay)),
    Let(Length, Size(Subject)),
    Let(Index, Within(Index, Length)),
    Let(Index, Found(Subject, Sought, Index)),
    Ask(Ends(Give(Fresh::Number(Index)))),
];

/// `lastIndexOf` (15.5.4.8). NaN stands for the end.
pub const TEXT_LAST_INDEX_OF: [Line; 10] = [
    Ask(Text(This, Valued, Subject, TYPE_ERROR)),
    Ask(Text(Argument(0), Anything, Sought, Stay)),
    Ask(Number(Argument(1), Anything, Index, Integer, Stay)),
    Let(Length, Size(Subject)),
    If(IsNan),
    Let(Index, Of(Length)),
    EndIf,
    Let(Index, Within(Index, Length)),
    Let(Index, FoundBack(Subject, Sought, Index)),
    Ask(Ends(Give(Fresh::Number(Index)))),
];
