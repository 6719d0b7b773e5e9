//! Parts of a text, and what is made of it as a whole (ECMA-262 15.5.4.6, 15.5.4.13 to 15.5.4.16, 15.5.4.18, 15.5.4.20), line by line.

use crate::shared::{ARRAY, MADE, TYPE_ERROR};
use js_values::Class;
use native_programs::Amount::{
    Greater, Lesser, Next, Of, Passed, PieceEnd, Plus, Relative, Size, Whole, Within,
};
use native_programs::Ask::{Define, Ends, Look, Make, New, Number, Text};
use native_programs::Condition::{Empty, Is, NotAscii, NotLess, Sees};
use native_programs::Count::{Endless, Up};
use native_programs::Counter::{Count, First, Index, Items, Last, Length};
use native_programs::End::{Give, Leave, Return};
use native_programs::Exit::{Ends as GoesTo, Stay};
use native_programs::Line::{Append, Ask, EndIf, EndLoop, If, Let, Loop, Set, When};
use native_programs::Name::At;
use native_programs::Place::{Argument, ArgumentAt, This};
use native_programs::Sight::{Anything, Given, Undefined, Valued};
use native_programs::TextSlot::{Piece, Result, Sought, Subject};
use native_programs::Whole::{Integer, Uint32};
use native_programs::Wording::{Lower, Trimmed, Upper};
use native_programs::{Exit, Fresh, Line, Reason};

const ENDS_ARRAY: Exit = GoesTo(Return(ARRAY));

const CASE: Exit = GoesTo(Leave(Reason::Case));

/// `concat` (15.5.4.6).
pub const TEXT_CONCAT: [Line; 6] = [
    Ask(Text(This, Valued, Result, TYPE_ERROR)),
    Let(Items, Passed(0)),
    Loop(
        Up(Index, Items),
        Text(ArgumentAt(0, Index), Anything, Piece, Stay),
    ),
    Append(Result, Piece),
    EndLoop,
    Ask(Ends(Give(Fresh::Text(Result)))),
];

/// `slice` (15.5.4.13).
pub const TEXT_SLICE: [Line; 9] = [
    Ask(Text(This, Valued, Subject, TYPE_ERROR)),
    Let(Length, Size(Subject)),
    Ask(Number(Argument(0), Anything, First, Integer, Stay)),
    Let(Last, Of(Length)),
    Ask(Number(Argument(1), Given, Last, Integer, Stay)),
    Let(First, Relative(First, Length)),
    Let(Last, Relative(Last, Length)),
    Let(Last, Greater(First, Last)),
    Ask(Ends(Give(Fresh::Part(Subject, First, Last)))),
];

/// `split` (15.5.4.14). `Last` is the limit, `Count` the number of pieces, `First` the place p at which a piece begins, and `Index` the place
/// q at which it ends.
pub const SPLIT: [Line; 26] = [
    Ask(Text(This, Valued, Subject, TYPE_ERROR)),
    Ask(New(Class::Array, ARRAY)),
    Let(Last, Whole(4_294_967_295)),
    Ask(Number(Argument(1), Given, Last, Uint32, Stay)),
    Let(Length, Size(Subject)),
    Ask(Look(Argument(0), Anything, Stay)),
    Ask(Text(Argument(0), Anything, Sought, Stay)),
    When(Is(Last, 0), ENDS_ARRAY),
    If(Sees(Undefined)),
    Ask(Make(Fresh::Text(Subject), MADE)),
    Ask(Define(ARRAY, At(Count), MADE, true)),
    Ask(Ends(Return(ARRAY))),
    EndIf,
    If(Is(Length, 0)),
    When(Empty(Sought), ENDS_ARRAY),
    EndIf,
    Let(Items, Size(Sought)),
    Let(Index, PieceEnd(Subject, Sought, First)),
    Loop(Endless, Make(Fresh::Part(Subject, First, Index), MADE)),
    Ask(Define(ARRAY, At(Count), MADE, true)),
    Let(Count, Next(Count)),
    When(NotLess(Count, Last), ENDS_ARRAY),
    When(NotLess(Index, Length), ENDS_ARRAY),
    Let(First, Plus(Index, Items)),
    Let(Index, PieceEnd(Subject, Sought, First)),
    EndLoop,
];

/// `substring` (15.5.4.15).
pub const SUBSTRING: [Line; 10] = [
    Ask(Text(This, Valued, Subject, TYPE_ERROR)),
    Let(Length, Size(Subject)),
    Ask(Number(Argument(0), Anything, First, Integer, Stay)),
    Let(Last, Of(Length)),
    Ask(Number(Argument(1), Given, Last, Integer, Stay)),
    Let(First, Within(First, Length)),
    Let(Last, Within(Last, Length)),
    Let(Index, Lesser(First, Last)),
    Let(Last, Greater(First, Last)),
    Ask(Ends(Give(Fresh::Part(Subject, Index, Last)))),
];

/// `toLowerCase` (15.5.4.16). A unit past 007F leaves.
pub const TO_LOWER_CASE: [Line; 4] = [
    Ask(Text(This, Valued, Subject, TYPE_ERROR)),
    When(NotAscii(Subject), CASE),
    Set(Result, Lower(Subject)),
    Ask(Ends(Give(Fresh::Text(Result)))),
];

/// `toUpperCase` (15.5.4.18). A unit past 007F leaves.
pub const TO_UPPER_CASE: [Line; 4] = [
    Ask(Text(This, Valued, Subject, TYPE_ERROR)),
    When(NotAscii(Subject), CASE),
    Set(Result, Upper(Subject)),
    Ask(Ends(Give(Fresh::Text(Result)))),
];

/// `trim` (15.5.4.20).
pub const TRIM: [Line; 3] = [
    Ask(Text(This, Valued, Subject, TYPE_ERROR)),
    Set(Result, Trimmed(Subject)),
    Ask(Ends(Give(Fresh::Text(Result)))),
];
