//! `String`, `String.fromCharCode`, and the value of a text (ECMA-262 15.5.1 to 15.5.3, 15.5.4.2, 15.5.4.3), line by line.

use crate::shared::{TYPE_ERROR, WRAPPER};
use native_programs::Amount::Passed;
use native_programs::Ask::{Ends, Look, Number, Text};
use native_programs::Condition::{Constructed, NotGiven, Sees, SeesNot};
use native_programs::Count::Up;
use native_programs::Counter::{Count, Index, Items};
use native_programs::End::{Give, Return};
use native_programs::Exit::{Ends as GoesTo, Stay};
use native_programs::Line::{Ask, EndLoop, Let, Loop, Push, When};
use native_programs::Place::{Argument, ArgumentAt, Held, This};
use native_programs::Sight::{Anything, StringObject, Text as IsText};
use native_programs::TextSlot::{Result, Subject};
use native_programs::Whole::Uint16;
use native_programs::{Fresh, Line};

/// `String(..)` (15.5.1.1).
pub const STRING: [Line; 4] = [
    When(Constructed, WRAPPER),
    When(NotGiven(0), GoesTo(Give(Fresh::Text(Result)))),
    Ask(Text(Argument(0), Anything, Subject, Stay)),
    Ask(Ends(Return(Held))),
];

/// `fromCharCode` (15.5.3.2).
pub const FROM_CHAR_CODE: [Line; 5] = [
    Let(Items, Passed(0)),
    Loop(
        Up(Index, Items),
        Number(ArgumentAt(0, Index), Anything, Count, Uint16, Stay),
    ),
    Push(Result, Count),
    EndLoop,
    Ask(Ends(Give(Fresh::Text(Result)))),
];

/// `toString` and `valueOf` (15.5.4.2, 15.5.4.3). The one object of its class is the prototype.
pub const VALUE: [Line; 4] = [
    Ask(Look(This, Anything, Stay)),
    When(Sees(StringObject), WRAPPER),
    When(SeesNot(IsText), TYPE_ERROR),
    Ask(Ends(Return(This))),
];
