//! The constructors of errors and the text of an error (ECMA-262 15.11), line by line.

use crate::shared::{GAVE, MADE, TYPE_ERROR};
use js_values::Class;
use native_programs::Ask::{Define, Ends, Get, Look, NewFrom, Text};
use native_programs::Condition::{Empty, HasText};
use native_programs::End::{Give, Return};
use native_programs::Exit::{Ends as GoesTo, Stay};
use native_programs::Line::{Append, Ask, AskIf, Set, When};
use native_programs::Name::{Message, Prototype};
use native_programs::Place::{Argument, Callee, Held, This};
use native_programs::Sight::{Given, Object};
use native_programs::TextSlot::{Result, Sought, Subject};
use native_programs::Wording::{Colon, Error};
use native_programs::{Fresh, Line, Name};

/// Each constructor of errors, called or constructed (15.11.1.1, 15.11.2.1, 15.11.7.2, 15.11.7.4).
pub const ERROR: [Line; 5] = [
    Ask(Text(Argument(0), Given, Subject, Stay)),
    Ask(Get(Callee, Prototype, MADE)),
    Ask(NewFrom(Class::Error, MADE, GAVE)),
    AskIf(HasText, Define(GAVE, Message, Held, false)),
    Ask(Ends(Return(GAVE))),
];

/// `Error.prototype.toString` (15.11.4.4).
pub const ERROR_TEXT: [Line; 12] = [
    Ask(Look(This, Object, TYPE_ERROR)),
    Ask(Get(This, Name::Name, MADE)),
    Set(Subject, Error),
    Ask(Text(MADE, Given, Subject, Stay)),
    Ask(Get(This, Message, MADE)),
    Ask(Text(MADE, Given, Result, Stay)),
    When(Empty(Subject), GoesTo(Give(Fresh::Text(Result)))),
    When(Empty(Result), GoesTo(Give(Fresh::Text(Subject)))),
    Set(Sought, Colon),
    Append(Subject, Sought),
    Append(Subject, Result),
    Ask(Ends(Give(Fresh::Text(Subject)))),
];
