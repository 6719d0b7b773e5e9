//! `apply`, `call` and `bind` (ECMA-262 15.3.4), line by line.

use crate::shared::{GAVE, MADE, TYPE_ERROR};
use native_programs::Args::{Gathered as GatheredOnes, Rest};
use native_programs::Ask::{Bind, Call, Ends, Get, Look, Number};
use native_programs::Condition::Sees;
use native_programs::Count::Up;
use native_programs::Counter::{Index, Length};
use native_programs::End::Return;
use native_programs::Exit::Stay;
use native_programs::Line::{Ask, EndIf, EndLoop, If, Loop};
use native_programs::Name::At;
use native_programs::Place::{Argument, Gathered, This};
use native_programs::Sight::{Anything, Callable, Object, ObjectOrNone};
use native_programs::Whole::Uint32;
use native_programs::{Line, Name};

/// `apply` (15.3.4.3).
pub const APPLY: [Line; 10] = [
    Ask(Look(This, Callable, TYPE_ERROR)),
    Ask(Look(Argument(1), ObjectOrNone, TYPE_ERROR)),
    If(Sees(Object)),
    Ask(Get(Argument(1), Name::Length, MADE)),
    Ask(Number(MADE, Anything, Length, Uint32, Stay)),
    Loop(
        Up(Index, Length),
        Get(Argument(1), At(Index), Gathered(Index)),
    ),
    EndLoop,
    EndIf,
    Ask(Call(This, Argument(0), GatheredOnes(Length), GAVE)),
    Ask(Ends(Return(GAVE))),
];

/// `call` (15.3.4.4).
pub const CALL: [Line; 3] = [
    Ask(Look(This, Callable, TYPE_ERROR)),
    Ask(Call(This, Argument(0), Rest(1), GAVE)),
    Ask(Ends(Return(GAVE))),
];

/// `bind` (15.3.4.5).
pub const BIND: [Line; 3] = [
    Ask(Look(This, Callable, TYPE_ERROR)),
    Ask(Bind(This, Argument(0), Rest(1), GAVE)),
    Ask(Ends(Return(GAVE))),
];
