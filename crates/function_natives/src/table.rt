//! The built-ins of this set, in the order of their numbers.

ghost use Rattle.std.specs.Prelude.{◌≡◌, ◌<◌, length, slice_get, Some};
ghost use Rattle.native_protocol.specs.Sets.{seen_entry};
ghost use Rattle.std.specs.Option.{option_map};
ghost use Rattle.function_natives.specs.Dispatch.{entry_at, built_in_at, lines_of};
ghost use Rattle.function_natives.specs.Standing.{StandsAt};
ghost use Rattle.function_natives.specs.Table.{entries};

use crate::errors::{ERROR, ERROR_TEXT};
use crate::functions::{APPLY, BIND, CALL};
use native_programs::Line;
use native_protocol::Form;
use native_protocol::Form::{Constructor, Function, LeftFunction};

/// What is called.
#[derive(Clone, Copy, Debug)]
pub enum BuiltIn {
    /// A name that isn't offered.
    LeftOut,
    Apply,
    Call,
    Bind,
    Error,
    ErrorText,
}

// A holder, a name, a `length`, a form, and what is called.
pub(crate) type Row = (&'static str, &'static str, u32, Form, BuiltIn);

/// How many built-ins there are.
pub(crate) const COUNT: u32 = 13;

const TABLE: [Row; 13] = [
    ("global", "Function", 1, Constructor, BuiltIn::LeftOut),
    ("global", "Error", 1, Constructor, BuiltIn::Error),
    ("global", "EvalError", 1, Constructor, BuiltIn::Error),
    ("global", "RangeError", 1, Constructor, BuiltIn::Error),
    ("global", "ReferenceError", 1, Constructor, BuiltIn::Error),
    ("global", "SyntaxError", 1, Constructor, BuiltIn::Error),
    ("global", "TypeError", 1, Constructor, BuiltIn::Error),
    ("global", "URIError", 1, Constructor, BuiltIn::Error),
    ("Function.prototype", "apply", 2, Function, BuiltIn::Apply),
    ("Function.prototype", "call", 1, Function, BuiltIn::Call),
    ("Function.prototype", "bind", 1, Function, BuiltIn::Bind),
    (
        "Function.prototype",
        "toString",
        0,
        LeftFunction,
        BuiltIn::LeftOut,
    ),
    (
        "Error.prototype",
        "toString",
        0,
        Function,
        BuiltIn::ErrorText,
    ),
];

/// The row of a number.
#[tactic(auto, unfolding(crate::specs::Table::entries))]
pub(crate) fn row(which: u32) -> Row
    requires { which < length entries }
    ensures stands { slice_get entries which ≡ Some (seen_entry result.0.now result.1.now result.2 result.3) }
    ensures entry { seen_entry result.0.now result.1.now result.2 result.3 ≡ entry_at which }
    ensures built_in { result.4 ≡ built_in_at which }
{
    row_at(&TABLE, which)
}

// The row of a table.
fn row_at(table: &[Row], which: u32) -> Row
    requires { which < length table.now }
    ensures { StandsAt table.now which result }
{
    table[which as usize]
}

/// Its lines, where it is offered.
pub(crate) fn lines_of(built_in: BuiltIn) -> Option<&'static [Line]>
    ensures { option_map (λ lines. lines.now) result ≡ lines_of built_in }
{
    match built_in {
        BuiltIn::LeftOut => None,
        BuiltIn::Apply => Some(&APPLY),
        BuiltIn::Call => Some(&CALL),
        BuiltIn::Bind => Some(&BIND),
        BuiltIn::Error => Some(&ERROR),
        BuiltIn::ErrorText => Some(&ERROR_TEXT),
    }
}
