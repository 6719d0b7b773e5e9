//! The built-ins of this set, in the order of their numbers.

ghost use Rattle.std.specs.Prelude.{◌≡◌, ◌<◌, length, slice_get, Some};
ghost use Rattle.native_protocol.specs.Sets.{seen_entry};
ghost use Rattle.std.specs.Option.{option_map};
ghost use Rattle.string_natives.specs.Dispatch.{entry_at, built_in_at, lines_of};
ghost use Rattle.string_natives.specs.Standing.{StandsAt};
ghost use Rattle.string_natives.specs.Table.{entries};

use crate::constructor::{FROM_CHAR_CODE, STRING, VALUE};
use crate::numbers::{IS_NAN, NUMBER_TO_STRING, PARSE_INT};
use crate::parts::{SPLIT, SUBSTRING, TEXT_CONCAT, TEXT_SLICE, TO_LOWER_CASE, TO_UPPER_CASE, TRIM};
use crate::places::{CHAR_AT, CHAR_CODE_AT, TEXT_INDEX_OF, TEXT_LAST_INDEX_OF};
use native_programs::Line;
use native_protocol::Form;
use native_protocol::Form::{Constructor, Function, LeftFunction};

/// What is called.
#[derive(Clone, Copy, Debug)]
pub enum BuiltIn {
    /// A name that isn't offered.
    LeftOut,
    ParseInt,
    String,
    IsNan,
    FromCharCode,
    Value,
    CharAt,
    CharCodeAt,
    Concat,
    IndexOf,
    LastIndexOf,
    Slice,
    Split,
    Substring,
    ToLowerCase,
    ToUpperCase,
    Trim,
    NumberToString,
}

// A holder, a name, a `length`, a form, and what is called.
pub(crate) type Row = (&'static str, &'static str, u32, Form, BuiltIn);

/// How many built-ins there are.
pub(crate) const COUNT: u32 = 24;

const TABLE: [Row; 24] = [
    ("global", "parseInt", 2, Function, BuiltIn::ParseInt),
    ("global", "String", 1, Constructor, BuiltIn::String),
    ("global", "isNaN", 1, Function, BuiltIn::IsNan),
    ("String", "fromCharCode", 1, Function, BuiltIn::FromCharCode),
    ("String.prototype", "toString", 0, Function, BuiltIn::Value),
    ("String.prototype", "valueOf", 0, Function, BuiltIn::Value),
    ("String.prototype", "charAt", 1, Function, BuiltIn::CharAt),
    (
        "String.prototype",
        "charCodeAt",
        1,
        Function,
        BuiltIn::CharCodeAt,
    ),
    ("String.prototype", "concat", 1, Function, BuiltIn::Concat),
    ("String.prototype", "indexOf", 1, Function, BuiltIn::IndexOf),
    (
        "String.prototype",
        "lastIndexOf",
        1,
        Function,
        BuiltIn::LastIndexOf,
    ),
    ("String.prototype", "slice", 2, Function, BuiltIn::Slice),
    ("String.prototype", "split", 2, Function, BuiltIn::Split),
    (
        "String.prototype",
        "substring",
        2,
        Function,
        BuiltIn::Substring,
    ),
    (
        "String.prototype",
        "toLowerCase",
        0,
        Function,
        BuiltIn::ToLowerCase,
    ),
    (
        "String.prototype",
        "toUpperCase",
        0,
        Function,
        BuiltIn::ToUpperCase,
    ),
    ("String.prototype", "trim", 0, Function, BuiltIn::Trim),
    (
        "String.prototype",
        "localeCompare",
        1,
        LeftFunction,
        BuiltIn::LeftOut,
    ),
    (
        "String.prototype",
        "match",
        1,
        LeftFunction,
        BuiltIn::LeftOut,
    ),
    (
        "String.prototype",
        "replace",
        2,
        LeftFunction,
        BuiltIn::LeftOut,
    ),
    (
        "String.prototype",
        "search",
        1,
        LeftFunction,
        BuiltIn::LeftOut,
    ),
    (
        "String.prototype",
        "toLocaleLowerCase",
        0,
        LeftFunction,
        BuiltIn::LeftOut,
    ),
    (
        "String.prototype",
        "toLocaleUpperCase",
        0,
        LeftFunction,
        BuiltIn::LeftOut,
    ),
    (
        "Number.prototype",
        "toString",
        1,
        Function,
        BuiltIn::NumberToString,
    ),
];

/// The row of a number.
#[tactic(auto, unfolding(crate::specs::Table::entries))]
pub(crate) fn row(which: u32) -> Row
    requires { which < length entries }
    ensures stands { slice_get entries which ≡ Some (seen_entry result.0.now result.1.now result.2 result.3) }
    ensures entry { seen_entry result.0.now result.1.now result.2 result.3 ≡ entry_at which }
    ensures built_in { result.4 ≡ built_in_at which }
{
    row_at(&TABLE, which)
}

// The row of a table.
fn row_at(table: &[Row], which: u32) -> Row
    requires { which < length table.now }
    ensures { StandsAt table.now which result }
{
    table[which as usize]
}

/// Its lines, where it is offered.
pub(crate) fn lines_of(built_in: BuiltIn) -> Option<&'static [Line]>
    ensures { option_map (λ lines. lines.now) result ≡ lines_of built_in }
{
    match built_in {
        BuiltIn::LeftOut => None,
        BuiltIn::ParseInt => Some(&PARSE_INT),
        BuiltIn::String => Some(&STRING),
        BuiltIn::IsNan => Some(&IS_NAN),
        BuiltIn::FromCharCode => Some(&FROM_CHAR_CODE),
        BuiltIn::Value => Some(&VALUE),
        BuiltIn::CharAt => Some(&CHAR_AT),
        BuiltIn::CharCodeAt => Some(&CHAR_CODE_AT),
        BuiltIn::Concat => Some(&TEXT_CONCAT),
        BuiltIn::IndexOf => Some(&TEXT_INDEX_OF),
        BuiltIn::LastIndexOf => Some(&TEXT_LAST_INDEX_OF),
        BuiltIn::Slice => Some(&TEXT_SLICE),
        BuiltIn::Split => Some(&SPLIT),
        BuiltIn::Substring => Some(&SUBSTRING),
        BuiltIn::ToLowerCase => Some(&TO_LOWER_CASE),
        BuiltIn::ToUpperCase => Some(&TO_UPPER_CASE),
        BuiltIn::Trim => Some(&TRIM),
        BuiltIn::NumberToString => Some(&NUMBER_TO_STRING),
    }
}
