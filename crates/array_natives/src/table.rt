//! The built-ins of this set, in the order of their numbers.

ghost use Rattle.std.specs.Prelude.{◌≡◌, ◌<◌, length, slice_get, Some};
ghost use Rattle.native_protocol.specs.Sets.{seen_entry};
ghost use Rattle.std.specs.Option.{option_map};
ghost use Rattle.array_natives.specs.Dispatch.{entry_at, built_in_at, lines_of};
ghost use Rattle.array_natives.specs.Standing.{StandsAt};
ghost use Rattle.array_natives.specs.Table.{entries};

use crate::constructor::{ARRAY_OF, IS_ARRAY};
use crate::ends::{POP, PUSH, SHIFT, UNSHIFT};
use crate::iterating::{EVERY, FILTER, FOR_EACH, MAP, REDUCE, REDUCE_RIGHT, SOME};
use crate::searching::{INDEX_OF, LAST_INDEX_OF};
use crate::splice::SPLICE;
use crate::whole::{CONCAT, JOIN, REVERSE, SLICE, TO_STRING};
use native_programs::Line;
use native_protocol::Form;
use native_protocol::Form::{Constructor, Function, LeftFunction};

/// What is called.
#[derive(Clone, Copy, Debug)]
pub enum BuiltIn {
    /// A name that isn't offered.
    LeftOut,
    Array,
    IsArray,
    ToString,
    Concat,
    Join,
    Pop,
    Push,
    Reverse,
    Shift,
    Slice,
    Splice,
    Unshift,
    IndexOf,
    LastIndexOf,
    Every,
    Some,
    ForEach,
    Map,
    Filter,
    Reduce,
    ReduceRight,
}

// A holder, a name, a `length`, a form, and what is called.
pub(crate) type Row = (&'static str, &'static str, u32, Form, BuiltIn);

/// How many built-ins there are.
pub(crate) const COUNT: u32 = 23;

const TABLE: [Row; 23] = [
    ("global", "Array", 1, Constructor, BuiltIn::Array),
    ("Array", "isArray", 1, Function, BuiltIn::IsArray),
    (
        "Array.prototype",
        "toString",
        0,
        Function,
        BuiltIn::ToString,
    ),
    ("Array.prototype", "concat", 1, Function, BuiltIn::Concat),
    ("Array.prototype", "join", 1, Function, BuiltIn::Join),
    ("Array.prototype", "pop", 0, Function, BuiltIn::Pop),
    ("Array.prototype", "push", 1, Function, BuiltIn::Push),
    ("Array.prototype", "reverse", 0, Function, BuiltIn::Reverse),
    ("Array.prototype", "shift", 0, Function, BuiltIn::Shift),
    ("Array.prototype", "slice", 2, Function, BuiltIn::Slice),
    ("Array.prototype", "splice", 2, Function, BuiltIn::Splice),
    ("Array.prototype", "unshift", 1, Function, BuiltIn::Unshift),
    ("Array.prototype", "indexOf", 1, Function, BuiltIn::IndexOf),
    (
        "Array.prototype",
        "lastIndexOf",
        1,
        Function,
        BuiltIn::LastIndexOf,
    ),
    ("Array.prototype", "every", 1, Function, BuiltIn::Every),
    ("Array.prototype", "some", 1, Function, BuiltIn::Some),
    ("Array.prototype", "forEach", 1, Function, BuiltIn::ForEach),
    ("Array.prototype", "map", 1, Function, BuiltIn::Map),
    ("Array.prototype", "filter", 1, Function, BuiltIn::Filter),
    ("Array.prototype", "reduce", 1, Function, BuiltIn::Reduce),
    (
        "Array.prototype",
        "reduceRight",
        1,
        Function,
        BuiltIn::ReduceRight,
    ),
    (
        "Array.prototype",
        "toLocaleString",
        0,
        LeftFunction,
        BuiltIn::LeftOut,
    ),
    ("Array.prototype", "sort", 1, LeftFunction, BuiltIn::LeftOut),
];

/// The row of a number.
#[tactic(auto, unfolding(crate::specs::Table::entries))]
pub(crate) fn row(which: u32) -> Row
    requires { which < length entries }
    ensures stands { slice_get entries which ≡ Some (seen_entry result.0.now result.1.now result.2 result.3) }
    ensures entry { seen_entry result.0.now result.1.now result.2 result.3 ≡ entry_at which }
    ensures built_in { result.4 ≡ built_in_at which }
{
    row_at(&TABLE, which)
}

// The row of a table.
fn row_at(table: &[Row], which: u32) -> Row
    requires { which < length table.now }
    ensures { StandsAt table.now which result }
{
    table[which as usize]
}

/// Its lines, where it is offered.
pub(crate) fn lines_of(built_in: BuiltIn) -> Option<&'static [Line]>
    ensures { option_map (λ lines. lines.now) result ≡ lines_of built_in }
{
    match built_in {
        BuiltIn::LeftOut => None,
        BuiltIn::Array => Some(&ARRAY_OF),
        BuiltIn::IsArray => Some(&IS_ARRAY),
        BuiltIn::ToString => Some(&TO_STRING),
        BuiltIn::Concat => Some(&CONCAT),
        BuiltIn::Join => Some(&JOIN),
        BuiltIn::Pop => Some(&POP),
        BuiltIn::Push => Some(&PUSH),
        BuiltIn::Reverse => Some(&REVERSE),
        BuiltIn::Shift => Some(&SHIFT),
        BuiltIn::Slice => Some(&SLICE),
        BuiltIn::Splice => Some(&SPLICE),
        BuiltIn::Unshift => Some(&UNSHIFT),
        BuiltIn::IndexOf => Some(&INDEX_OF),
        BuiltIn::LastIndexOf => Some(&LAST_INDEX_OF),
        BuiltIn::Every => Some(&EVERY),
        BuiltIn::Some => Some(&SOME),
        BuiltIn::ForEach => Some(&FOR_EACH),
        BuiltIn::Map => Some(&MAP),
        BuiltIn::Filter => Some(&FILTER),
        BuiltIn::Reduce => Some(&REDUCE),
        BuiltIn::ReduceRight => Some(&REDUCE_RIGHT),
    }
}
