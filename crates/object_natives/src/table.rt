//! The built-ins of this set, in the order of their numbers.

ghost use Rattle.std.specs.Prelude.{◌≡◌, ◌<◌, length, slice_get, Some};
ghost use Rattle.native_protocol.specs.Sets.{seen_entry};
ghost use Rattle.object_natives.specs.Dispatch.{entry_at, built_in_at};
ghost use Rattle.object_natives.specs.Standing.{StandsAt};
ghost use Rattle.object_natives.specs.Table.{entries};

use crate::table::BuiltIn::LeftOut;
use descriptor_pieces::Integrity;
use native_protocol::Form;
use native_protocol::Form::{Constructor, Function, LeftAccessor, LeftFunction, NotANumber};
use object_functions::{
    DefiningFunction, IntegrityFunction, OwnTest, PropertyFunction, ReflectionFunction,
    ThisFunction,
};
use primitive_natives::{BooleanFunction, MathFunction, NumberFunction};

/// What is called.
#[derive(Clone, Copy, Debug)]
pub enum BuiltIn {
    /// A name that isn't offered.
    LeftOut,
    Object,
    Boolean(BooleanFunction),
    Number(NumberFunction),
    Math(MathFunction),
    Reflection(ReflectionFunction),
    Property(PropertyFunction),
    Defining(DefiningFunction),
    Integrity(IntegrityFunction),
    This(ThisFunction),
    OwnTest(OwnTest),
    IsPrototypeOf,
}

// A holder, a name, a `length`, a form, and what is called.
pub(crate) type Row = (&'static str, &'static str, u32, Form, BuiltIn);

/// How many built-ins there are.
pub(crate) const COUNT: u32 = 72;

const TABLE: [Row; 72] = [
    ("global", "Object", 1, Constructor, BuiltIn::Object),
    (
        "global",
        "Boolean",
        1,
        Constructor,
        BuiltIn::Boolean(BooleanFunction::Boolean),
    ),
    (
        "global",
        "Number",
        1,
        Constructor,
        BuiltIn::Number(NumberFunction::Number),
    ),
    ("global", "eval", 1, LeftFunction, LeftOut),
    ("global", "parseFloat", 1, LeftFunction, LeftOut),
    ("global", "isFinite", 1, LeftFunction, LeftOut),
    ("global", "decodeURI", 1, LeftFunction, LeftOut),
    ("global", "decodeURIComponent", 1, LeftFunction, LeftOut),
    ("global", "encodeURI", 1, LeftFunction, LeftOut),
    ("global", "encodeURIComponent", 1, LeftFunction, LeftOut),
    ("global", "NaN", 0, NotANumber, LeftOut),
    ("global", "Infinity", 0, LeftAccessor, LeftOut),
    ("global", "Date", 0, LeftAccessor, LeftOut),
    ("global", "RegExp", 0, LeftAccessor, LeftOut),
    ("global", "JSON", 0, LeftAccessor, LeftOut),
    (
        "Object",
        "getPrototypeOf",
        1,
        Function,
        BuiltIn::Reflection(ReflectionFunction::GetPrototypeOf),
    ),
    (
        "Object",
        "getOwnPropertyDescriptor",
        2,
        Function,
        BuiltIn::Property(PropertyFunction::GetOwnPropertyDescriptor),
    ),
    (
        "Object",
        "getOwnPropertyNames",
        1,
        Function,
        BuiltIn::Reflection(ReflectionFunction::GetOwnPropertyNames),
    ),
    (
        "Object",
        "create",
        2,
        Function,
        BuiltIn::Defining(DefiningFunction::Create),
    ),
    (
        "Object",
        "defineProperty",
        3,
        Function,
        BuiltIn::Property(PropertyFunction::DefineProperty),
    ),
    (
        "Object",
        "defineProperties",
        2,
        Function,
        BuiltIn::Defining(DefiningFunction::DefineProperties),
    ),
    (
        "Object",
        "seal",
        1,
        Function,
        BuiltIn::Integrity(IntegrityFunction::Set(Integrity::Sealed)),
    ),
    (
        "Object",
        "freeze",
        1,
        Function,
        BuiltIn::Integrity(IntegrityFunction::Set(Integrity::Frozen)),
    ),
    (
        "Object",
        "preventExtensions",
        1,
        Function,
        BuiltIn::Reflection(ReflectionFunction::PreventExtensions),
    ),
    (
        "Object",
        "isSealed",
        1,
        Function,
        BuiltIn::Integrity(IntegrityFunction::Test(Integrity::Sealed)),
    ),
    (
        "Object",
        "isFrozen",
        1,
        Function,
        BuiltIn::Integrity(IntegrityFunction::Test(Integrity::Frozen)),
    ),
    (
        "Object",
        "isExtensible",
        1,
        Function,
        BuiltIn::Reflection(ReflectionFunction::IsExtensible),
    ),
    (
        "Object",
        "keys",
        1,
        Function,
        BuiltIn::Reflection(ReflectionFunction::Keys),
    ),
    (
        "Object.prototype",
        "toString",
        0,
        Function,
        BuiltIn::This(ThisFunction::ToString),
    ),
    (
        "Object.prototype",
        "valueOf",
        0,
        Function,
        BuiltIn::This(ThisFunction::ValueOf),
    ),
    (
        "Object.prototype",
        "hasOwnProperty",
        1,
        Function,
        BuiltIn::OwnTest(OwnTest::There),
    ),
    (
        "Object.prototype",
        "isPrototypeOf",
        1,
        Function,
        BuiltIn::IsPrototypeOf,
    ),
    (
        "Object.prototype",
        "propertyIsEnumerable",
        1,
        Function,
        BuiltIn::OwnTest(OwnTest::Enumerable),
    ),
    (
        "Object.prototype",
        "toLocaleString",
        0,
        LeftFunction,
        LeftOut,
    ),
    (
        "Boolean.prototype",
        "toString",
        0,
        Function,
        BuiltIn::Boolean(BooleanFunction::ToString),
    ),
    (
        "Boolean.prototype",
        "valueOf",
        0,
        Function,
        BuiltIn::Boolean(BooleanFunction::ValueOf),
    ),
    ("Number", "MAX_VALUE", 0, LeftAccessor, LeftOut),
    ("Number", "MIN_VALUE", 0, LeftAccessor, LeftOut),
    ("Number", "NaN", 0, NotANumber, LeftOut),
    ("Number", "NEGATIVE_INFINITY", 0, LeftAccessor, LeftOut),
    ("Number", "POSITIVE_INFINITY", 0, LeftAccessor, LeftOut),
    (
        "Number.prototype",
        "valueOf",
        0,
        Function,
        BuiltIn::Number(NumberFunction::ValueOf),
    ),
    (
        "Number.prototype",
        "toLocaleString",
        0,
        LeftFunction,
        LeftOut,
    ),
    ("Number.prototype", "toFixed", 1, LeftFunction, LeftOut),
    (
        "Number.prototype",
        "toExponential",
        1,
        LeftFunction,
        LeftOut,
    ),
    ("Number.prototype", "toPrecision", 1, LeftFunction, LeftOut),
    ("Math", "abs", 1, Function, BuiltIn::Math(MathFunction::Abs)),
    ("Math", "max", 2, Function, BuiltIn::Math(MathFunction::Max)),
    ("Math", "min", 2, Function, BuiltIn::Math(MathFunction::Min)),
    ("Math", "E", 0, LeftAccessor, LeftOut),
    ("Math", "LN10", 0, LeftAccessor, LeftOut),
    ("Math", "LN2", 0, LeftAccessor, LeftOut),
    ("Math", "LOG2E", 0, LeftAccessor, LeftOut),
    ("Math", "LOG10E", 0, LeftAccessor, LeftOut),
    ("Math", "PI", 0, LeftAccessor, LeftOut),
    ("Math", "SQRT1_2", 0, LeftAccessor, LeftOut),
    ("Math", "SQRT2", 0, LeftAccessor, LeftOut),
    ("Math", "acos", 1, LeftFunction, LeftOut),
    ("Math", "asin", 1, LeftFunction, LeftOut),
    ("Math", "atan", 1, LeftFunction, LeftOut),
    ("Math", "atan2", 2, LeftFunction, LeftOut),
    ("Math", "ceil", 1, LeftFunction, LeftOut),
    ("Math", "cos", 1, LeftFunction, LeftOut),
    ("Math", "exp", 1, LeftFunction, LeftOut),
    ("Math", "floor", 1, LeftFunction, LeftOut),
    ("Math", "log", 1, LeftFunction, LeftOut),
    ("Math", "pow", 2, LeftFunction, LeftOut),
    ("Math", "random", 0, LeftFunction, LeftOut),
    ("Math", "round", 1, LeftFunction, LeftOut),
    ("Math", "sin", 1, LeftFunction, LeftOut),
    ("Math", "sqrt", 1, LeftFunction, LeftOut),
    ("Math", "tan", 1, LeftFunction, LeftOut),
];

/// The row of a number.
#[tactic(auto, unfolding(crate::specs::Table::entries))]
pub(crate) fn row(which: u32) -> Row
    requires { which < length entries }
    ensures stands { slice_get entries which ≡ Some (seen_entry result.0.now result.1.now result.2 result.3) }
    ensures entry { seen_entry result.0.now result.1.now result.2 result.3 ≡ entry_at which }
    ensures built_in { result.4 ≡ built_in_at which }
{
    row_at(&TABLE, which)
}

// The row of a table.
fn row_at(table: &[Row], which: u32) -> Row
    requires { which < length table.now }
    ensures { StandsAt table.now which result }
{
    table[which as usize]
}
