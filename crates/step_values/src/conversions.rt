//! Which operands an operator has converted first.

ghost use Rattle.std.specs.Prelude.{◌≡◌};
ghost use Rattle.es_meaning.specs.Evaluation.{conversion_of, takes_number};
ghost use Rattle.es_meaning.specs.Operators.{converts_beside, is_compared, is_object, truth};
ghost use Rattle.step_values.specs.Converted.{conversion_in, converts, converts_operand};

use js_ast::{BinaryOperator, UnaryOperator};
use js_number::{Primitive, to_boolean};
use js_values::Value;
use native_protocol::Hint;

/// ToBoolean (ECMA-262 9.2).
pub fn truth(v: &Value) -> bool
    ensures { result ≡ truth v.now }
{
    match v {
        Value::Primitive(p) => to_boolean(p),
        Value::Object(_) => true,
    }
}

/// Whether a value is an object.
pub fn is_object(v: &Value) -> bool
    ensures { result ≡ is_object v.now }
{
    match v {
        Value::Primitive(_) => false,
        Value::Object(_) => true,
    }
}

/// Whether an operator in front of a value takes it as a number (ECMA-262 11.4).
pub fn takes_number(operator: UnaryOperator) -> bool
    ensures { result ≡ takes_number operator }
{
    matches!(
        operator,
        UnaryOperator::Plus | UnaryOperator::Minus | UnaryOperator::BitNot
    )
}

/// Whether an operator in front of a value has it converted first.
pub fn converts_operand(operator: UnaryOperator, v: &Value) -> bool
    ensures { result ≡ converts_operand operator v.now }
{
    takes_number(operator) && is_object(v)
}

/// How an operator between two values converts them (ECMA-262 11.5 to 11.10).
#[derive(Clone, Copy)]
pub enum Conversion {
    Unconverted,
    /// As `==` does.
    Compared,
    /// Both to primitive values.
    Primitives(Hint),
    /// The left one to a number, before the right one to a primitive value.
    Numbers,
    /// The left one to a key, where the right one is an object.
    Keyed,
}

/// How an operator converts its operands.
pub fn conversion_of(operator: BinaryOperator) -> Conversion
    ensures { conversion_in result ≡ conversion_of operator }
{
    match operator {
        BinaryOperator::Equal | BinaryOperator::NotEqual => Conversion::Compared,
        BinaryOperator::Add => Conversion::Primitives(Hint::Default),
        BinaryOperator::Less
        | BinaryOperator::Greater
        | BinaryOperator::LessEqual
        | BinaryOperator::GreaterEqual => Conversion::Primitives(Hint::Number),
        BinaryOperator::Multiply
        | BinaryOperator::Divide
        | BinaryOperator::Remainder
        | BinaryOperator::Subtract
        | BinaryOperator::ShiftLeft
        | BinaryOperator::ShiftRight
        | BinaryOperator::ShiftRightZero
        | BinaryOperator::BitAnd
        | BinaryOperator::BitXor
        | BinaryOperator::BitOr => Conversion::Numbers,
        BinaryOperator::In => Conversion::Keyed,
        BinaryOperator::StrictEqual
        | BinaryOperator::StrictNotEqual
        | BinaryOperator::And
        | BinaryOperator::Or
        | BinaryOperator::Instanceof => Conversion::Unconverted,
    }
}

/// Whether an operator between two values has one of them converted first.
pub fn converts(operator: BinaryOperator, left: &Value, right: &Value) -> bool
    ensures { result ≡ converts operator left.now right.now }
{
    match conversion_of(operator) {
        Conversion::Unconverted => false,
        Conversion::Compared => converts_beside(left, right) || converts_beside(right, left),
        Conversion::Primitives(_) | Conversion::Numbers => is_object(left) || is_object(right),
        Conversion::Keyed => is_object(left),
    }
}

/// Whether `==` takes an object as a primitive value beside the other value (ECMA-262 11.9.3).
pub fn converts_beside(v: &Value, other: &Value) -> bool
    ensures { result ≡ converts_beside v.now other.now }
{
    match (v, other) {
        (Value::Object(_), Value::Primitive(p)) => is_compared(p),
        _ => false,
    }
}

/// Whether `==` takes an object as a primitive value beside this one.
fn is_compared(p: &Primitive) -> bool
    ensures { result ≡ is_compared p.now }
{
    match p {
        Primitive::Undefined | Primitive::Null => false,
        Primitive::Bool(_) | Primitive::Num(_) | Primitive::Str(_) => true,
    }
}
