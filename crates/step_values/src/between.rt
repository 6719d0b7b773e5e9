//! Operators between two values as they are.

ghost use Rattle.std.specs.Prelude.{Bool};
ghost use Rattle.es_meaning.specs.Operators.{binary_of, binary_of_primitives, binary_with_object};
ghost use Rattle.step_values.specs.Answers.{Answers};

use crate::arithmetic::{add, divide, multiply, remainder, subtract};
use crate::bits::{
    both_bits, differing_bits, either_bits, shift_to_left, shift_to_right, shift_with_zeros,
};
use crate::comparisons::{
    is_at_least, is_at_most, is_equal, is_greater, is_less, is_other, is_same, is_unequal,
};
use crate::refusal::Refusal;
use js_ast::BinaryOperator;
use js_number::Primitive;
use js_values::Value;
use std::alloc::Global;

/// An operator between two values.
#[tactic(auto, unfolding(es_meaning::specs::Operators::binary_of))]
pub(crate) fn between(
    alloc: Global,
    operator: BinaryOperator,
    left: &Value,
    right: &Value,
) -> Result<Primitive, Refusal>
    ensures { Answers result (binary_of operator left.now right.now) }
{
    match (left, right) {
        (Value::Primitive(left), Value::Primitive(right)) => {
            between_primitives(alloc, operator, left, right)
        }
        (Value::Object(left), Value::Object(right)) => beside_object(operator, left.0 == right.0),
        _ => beside_object(operator, false),
    }
}

/// An operator between two values of which one or both are objects, by whether they are the same.
fn beside_object(operator: BinaryOperator, same: bool) -> Result<Primitive, Refusal>
    ensures { Answers result (binary_with_object operator same) }
{
    match operator {
        BinaryOperator::Equal => Ok(Primitive::Bool(same)),
        BinaryOperator::NotEqual => Ok(Primitive::Bool(!same)),
        BinaryOperator::StrictEqual => Ok(Primitive::Bool(same)),
        BinaryOperator::StrictNotEqual => Ok(Primitive::Bool(!same)),
        _ => Err(Refusal::elsewhere()),
    }
}

/// An operator between two primitive values.
fn between_primitives(
    alloc: Global,
    operator: BinaryOperator,
    left: &Primitive,
    right: &Primitive,
) -> Result<Primitive, Refusal>
    ensures { Answers result (binary_of_primitives operator left.now right.now) }
{
    match operator {
        BinaryOperator::Multiply => multiply(left, right),
        BinaryOperator::Divide => divide(left, right),
        BinaryOperator::Remainder => remainder(left, right),
        BinaryOperator::Add => add(alloc, left, right),
        BinaryOperator::Subtract => subtract(left, right),
        BinaryOperator::ShiftLeft => shift_to_left(left, right),
        BinaryOperator::ShiftRight => shift_to_right(left, right),
        BinaryOperator::ShiftRightZero => shift_with_zeros(left, right),
        BinaryOperator::Less => is_less(left, right),
        BinaryOperator::Greater => is_greater(left, right),
        BinaryOperator::LessEqual => is_at_most(left, right),
        BinaryOperator::GreaterEqual => is_at_least(left, right),
        BinaryOperator::Equal => is_equal(left, right),
        BinaryOperator::NotEqual => is_unequal(left, right),
        BinaryOperator::StrictEqual => Ok(is_same(left, right)),
        BinaryOperator::StrictNotEqual => Ok(is_other(left, right)),
        BinaryOperator::BitAnd => both_bits(left, right),
        BinaryOperator::BitXor => differing_bits(left, right),
        BinaryOperator::BitOr => either_bits(left, right),
        BinaryOperator::And
        | BinaryOperator::Or
        | BinaryOperator::In
        | BinaryOperator::Instanceof => Err(Refusal::elsewhere()),
    }
}
