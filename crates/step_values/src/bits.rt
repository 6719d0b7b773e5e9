//! Operators on the bits of two numbers (ECMA-262 11.7, 11.10).

ghost use Rattle.js_ast.specs.declared.operators.BinaryOperator.TheVariants as operator;
ghost use Rattle.es_meaning.specs.Operators.{binary_of_primitives};
ghost use Rattle.step_values.specs.Answers.{Answers};

use crate::refusal::Refusal;
use js_number::{
    Primitive, bit_and, bit_or, bit_xor, shift_left, shift_right, shift_zero, to_number,
};

/// `left << right`.
pub(crate) fn shift_to_left(left: &Primitive, right: &Primitive) -> Result<Primitive, Refusal>
    ensures { Answers result (binary_of_primitives operator.ShiftLeft left.now right.now) }
{
    Ok(Primitive::Num(shift_left(to_number(left)?, to_number(right)?)))
}

/// `left >> right`.
pub(crate) fn shift_to_right(left: &Primitive, right: &Primitive) -> Result<Primitive, Refusal>
    ensures { Answers result (binary_of_primitives operator.ShiftRight left.now right.now) }
{
    Ok(Primitive::Num(shift_right(to_number(left)?, to_number(right)?)))
}

/// `left >>> right`.
pub(crate) fn shift_with_zeros(left: &Primitive, right: &Primitive) -> Result<Primitive, Refusal>
    ensures { Answers result (binary_of_primitives operator.ShiftRightZero left.now right.now) }
{
    Ok(Primitive::Num(shift_zero(to_number(left)?, to_number(right)?)))
}

/// `left & right`.
pub(crate) fn both_bits(left: &Primitive, right: &Primitive) -> Result<Primitive, Refusal>
    ensures { Answers result (binary_of_primitives operator.BitAnd left.now right.now) }
{
    Ok(Primitive::Num(bit_and(to_number(left)?, to_number(right)?)))
}

/// `left ^ right`.
pub(crate) fn differing_bits(left: &Primitive, right: &Primitive) -> Result<Primitive, Refusal>
    ensures { Answers result (binary_of_primitives operator.BitXor left.now right.now) }
{
    Ok(Primitive::Num(bit_xor(to_number(left)?, to_number(right)?)))
}

/// `left | right`.
pub(crate) fn either_bits(left: &Primitive, right: &Primitive) -> Result<Primitive, Refusal>
    ensures { Answers result (binary_of_primitives operator.BitOr left.now right.now) }
{
    Ok(Primitive::Num(bit_or(to_number(left)?, to_number(right)?)))
}
