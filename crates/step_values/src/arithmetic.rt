//! Arithmetic on primitive values (ECMA-262 11.5, 11.6).

ghost use Rattle.js_ast.specs.declared.operators.BinaryOperator.TheVariants as operator;
ghost use Rattle.es_meaning.specs.Operators.{binary_of_primitives};
ghost use Rattle.step_values.specs.Answers.{Answers};

use crate::refusal::Refusal;
use js_number::{Primitive, add_prims, div, mul, rem, sub, to_number};
use std::alloc::Global;

/// `left * right`.
pub(crate) fn multiply(left: &Primitive, right: &Primitive) -> Result<Primitive, Refusal>
    ensures { Answers result (binary_of_primitives operator.Multiply left.now right.now) }
{
    Ok(Primitive::Num(mul(to_number(left)?, to_number(right)?)?))
}

/// `left / right`.
pub(crate) fn divide(left: &Primitive, right: &Primitive) -> Result<Primitive, Refusal>
    ensures { Answers result (binary_of_primitives operator.Divide left.now right.now) }
{
    Ok(Primitive::Num(div(to_number(left)?, to_number(right)?)?))
}

/// `left % right`.
pub(crate) fn remainder(left: &Primitive, right: &Primitive) -> Result<Primitive, Refusal>
    ensures { Answers result (binary_of_primitives operator.Remainder left.now right.now) }
{
    Ok(Primitive::Num(rem(to_number(left)?, to_number(right)?)?))
}

/// `left + right`.
pub(crate) fn add(alloc: Global, left: &Primitive, right: &Primitive) -> Result<Primitive, Refusal>
    ensures { Answers result (binary_of_primitives operator.Add left.now right.now) }
{
    Ok(add_prims(alloc, left, right)?)
}

/// `left - right`.
pub(crate) fn subtract(left: &Primitive, right: &Primitive) -> Result<Primitive, Refusal>
    ensures { Answers result (binary_of_primitives operator.Subtract left.now right.now) }
{
    Ok(Primitive::Num(sub(to_number(left)?, to_number(right)?)?))
}
