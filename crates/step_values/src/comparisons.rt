//! Comparisons of primitive values (ECMA-262 11.8, 11.9).

ghost use Rattle.std.specs.Prelude.{◌≡◌, Ok};
ghost use Rattle.js_ast.specs.declared.operators.BinaryOperator.TheVariants as operator;
ghost use Rattle.es_meaning.specs.Operators.{binary_of_primitives, fails, holds};
ghost use Rattle.step_values.specs.Answers.{Answers};

use crate::refusal::Refusal;
use js_number::{Primitive, less, loose_equal, strict_equal};

/// `left < right`.
pub(crate) fn is_less(left: &Primitive, right: &Primitive) -> Result<Primitive, Refusal>
    ensures { Answers result (binary_of_primitives operator.Less left.now right.now) }
{
    let less = less(left, right)?;
    Ok(Primitive::Bool(holds(less)))
}

/// `left > right`.
pub(crate) fn is_greater(left: &Primitive, right: &Primitive) -> Result<Primitive, Refusal>
    ensures { Answers result (binary_of_primitives operator.Greater left.now right.now) }
{
    let less = less(right, left)?;
    Ok(Primitive::Bool(holds(less)))
}

/// `left <= right`.
pub(crate) fn is_at_most(left: &Primitive, right: &Primitive) -> Result<Primitive, Refusal>
    ensures { Answers result (binary_of_primitives operator.LessEqual left.now right.now) }
{
    let greater = less(right, left)?;
    Ok(Primitive::Bool(fails(greater)))
}

/// `left >= right`.
pub(crate) fn is_at_least(left: &Primitive, right: &Primitive) -> Result<Primitive, Refusal>
    ensures { Answers result (binary_of_primitives operator.GreaterEqual left.now right.now) }
{
    let less = less(left, right)?;
    Ok(Primitive::Bool(fails(less)))
}

/// Whether one is less, where both can be compared.
fn holds(less: Option<bool>) -> bool
    ensures { result ≡ holds less }
{
    match less {
        Some(less) => less,
        None => false,
    }
}

/// Whether one isn't less, where both can be compared.
fn fails(less: Option<bool>) -> bool
    ensures { result ≡ fails less }
{
    match less {
        Some(less) => !less,
        None => false,
    }
}

/// `left == right`.
pub(crate) fn is_equal(left: &Primitive, right: &Primitive) -> Result<Primitive, Refusal>
    ensures { Answers result (binary_of_primitives operator.Equal left.now right.now) }
{
    Ok(Primitive::Bool(loose_equal(left, right)?))
}

/// `left != right`.
pub(crate) fn is_unequal(left: &Primitive, right: &Primitive) -> Result<Primitive, Refusal>
    ensures { Answers result (binary_of_primitives operator.NotEqual left.now right.now) }
{
    Ok(Primitive::Bool(!loose_equal(left, right)?))
}

/// `left === right`.
pub(crate) fn is_same(left: &Primitive, right: &Primitive) -> Primitive
    ensures { binary_of_primitives operator.StrictEqual left.now right.now ≡ Ok result }
{
    Primitive::Bool(strict_equal(left, right))
}

/// `left !== right`.
pub(crate) fn is_other(left: &Primitive, right: &Primitive) -> Primitive
    ensures { binary_of_primitives operator.StrictNotEqual left.now right.now ≡ Ok result }
{
    Primitive::Bool(!strict_equal(left, right))
}
