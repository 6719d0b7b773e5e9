//! Operators between two numbers.

ghost use Rattle.std.specs.Prelude.{◌≡◌, true, Ok, IfSome};
ghost use Rattle.js_number.specs.declared.num.Num.TheVariants as nums;
ghost use Rattle.js_number.specs.declared.primitive.Primitive.TheVariants as prims;
ghost use Rattle.js_values.specs.declared.value.Value.TheVariants as value;
ghost use Rattle.es_meaning.specs.Operators.{binary_of};
ghost use Rattle.continuations.specs.Shapes.{evaluates_both};
ghost use Rattle.step_numbers.specs.Evaluated.{combined_of, combines, compared_of, compares, in_numbers, integer};

use js_ast::BinaryOperator;
use js_number::{Int, LeftNumbers, Num, add, mul, rem, sub};

/// Whether it compares two numbers.
#[inline(always)]
pub(crate) fn compares(operator: BinaryOperator) -> bool
    ensures { result ≡ compares operator }
{
    matches!(
        operator,
        BinaryOperator::Less
            | BinaryOperator::Greater
            | BinaryOperator::LessEqual
            | BinaryOperator::GreaterEqual
            | BinaryOperator::Equal
            | BinaryOperator::NotEqual
            | BinaryOperator::StrictEqual
            | BinaryOperator::StrictNotEqual
    )
}

/// Whether it is arithmetic, which gives a number of two.
#[inline(always)]
pub(crate) fn combines(operator: BinaryOperator) -> bool
    ensures { result ≡ combines operator }
{
    matches!(
        operator,
        BinaryOperator::Add
            | BinaryOperator::Subtract
            | BinaryOperator::Multiply
            | BinaryOperator::Remainder
    )
}

/// What a comparison says of two numbers.
#[inline(always)]
#[tactic(auto, using(crate::proofs::NumberLaws::converts_numbers, crate::proofs::NumberLaws::less_given, crate::proofs::NumberLaws::turned_given))]
pub(crate) fn compared(operator: BinaryOperator, left: Int, right: Int) -> Option<bool>
    ensures exact { result ≡ compared_of operator left right }
    ensures says { IfSome result (λ b. binary_of operator (value.Primitive (integer left)) (value.Primitive (integer right)) ≡ Ok (prims.Bool b)) }
    ensures both { IfSome result (λ _. evaluates_both operator ≡ true) }
{
    match operator {
        BinaryOperator::Less => Some(left.get() < right.get()),
        BinaryOperator::Greater => Some(right.get() < left.get()),
        BinaryOperator::LessEqual => Some(!(right.get() < left.get())),
        BinaryOperator::GreaterEqual => Some(!(left.get() < right.get())),
        BinaryOperator::Equal | BinaryOperator::StrictEqual => Some(left == right),
        BinaryOperator::NotEqual | BinaryOperator::StrictNotEqual => Some(left != right),
        _ => None,
    }
}

/// What arithmetic gives of two numbers, where that is a number of the profile.
#[inline(always)]
#[tactic(auto, using(crate::proofs::NumberLaws::converts_numbers, crate::proofs::NumberLaws::of_both, crate::proofs::NumberLaws::sum_of_both))]
pub(crate) fn combined(operator: BinaryOperator, left: Int, right: Int) -> Option<Int>
    ensures exact { result ≡ combined_of operator left right }
    ensures gives { IfSome result (λ n. binary_of operator (value.Primitive (integer left)) (value.Primitive (integer right)) ≡ Ok (integer n)) }
    ensures both { IfSome result (λ _. evaluates_both operator ≡ true) }
{
    let (left, right) = (Num::Int(left), Num::Int(right));
    match operator {
        BinaryOperator::Add => kept(add(left, right)),
        BinaryOperator::Subtract => kept(sub(left, right)),
        BinaryOperator::Multiply => kept(mul(left, right)),
        BinaryOperator::Remainder => kept(rem(left, right)),
        _ => None,
    }
}

#[inline(always)]
fn kept(answer: Result<Num, LeftNumbers>) -> Option<Int>
    ensures number { IfSome result (λ n. answer ≡ Ok (nums.Int n)) }
    ensures exact { result ≡ in_numbers answer }
{
    match answer {
        Ok(number) => match number {
            Num::Int(n) => Some(n),
            Num::Nan => None,
        },
        Err(_) => None,
    }
}
