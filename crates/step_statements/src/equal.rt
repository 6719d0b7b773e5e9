//! Strict equality of values (ECMA-262 11.9.6).

ghost use Rattle.std.specs.Prelude.{◌≡◌, Ok};
ghost use Rattle.js_ast.specs.declared.operators.BinaryOperator.TheVariants as operator;
ghost use Rattle.js_number.specs.declared.primitive.Primitive.TheVariants as prims;
ghost use Rattle.es_meaning.specs.Operators.{binary_of};

use js_number::strict_equal;
use js_values::Value;

/// `left === right`.
#[tactic(auto, unfolding(es_meaning::specs::Operators::binary_of))]
pub(crate) fn same(left: &Value, right: &Value) -> bool
    ensures { binary_of operator.StrictEqual left.now right.now ≡ Ok (prims.Bool result) }
{
    match (left, right) {
        (Value::Primitive(left), Value::Primitive(right)) => strict_equal(left, right),
        (Value::Object(left), Value::Object(right)) => left.0 == right.0,
        _ => false,
    }
}
