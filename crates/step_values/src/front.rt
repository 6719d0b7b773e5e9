//! Operators in front of a value.

ghost use Rattle.std.specs.Prelude.{◌≡◌, IfOk};
ghost use Rattle.js_ast.specs.declared.operators.UnaryOperator.TheVariants as operator;
ghost use Rattle.js_values.specs.declared.value.Value.TheVariants as value_kind;
ghost use Rattle.es_meaning.specs.Operators.{type_of, type_of_class, unary_of, unary_of_object, unary_of_primitive};
ghost use Rattle.step_values.specs.Answers.{Answers};
ghost use Rattle.step_values.specs.Converted.{value_seen};

use crate::refusal::Refusal;
use flow_text::{OutOfMemory, Text};
use js_ast::UnaryOperator;
use js_number::{Primitive, bit_not, negate, to_boolean, to_number};
use js_values::{Class, ObjId, Value};
use object_heap::Heap;
use std::alloc::Global;

/// An operator in front of a value as it is.
#[tactic(auto, unfolding(es_meaning::specs::Operators::unary_of))]
pub(crate) fn in_front<T: Copy>(
    alloc: Global,
    heap: &Heap<T>,
    operator: UnaryOperator,
    value: &Value,
) -> Result<Primitive, Refusal>
    ensures { Answers result (unary_of operator (value_seen heap.now value.now)) }
{
    match value {
        Value::Primitive(v) => of_primitive(alloc, operator, v),
        Value::Object(o) => of_object(alloc, heap, operator, *o),
    }
}

/// An operator in front of a primitive value.
fn of_primitive(alloc: Global, operator: UnaryOperator, v: &Primitive) -> Result<Primitive, Refusal>
    ensures { Answers result (unary_of_primitive operator v.now) }
{
    match operator {
        UnaryOperator::Void => Ok(Primitive::Undefined),
        UnaryOperator::Typeof => Ok(Primitive::Str(type_name(alloc, v)?)),
        UnaryOperator::Plus => plus(v),
        UnaryOperator::Minus => minus(v),
        UnaryOperator::BitNot => flipped(v),
        UnaryOperator::Not => Ok(Primitive::Bool(!to_boolean(v))),
        UnaryOperator::Delete => Ok(Primitive::Bool(true)),
        UnaryOperator::Increment | UnaryOperator::Decrement => { Err(Refusal::elsewhere()) }
    }
}

/// `typeof v`.
#[tactic(auto, using(crate::proofs::Words::words))]
fn type_name(alloc: Global, v: &Primitive) -> Result<Text, OutOfMemory>
    ensures { IfOk result (λ text. text ≡ type_of v.now) }
{
    match v {
        Primitive::Undefined => Text::spelled(alloc, "undefined"),
        Primitive::Null => Text::spelled(alloc, "object"),
        Primitive::Bool(_) => Text::spelled(alloc, "boolean"),
        Primitive::Num(_) => Text::spelled(alloc, "number"),
        Primitive::Str(_) => Text::spelled(alloc, "string"),
    }
}

/// `+v`.
fn plus(v: &Primitive) -> Result<Primitive, Refusal>
    ensures { Answers result (unary_of_primitive operator.Plus v.now) }
{
    Ok(Primitive::Num(to_number(v)?))
}

/// `-v`.
fn minus(v: &Primitive) -> Result<Primitive, Refusal>
    ensures { Answers result (unary_of_primitive operator.Minus v.now) }
{
    Ok(Primitive::Num(negate(to_number(v)?)))
}

/// `~v`.
fn flipped(v: &Primitive) -> Result<Primitive, Refusal>
    ensures { Answers result (unary_of_primitive operator.BitNot v.now) }
{
    Ok(Primitive::Num(bit_not(to_number(v)?)))
}

/// An operator in front of an object. Of one that isn't there, nothing is known.
#[tactic(auto, unfolding(es_meaning::specs::Operators::unary_of))]
fn of_object<T: Copy>(
    alloc: Global,
    heap: &Heap<T>,
    operator: UnaryOperator,
    o: ObjId,
) -> Result<Primitive, Refusal>
    ensures { Answers result (unary_of operator (value_seen heap.now (value_kind.Object o))) }
{
    if o.0 < heap.len() {
        of_class(alloc, operator, heap.shape(o).class)
    } else {
        of_primitive(alloc, operator, &Primitive::Undefined)
    }
}

/// An operator in front of an object of a class.
fn of_class(alloc: Global, operator: UnaryOperator, class: Class) -> Result<Primitive, Refusal>
    ensures { Answers result (unary_of_object operator class) }
{
    match operator {
        UnaryOperator::Void => Ok(Primitive::Undefined),
        UnaryOperator::Typeof => Ok(Primitive::Str(class_name(alloc, class)?)),
        UnaryOperator::Not => Ok(Primitive::Bool(false)),
        UnaryOperator::Delete => Ok(Primitive::Bool(true)),
        _ => Err(Refusal::elsewhere()),
    }
}

/// `typeof` of an object of a class.
#[tactic(auto, using(crate::proofs::Words::words))]
fn class_name(alloc: Global, class: Class) -> Result<Text, OutOfMemory>
    ensures { IfOk result (λ text. text ≡ type_of_class class) }
{
    match class {
        Class::Function => Text::spelled(alloc, "function"),
        _ => Text::spelled(alloc, "object"),
    }
}
