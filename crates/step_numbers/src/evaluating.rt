//! Expressions of names and numbers.

ghost use Rattle.std.specs.Prelude.{◌≡◌, ◌<◌, ℕ, true, Ok, Some, IfSome, length};
ghost use Rattle.std.specs.Option.{option_map};
ghost use Rattle.origin_labels.specs.Stores.{IsKept};
ghost use Rattle.js_ast.specs.Trees as trees;
ghost use Rattle.js_ast.specs.Views.{view_expr};
ghost use Rattle.js_values.specs.declared.property.Body.TheVariants.{Data};
ghost use Rattle.run_state.specs.Worlds.{Belongs};
ghost use Rattle.js_number.specs.declared.primitive.Primitive.TheVariants as prims;
ghost use Rattle.origin_labels.specs.Label.{union};
ghost use Rattle.js_values.specs.declared.value.Value.TheVariants as value;
ghost use Rattle.es_meaning.specs.Operators.{binary_of};
ghost use Rattle.continuations.specs.Shapes.{evaluates_both};
ghost use Rattle.step_numbers.specs.Evaluated.{Evaluates, as_value, combined_of, global_in, integer, labelled_number, left_with, name_number, number_at, number_held, number_of_body, number_of_value, truth_at, value_at};
ghost use Rattle.object_heap.specs.Formed.{own_in};
ghost use Rattle.step_numbers.specs.Named.{IsHeld, IsNamed};

use crate::operators::{combined, combines, compared, compares};
use crate::values::evaluated_name;
use flow_text::Text;
use js_ast::{BinaryOperator, Expr, ExprKind};
use js_number::{Int, Num, Primitive};
use js_values::{Body, EnvId, Labelled, ObjId, Value};
use origin_labels::Labels;
use run_state::World;

// The global object, with which a run starts.
pub(crate) const GLOBAL: ObjId = ObjId(1);

// A deeper expression is evaluated node by node, so that each node is tried at most so many times.
pub(crate) const DEPTH: u32 = 8;

/// What an expression comes to.
#[derive(Drop)]
pub struct Evaluated<T> {
    pub value: Labelled<T>,
    /// How many turns are left.
    pub turns: u64,
}

/// A number that an expression comes to.
#[derive(Drop)]
pub(crate) struct Counted<T> {
    pub(crate) number: Int,
    pub(crate) label: T,
    /// How many turns are left.
    pub(crate) turns: u64,
}

/// Evaluates an expression in a record, where it is a name that has another value than a text, or is made of names, numbers, parentheses and operators between numbers, with one comparison outermost or none, it isn't deep, and there are turns for it. Nothing but the store of labels changes.
#[inline(always)]
pub fn evaluate<L: Labels>(
    labels: &mut L,
    world: &World<L::Label>,
    at: EnvId,
    turns: u64,
    e: &Expr,
) -> Option<Evaluated<L::Label>>
    requires belongs { Belongs L.made L.meaning labels.old world.now }
    requires at { at.0 < length world.now.records }
    ensures exact { L.firm labels.old ≡ true → option_map (λ x. (x.value.value, x.turns)) result ≡ value_at world.now.records world.now.heap at.0 8 (view_expr e.now) turns }
    ensures evaluates { IfSome result (λ x. Evaluates L.made L.meaning labels.new (view_expr e.now) at.0 world.now turns x.value x.turns) }
    ensures kept { IsKept L.made L.meaning L.room L.firm labels.old labels.new }
{
    match &*e.kind {
        ExprKind::Name(name) => evaluated_name(labels, world, at, turns, name),
        ExprKind::Binary {
            left,
            operator,
            right,
        } => {
            if compares(*operator) {
                comparison(labels, world, at, turns, left, *operator, right)
            } else {
                as_value(number(labels, world, at, turns, DEPTH, e))
            }
        }
        _ => as_value(number(labels, world, at, turns, DEPTH, e)),
    }
}

#[inline(always)]
pub(crate) fn as_value<T>(counted: Option<Counted<T>>) -> Option<Evaluated<T>>
    ensures { result ≡ option_map (λ c. record { value = labelled_number c.number c.label; turns = c.turns }) counted }
{
    let counted = counted?;
    Some(Evaluated {
        value: Labelled {
            value: Value::Primitive(Primitive::Num(Num::Int(counted.number))),
            label: counted.label,
        },
        turns: counted.turns,
    })
}

/// A comparison of two numbers.
#[inline(always)]
fn comparison<L: Labels>(
    labels: &mut L,
    world: &World<L::Label>,
    at: EnvId,
    turns: u64,
    left: &Expr,
    operator: BinaryOperator,
    right: &Expr,
) -> Option<Evaluated<L::Label>>
    requires belongs { Belongs L.made L.meaning labels.old world.now }
    requires at { at.0 < length world.now.records }
    ensures exact { L.firm labels.old ≡ true → option_map (λ x. (x.value.value, x.turns)) result ≡ as_value world.now.records world.now.heap at.0 prims.Bool (truth_at world.now.records world.now.heap at.0 8 operator (view_expr left.now) (view_expr right.now) turns) }
    ensures evaluates { (place : ℕ) → IfSome result (λ x. Evaluates L.made L.meaning labels.new (trees.binary place (view_expr left.now) operator (view_expr right.now)) at.0 world.now turns x.value x.turns) }
    ensures kept { IsKept L.made L.meaning L.room L.firm labels.old labels.new }
{
    if turns == 0 {
        return None;
    }
    let first = operand(labels, world, at, turns - 1, DEPTH, left)?;
    let second = operand(labels, world, at, first.turns, DEPTH, right)?;
    let holds = compared(operator, first.number, second.number)?;
    let Ok(label) = labels.join(first.label, second.label) else {
        return None;
    };
    Some(Evaluated {
        value: Labelled {
            value: Value::Primitive(Primitive::Bool(holds)),
            label,
        },
        turns: second.turns,
    })
}

/// A number.
#[cycle(numbers)]
#[tactic(auto, using(crate::proofs::ExactLaws::stays_out, js_ast::specs::declared::trees::ExprKind::TheViews::the_lemmas))]
pub(crate) fn number<L: Labels>(
    labels: &mut L,
    world: &World<L::Label>,
    at: EnvId,
    turns: u64,
    depth: u32,
    e: &Expr,
) -> Option<Counted<L::Label>>
    requires belongs { Belongs L.made L.meaning labels.old world.now }
    requires at { at.0 < length world.now.records }
    ensures exact { L.firm labels.old ≡ true → option_map (λ c. (c.number, c.turns)) result ≡ number_at world.now.records world.now.heap at.0 depth (view_expr e.now) turns }
    ensures evaluates { IfSome result (λ c. Evaluates L.made L.meaning labels.new (view_expr e.now) at.0 world.now turns (labelled_number c.number c.label) c.turns) }
    ensures belongs { Belongs L.made L.meaning labels.new world.now }
    ensures kept { IsKept L.made L.meaning L.room L.firm labels.old labels.new }
{
    if turns == 0 || depth == 0 {
        return None;
    }
    let turns = turns - 1;
    match &*e.kind {
        ExprKind::Name(name) => named(labels, world, at, turns, name),
        ExprKind::Number(n) => Some(Counted {
            number: *n,
            label: labels.bottom(),
            turns,
        }),
        ExprKind::Paren(inner) => number(labels, world, at, turns, depth - 1, inner),
        ExprKind::Binary {
            left,
            operator,
            right,
        } => {
            if !combines(*operator) {
                return None;
            }
            let first = operand(labels, world, at, turns, depth - 1, left)?;
            let second = operand(labels, world, at, first.turns, depth - 1, right)?;
            joined(labels, *operator, first, second)
        }
        ExprKind::String { .. }
        | ExprKind::This
        | ExprKind::Null
        | ExprKind::Bool(_)
        | ExprKind::Array { .. }
        | ExprKind::Object { .. }
        | ExprKind::Function(_)
        | ExprKind::Member { .. }
        | ExprKind::Index { .. }
        | ExprKind::New { .. }
        | ExprKind::Call { .. }
        | ExprKind::Postfix { .. }
        | ExprKind::Unary { .. }
        | ExprKind::Conditional { .. }
        | ExprKind::Assign { .. }
        | ExprKind::Comma { .. } => None,
    }
}

/// The same. A name and a number, which most operands are, take no call.
#[cycle(numbers)]
#[inline(always)]
fn operand<L: Labels>(
    labels: &mut L,
    world: &World<L::Label>,
    at: EnvId,
    turns: u64,
    depth: u32,
    e: &Expr,
) -> Option<Counted<L::Label>>
    requires belongs { Belongs L.made L.meaning labels.old world.now }
    requires at { at.0 < length world.now.records }
    ensures exact { L.firm labels.old ≡ true → option_map (λ c. (c.number, c.turns)) result ≡ number_at world.now.records world.now.heap at.0 depth (view_expr e.now) turns }
    ensures evaluates { IfSome result (λ c. Evaluates L.made L.meaning labels.new (view_expr e.now) at.0 world.now turns (labelled_number c.number c.label) c.turns) }
    ensures belongs { Belongs L.made L.meaning labels.new world.now }
    ensures kept { IsKept L.made L.meaning L.room L.firm labels.old labels.new }
{
    if turns == 0 || depth == 0 {
        return None;
    }
    match &*e.kind {
        ExprKind::Name(name) => named(labels, world, at, turns - 1, name),
        ExprKind::Number(n) => Some(Counted {
            number: *n,
            label: labels.bottom(),
            turns: turns - 1,
        }),
        _ => number(labels, world, at, turns, depth, e),
    }
}

/// The number that a name has, which a record binds from this one on, or else the global object itself (ECMA-262 10.3.1, 10.2.1.2.4).
#[inline(always)]
pub(crate) fn named<L: Labels>(
    labels: &mut L,
    world: &World<L::Label>,
    at: EnvId,
    turns: u64,
    name: &Text,
) -> Option<Counted<L::Label>>
    requires at { at.0 < length world.now.records }
    requires belongs { Belongs L.made L.meaning labels.old world.now }
    ensures exact { L.firm labels.old ≡ true → option_map (λ c. (c.number, c.turns)) result ≡ left_with (name_number world.now.records world.now.heap at.0 name.now) turns }
    ensures named { IfSome result (λ c. IsNamed L.made L.meaning labels.new at.0 name.now world.now (labelled_number c.number c.label)) }
    ensures left { IfSome result (λ c. c.turns ≡ turns) }
    ensures kept { IsKept L.made L.meaning L.room L.firm labels.old labels.new }
{
    match world.records.find(at, name) {
        Some(place) => counted_value(world.records.read_at(place), turns),
        None => global_number(labels, world, turns, name),
    }
}

/// The number that a value is.
#[inline(always)]
fn counted_value<T: Copy>(found: &Labelled<T>, turns: u64) -> Option<Counted<T>>
    ensures exact { option_map (λ c. (c.number, c.turns)) result ≡ left_with (number_of_value (Some found.now)) turns }
    ensures found { IfSome result (λ c. labelled_number c.number c.label ≡ found.now) }
    ensures left { IfSome result (λ c. c.turns ≡ turns) }
{
    match &found.value {
        Value::Primitive(Primitive::Num(Num::Int(n))) => Some(Counted {
            number: *n,
            label: found.label,
            turns,
        }),
        _ => None,
    }
}

/// The number that the global object's own property with the name holds. That the property is there depends on the label of its existence, which its value has besides.
#[inline(always)]
fn global_number<L: Labels>(
    labels: &mut L,
    world: &World<L::Label>,
    turns: u64,
    name: &Text,
) -> Option<Counted<L::Label>>
    requires { Belongs L.made L.meaning labels.old world.now }
    ensures exact { L.firm labels.old ≡ true → option_map (λ c. (c.number, c.turns)) result ≡ left_with (number_held (own_in name.now (global_in world.now.heap))) turns }
    ensures held { IfSome result (λ c. IsHeld L.made L.meaning labels.new name.now world.now.heap (labelled_number c.number c.label)) }
    ensures left { IfSome result (λ c. c.turns ≡ turns) }
    ensures kept { IsKept L.made L.meaning L.room L.firm labels.old labels.new }
{
    let slot = world.heap.own_named(GLOBAL, name)?;
    let number = held_number(&slot.body)?;
    let label = labels.join(slot.existence, slot.label).ok()?;
    Some(Counted {
        number,
        label,
        turns,
    })
}

/// The number that a property holds.
#[inline(always)]
fn held_number(body: &Body) -> Option<Int>
    ensures exact { result ≡ number_of_body body.now }
    ensures holds { IfSome result (λ n. body.now ≡ Data (value.Primitive (integer n))) }
{
    match body {
        Body::Data(Value::Primitive(Primitive::Num(Num::Int(n)))) => Some(*n),
        _ => None,
    }
}

/// What arithmetic gives of two numbers, with the turns that are left behind the second.
#[inline(always)]
pub(crate) fn joined<L: Labels>(
    labels: &mut L,
    operator: BinaryOperator,
    first: Counted<L::Label>,
    second: Counted<L::Label>,
) -> Option<Counted<L::Label>>
    requires first { L.made labels.old first.label }
    requires second { L.made labels.old second.label }
    ensures exact { L.firm labels.old ≡ true → option_map (λ c. (c.number, c.turns)) result ≡ left_with (combined_of operator first.number second.number) second.turns }
    ensures gives { IfSome result (λ c. binary_of operator (value.Primitive (integer first.number)) (value.Primitive (integer second.number)) ≡ Ok (integer c.number)) }
    ensures both { IfSome result (λ _. evaluates_both operator ≡ true) }
    ensures made { IfSome result (λ c. L.made labels.new c.label) }
    ensures means { IfSome result (λ c. L.meaning labels.new c.label ≡ union (L.meaning labels.old first.label) (L.meaning labels.old second.label)) }
    ensures left { IfSome result (λ c. c.turns ≡ second.turns) }
    ensures kept { IsKept L.made L.meaning L.room L.firm labels.old labels.new }
{
    let number = combined(operator, first.number, second.number)?;
    let label = labels.join(first.label, second.label).ok()?;
    Some(Counted {
        number,
        label,
        turns: second.turns,
    })
}
