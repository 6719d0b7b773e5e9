//! Names that are given numbers.

ghost use Rattle.std.specs.Prelude.{◌≡◌, ◌≤◌, ◌<◌, ℕ, pos, Ok, Some, ◌-◌, true, None, IfNone, IfSome, IsSome, is_some, length, slice_get};
ghost use Rattle.std.specs.Option.{option_map};
ghost use Rattle.origin_labels.specs.Stores.{IsKept};
ghost use Rattle.js_ast.specs.declared.operators.AssignOperator.{AssignOperator};
ghost use Rattle.js_ast.specs.declared.operators.AssignOperator.TheVariants as assign_operator;
ghost use Rattle.js_ast.specs.declared.operators.UnaryOperator.TheVariants as unary_operator;
ghost use Rattle.js_ast.specs.Trees as trees;
ghost use Rattle.js_ast.specs.Views.{view_expr, view_stmt};
ghost use Rattle.js_values.specs.declared.value.Value.TheVariants as value;
ghost use Rattle.js_values.specs.Records.{bound_in};
ghost use Rattle.native_protocol.specs.declared.request.Seen.TheVariants as seen;
ghost use Rattle.object_heap.specs.Formed.{own_in, rows_in};
ghost use Rattle.object_heap.specs.Places.{StandsAt};
ghost use Rattle.es_meaning.specs.Evaluation.{operator_of};
ghost use Rattle.es_meaning.specs.Operators.{binary_of, unary_of};
ghost use Rattle.run_state.specs.Names.{place_of};
ghost use Rattle.run_state.specs.Worlds.{Belongs};
ghost use Rattle.continuations.specs.Shapes.{step_of};
ghost use Rattle.step_numbers.specs.Assigned.{Finishes, Gives, Puts, PutsAt, Rebinds, array_in, assigned_at, changes, changes_binding, changes_global, context_of, counted_by, finished_at, given_by, if_changes, is_array, name_in, puts_at_once, slot_written, written_in};
ghost use Rattle.es_meaning.specs.Plain.{in_record, on_global};
ghost use Rattle.step_numbers.specs.Evaluated.{as_value, combined_of, global_in, integer, labelled_number};

use crate::evaluating::{Counted, DEPTH, Evaluated, GLOBAL, as_value, joined, named, number};
use crate::operators::{combined, combines};
use crate::values::value_of;
use flow_frames::Rule;
use flow_text::Text;
use js_ast::{AssignOperator, BinaryOperator, Expr, ExprKind, PostfixOperator, Stmt, StmtKind};
use js_number::{Int, Num, Primitive};
use js_values::{Body, Class, EnvId, Labelled, Slot, Value};
use origin_labels::Labels;
use run_state::{Place, World};

/// A property of the global object whose value can be written over.
#[derive(Drop)]
struct WritePlace<T> {
    place: usize,
    /// The label of its existence.
    existence: T,
}

/// Evaluates an expression in a record, where it gives a name a number that can be changed: what is assigned is made of names, numbers, parentheses and arithmetic, it isn't deep, and there are turns for it. Where that would throw, stop the run or want memory, it isn't done, and nothing but the store of labels changes.
#[inline(always)]
pub fn assign<L: Labels>(
    labels: &mut L,
    world: &mut World<L::Label>,
    at: EnvId,
    turns: u64,
    e: &Expr,
) -> Option<Evaluated<L::Label>>
    requires at { at.0 < length world.old.records }
    requires belongs { Belongs L.made L.meaning labels.old world.old }
    ensures exact { L.firm labels.old ≡ true → option_map (λ x. (x.value.value, x.turns)) result ≡ as_value world.old.records world.old.heap at.0 integer (assigned_at (L.meaning labels.old) world.old at.0 (view_expr e.now) turns) }
    ensures gives { IfSome result (λ x. Gives L.made L.meaning labels.new (view_expr e.now) at.0 world.old world.new turns x.value x.turns) }
    ensures unchanged { IfNone result (world.new ≡ world.old) }
    ensures rebinds { Rebinds L.made L.meaning labels.new world.old world.new }
    ensures kept { IsKept L.made L.meaning L.room L.firm labels.old labels.new }
{
    as_value(assigned(labels, world, at, turns, e))
}

/// The same, of an expression that gives such a number.
#[inline(always)]
fn assigned<L: Labels>(
    labels: &mut L,
    world: &mut World<L::Label>,
    at: EnvId,
    turns: u64,
    e: &Expr,
) -> Option<Counted<L::Label>>
    requires at { at.0 < length world.old.records }
    requires belongs { Belongs L.made L.meaning labels.old world.old }
    ensures exact { L.firm labels.old ≡ true → option_map (λ c. (c.number, c.turns)) result ≡ assigned_at (L.meaning labels.old) world.old at.0 (view_expr e.now) turns }
    ensures gives { IfSome result (λ c. Gives L.made L.meaning labels.new (view_expr e.now) at.0 world.old world.new turns (labelled_number c.number c.label) c.turns) }
    ensures unchanged { IfNone result (world.new ≡ world.old) }
    ensures rebinds { Rebinds L.made L.meaning labels.new world.old world.new }
    ensures kept { IsKept L.made L.meaning L.room L.firm labels.old labels.new }
{
    if turns < 2 {
        return None;
    }
    match &*e.kind {
        ExprKind::Assign {
            target,
            operator,
            value,
        } => assignment(labels, world, at, turns, target, *operator, value),
        ExprKind::Postfix { operand, operator } => {
            counted_behind(labels, world, at, turns, operand, *operator)
        }
        _ => None,
    }
}

/// Evaluates an expression statement in a record, where its expression is assigned so at once, and answers how many turns are left. It comes to its end.
#[inline(always)]
pub fn finish<L: Labels>(
    labels: &mut L,
    world: &mut World<L::Label>,
    at: EnvId,
    turns: u64,
    s: &Stmt,
) -> Option<u64>
    requires at { at.0 < length world.old.records }
    requires belongs { Belongs L.made L.meaning labels.old world.old }
    ensures exact { L.firm labels.old ≡ true → result ≡ finished_at (L.meaning labels.old) world.old at.0 (view_stmt s.now) turns }
    ensures finishes { IfSome result (Finishes L.made L.meaning labels.new (view_stmt s.now) at.0 world.old world.new turns) }
    ensures unchanged { IfNone result (world.new ≡ world.old) }
    ensures rebinds { Rebinds L.made L.meaning labels.new world.old world.new }
    ensures kept { IsKept L.made L.meaning L.room L.firm labels.old labels.new }
{
    if turns == 0 {
        return None;
    }
    match &*s.kind {
        StmtKind::Expr { expr, .. } => {
            let given = assigned(labels, world, at, turns - 1, expr)?;
            Some(given.turns)
        }
        _ => None,
    }
}

/// `++` or `--` behind a name: the number is changed by one, and is what the expression gives.
#[inline(always)]
fn counted_behind<L: Labels>(
    labels: &mut L,
    world: &mut World<L::Label>,
    at: EnvId,
    turns: u64,
    target: &Expr,
    operator: PostfixOperator,
) -> Option<Counted<L::Label>>
    requires turns { 2 ≤ turns }
    requires at { at.0 < length world.old.records }
    requires belongs { Belongs L.made L.meaning labels.old world.old }
    ensures exact { L.firm labels.old ≡ true → option_map (λ c. (c.number, c.turns)) result ≡ if_changes (L.meaning labels.old) world.old at.0 (name_in (view_expr target.now)) (counted_by world.old at.0 (step_of operator) (turns - 2)) }
    ensures gives { (place : ℕ) → IfSome result (λ c. Gives L.made L.meaning labels.new (trees.postfix place (view_expr target.now) operator) at.0 world.old world.new turns (labelled_number c.number c.label) c.turns) }
    ensures unchanged { IfNone result (world.new ≡ world.old) }
    ensures rebinds { Rebinds L.made L.meaning labels.new world.old world.new }
    ensures kept { IsKept L.made L.meaning L.room L.firm labels.old labels.new }
{
    let name = name_of(target)?;
    let old = named(labels, world, at, turns - 2, name)?;
    let more = one_more(step_of(operator), old.number)?;
    put(labels, world, at, name, more, old.label)?;
    Some(old)
}

/// The operator by which a number is changed by one.
#[inline(always)]
fn step_of(operator: PostfixOperator) -> BinaryOperator
    ensures { result ≡ step_of operator }
{
    match operator {
        PostfixOperator::Increment => BinaryOperator::Add,
        PostfixOperator::Decrement => BinaryOperator::Subtract,
    }
}

/// A number with one added or taken away, where that is a number of the profile.
#[inline(always)]
#[tactic(auto, using(crate::proofs::NumberLaws::plus_number))]
fn one_more(operator: BinaryOperator, number: Int) -> Option<Int>
    ensures exact { result ≡ combined_of operator number (pos 1) }
    ensures counts { IfSome result (λ n. binary_of operator (value.Primitive (integer number)) (value.Primitive (integer (pos 1))) ≡ Ok (integer n)) }
    ensures plus { unary_of unary_operator.Plus (seen.Prim (integer number)) ≡ Ok (integer number) }
{
    combined(operator, number, one())
}

/// The number one.
#[inline(always)]
fn one() -> Int
    ensures { result ≡ pos 1 }
{
    Int::new(1).unwrap()
}

/// An assignment of a number to a name.
#[inline(always)]
fn assignment<L: Labels>(
    labels: &mut L,
    world: &mut World<L::Label>,
    at: EnvId,
    turns: u64,
    target: &Expr,
    operator: AssignOperator,
    value: &Expr,
) -> Option<Counted<L::Label>>
    requires turns { 2 ≤ turns }
    requires at { at.0 < length world.old.records }
    requires belongs { Belongs L.made L.meaning labels.old world.old }
    ensures exact { L.firm labels.old ≡ true → option_map (λ c. (c.number, c.turns)) result ≡ if_changes (L.meaning labels.old) world.old at.0 (name_in (view_expr target.now)) (given_by world.old at.0 (operator_of operator) (view_expr value.now) (turns - 2)) }
    ensures gives { (place : ℕ) → IfSome result (λ c. Gives L.made L.meaning labels.new (trees.assign place (view_expr target.now) operator (view_expr value.now)) at.0 world.old world.new turns (labelled_number c.number c.label) c.turns) }
    ensures unchanged { IfNone result (world.new ≡ world.old) }
    ensures rebinds { Rebinds L.made L.meaning labels.new world.old world.new }
    ensures kept { IsKept L.made L.meaning L.room L.firm labels.old labels.new }
{
    match operator_of(operator) {
        Some(by) => updated_value(labels, world, at, turns, target, by, value),
        None => assigned_value(labels, world, at, turns, target, value),
    }
}

/// An assignment by `=`.
#[inline(always)]
fn assigned_value<L: Labels>(
    labels: &mut L,
    world: &mut World<L::Label>,
    at: EnvId,
    turns: u64,
    target: &Expr,
    value: &Expr,
) -> Option<Counted<L::Label>>
    requires turns { 2 ≤ turns }
    requires at { at.0 < length world.old.records }
    requires belongs { Belongs L.made L.meaning labels.old world.old }
    ensures exact { L.firm labels.old ≡ true → option_map (λ c. (c.number, c.turns)) result ≡ if_changes (L.meaning labels.old) world.old at.0 (name_in (view_expr target.now)) (given_by world.old at.0 None (view_expr value.now) (turns - 2)) }
    ensures gives { (place : ℕ) → IfSome result (λ c. Gives L.made L.meaning labels.new (trees.assign place (view_expr target.now) assign_operator.Assign (view_expr value.now)) at.0 world.old world.new turns (labelled_number c.number c.label) c.turns) }
    ensures unchanged { IfNone result (world.new ≡ world.old) }
    ensures rebinds { Rebinds L.made L.meaning labels.new world.old world.new }
    ensures kept { IsKept L.made L.meaning L.room L.firm labels.old labels.new }
{
    let name = name_of(target)?;
    let found = number(labels, world, at, turns - 2, DEPTH, value)?;
    put(labels, world, at, name, found.number, found.label)?;
    Some(found)
}

/// A compound assignment of a number to a name that has one.
#[inline(always)]
fn updated_value<L: Labels>(
    labels: &mut L,
    world: &mut World<L::Label>,
    at: EnvId,
    turns: u64,
    target: &Expr,
    by: BinaryOperator,
    value: &Expr,
) -> Option<Counted<L::Label>>
    requires turns { 2 ≤ turns }
    requires at { at.0 < length world.old.records }
    requires belongs { Belongs L.made L.meaning labels.old world.old }
    ensures exact { L.firm labels.old ≡ true → option_map (λ c. (c.number, c.turns)) result ≡ if_changes (L.meaning labels.old) world.old at.0 (name_in (view_expr target.now)) (given_by world.old at.0 (Some by) (view_expr value.now) (turns - 2)) }
    ensures gives { (place : ℕ) (operator : AssignOperator) → operator_of operator ≡ Some by → IfSome result (λ c. Gives L.made L.meaning labels.new (trees.assign place (view_expr target.now) operator (view_expr value.now)) at.0 world.old world.new turns (labelled_number c.number c.label) c.turns) }
    ensures unchanged { IfNone result (world.new ≡ world.old) }
    ensures rebinds { Rebinds L.made L.meaning labels.new world.old world.new }
    ensures kept { IsKept L.made L.meaning L.room L.firm labels.old labels.new }
{
    if !combines(by) {
        return None;
    }
    let name = name_of(target)?;
    let old = named(labels, world, at, turns - 2, name)?;
    let operand = number(labels, world, at, turns - 2, DEPTH, value)?;
    let given = joined(labels, by, old, operand)?;
    put(labels, world, at, name, given.number, given.label)?;
    Some(given)
}

/// The operator of a compound assignment.
#[inline(always)]
fn operator_of(operator: AssignOperator) -> Option<BinaryOperator>
    ensures { result ≡ operator_of operator }
{
    match operator {
        AssignOperator::Assign => None,
        AssignOperator::Multiply => Some(BinaryOperator::Multiply),
        AssignOperator::Divide => Some(BinaryOperator::Divide),
        AssignOperator::Remainder => Some(BinaryOperator::Remainder),
        AssignOperator::Add => Some(BinaryOperator::Add),
        AssignOperator::Subtract => Some(BinaryOperator::Subtract),
        AssignOperator::ShiftLeft => Some(BinaryOperator::ShiftLeft),
        AssignOperator::ShiftRight => Some(BinaryOperator::ShiftRight),
        AssignOperator::ShiftRightZero => Some(BinaryOperator::ShiftRightZero),
        AssignOperator::BitAnd => Some(BinaryOperator::BitAnd),
        AssignOperator::BitXor => Some(BinaryOperator::BitXor),
        AssignOperator::BitOr => Some(BinaryOperator::BitOr),
    }
}

/// The name that an expression is.
#[inline(always)]
#[tactic(auto, using(js_ast::specs::declared::trees::ExprKind::TheViews::the_lemmas))]
fn name_of(e: &Expr) -> Option<&Text>
    ensures exact { option_map (λ name. name.now) result ≡ name_in (view_expr e.now) }
    ensures name { IfSome result (λ name. view_expr e.now ≡ trees.name e.now.at name.now) }
{
    match &*e.kind {
        ExprKind::Name(name) => Some(name),
        _ => None,
    }
}

/// Gives a name a number, if it is bound or the global object has a property of the name, that can be changed, and its label includes what rule W1 asks for.
#[inline(always)]
fn put<L: Labels>(
    labels: &mut L,
    world: &mut World<L::Label>,
    at: EnvId,
    name: &Text,
    number: Int,
    label: L::Label,
) -> Option<()>
    requires at { at.0 < length world.old.records }
    requires label { L.made labels.old label }
    requires belongs { Belongs L.made L.meaning labels.old world.old }
    ensures exact { L.firm labels.old ≡ true → is_some result ≡ changes (L.meaning labels.old) world.old at.0 name.now }
    ensures puts { IfSome result (λ _. Puts L.made L.meaning labels.new at.0 name.now (labelled_number number label) world.old world.new) }
    ensures unchanged { IfNone result (world.new ≡ world.old) }
    ensures rebinds { Rebinds L.made L.meaning labels.new world.old world.new }
    ensures kept { IsKept L.made L.meaning L.room L.firm labels.old labels.new }
{
    let value = Labelled {
        value: Value::Primitive(Primitive::Num(Num::Int(number))),
        label,
    };
    match world.records.lookup(at, name) {
        Some(e) => put_bound(labels, world, e, name, value),
        None => put_global(labels, world, name, value),
    }
}

/// Gives a name of the global object a value that is no text at once. Where that would throw, stop the run, call a setter or want memory, it isn't done, and nothing but the store of labels changes.
#[inline(always)]
pub fn put_at_once<L: Labels>(
    labels: &mut L,
    world: &mut World<L::Label>,
    place: Place,
    name: &Text,
    value: &Labelled<L::Label>,
) -> Option<()>
    requires label { L.made labels.old value.now.label }
    requires belongs { Belongs L.made L.meaning labels.old world.old }
    ensures exact { L.firm labels.old ≡ true → is_some result ≡ puts_at_once (L.meaning labels.old) world.old (place_of place) name.now value.now.value }
    ensures puts { IfSome result (λ _. PutsAt L.made L.meaning labels.new (place_of place) name.now value.now world.old world.new) }
    ensures unchanged { IfNone result (world.new ≡ world.old) }
    ensures rebinds { Rebinds L.made L.meaning labels.new world.old world.new }
    ensures kept { IsKept L.made L.meaning L.room L.firm labels.old labels.new }
{
    match place {
        Place::Global => {
            let given = value_of(value)?;
            put_global(labels, world, name, given)
        }
        Place::Record(_) => None,
        Place::Nowhere => None,
    }
}

/// Gives a name another value in the record that binds it.
#[inline(always)]
fn put_bound<L: Labels>(
    labels: &mut L,
    world: &mut World<L::Label>,
    e: EnvId,
    name: &Text,
    value: Labelled<L::Label>,
) -> Option<()>
    requires bound { IsSome (bound_in name.now (slice_get world.old.records e.0)) }
    requires label { L.made labels.old value.label }
    requires belongs { Belongs L.made L.meaning labels.old world.old }
    ensures exact { L.firm labels.old ≡ true → is_some result ≡ changes_binding (L.meaning labels.old) (context_of (L.meaning labels.old) world.old) (bound_in name.now (slice_get world.old.records e.0)) }
    ensures puts { IfSome result (λ _. PutsAt L.made L.meaning labels.new (in_record e.0) name.now value world.old world.new) }
    ensures unchanged { IfNone result (world.new ≡ world.old) }
    ensures rebinds { Rebinds L.made L.meaning labels.new world.old world.new }
    ensures kept { IsKept L.made L.meaning L.room L.firm labels.old labels.new }
{
    let context = world.frames.context(labels);
    match world.records.assign(labels, e, name, context, value) {
        Ok(()) => Some(()),
        Err(_) => None,
    }
}

/// Gives the global object's own property with a name another value.
fn put_global<L: Labels>(
    labels: &mut L,
    world: &mut World<L::Label>,
    name: &Text,
    value: Labelled<L::Label>,
) -> Option<()>
    requires label { L.made labels.old value.label }
    requires belongs { Belongs L.made L.meaning labels.old world.old }
    ensures exact { L.firm labels.old ≡ true → is_some result ≡ changes_global (L.meaning labels.old) (context_of (L.meaning labels.old) world.old) name.now (global_in world.old.heap) }
    ensures there { IfSome result (λ _. IsSome (own_in name.now (global_in world.old.heap))) }
    ensures puts { IfSome result (λ _. PutsAt L.made L.meaning labels.new on_global name.now value world.old world.new) }
    ensures unchanged { IfNone result (world.new ≡ world.old) }
    ensures rebinds { Rebinds L.made L.meaning labels.new world.old world.new }
    ensures kept { IsKept L.made L.meaning L.room L.firm labels.old labels.new }
{
    let found = written(world, name)?;
    let context = world.frames.context(labels);
    let need = labels.join(context, found.existence).ok()?;
    match world
        .heap
        .write_at(labels, Rule::W1, GLOBAL, name, found.place, need, value)
    {
        Ok(()) => Some(()),
        Err(_) => None,
    }
}

/// The global object's own property with a name, if its value can be written over (ECMA-262 8.12.4). It is searched for once: its place serves the write.
#[inline(always)]
fn written<T: Copy>(world: &World<T>, name: &Text) -> Option<WritePlace<T>>
    requires { 10 ≤ length world.now.heap }
    ensures written { option_map (λ w. w.existence) result ≡ written_in name.now (global_in world.now.heap) }
    ensures stands { IfSome result (λ w. StandsAt name.now (rows_in (global_in world.now.heap)) w.place) }
{
    if is_array(world) {
        return None;
    }
    let place = world.heap.place_named(GLOBAL, name)?;
    let slot = world.heap.slot_at(GLOBAL, place);
    let existence = slot_written(slot)?;
    Some(WritePlace { place, existence })
}

/// Whether the global object is an array.
#[inline(always)]
fn is_array<T: Copy>(world: &World<T>) -> bool
    requires { 10 ≤ length world.now.heap }
    ensures { result ≡ array_in (global_in world.now.heap) }
{
    is_array_class(world.heap.shape(GLOBAL).class)
}

/// Whether it is the class of arrays.
#[inline(always)]
fn is_array_class(class: Class) -> bool
    ensures { result ≡ is_array class }
{
    matches!(class, Class::Array)
}

/// The label of the existence of a property whose value can be written over.
#[inline(always)]
fn slot_written<T: Copy>(slot: &Slot<T>) -> Option<T>
    ensures { result ≡ slot_written slot.now }
{
    if !slot.marks.writable {
        return None;
    }
    match &slot.body {
        Body::Data(_) => Some(slot.existence),
        Body::Accessor { .. } => None,
    }
}
