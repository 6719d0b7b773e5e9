//! Operators: what is evaluated first, and what is done with the values of operands (ECMA-262 11.3 to 11.14).

ghost use Rattle.std.specs.Prelude.{◌≡◌, ◌+◌, true, false, List, length, IfOk};
ghost use Rattle.js_ast.specs.Views.{view_expr};
ghost use Rattle.es_meaning.specs.Operations.{Value};
ghost use Rattle.es_meaning.specs.Evaluation.{unary_value, binary_step, unary_step, delete_step, typeof_step, is_name, is_reference, operator_of, assigned_by};
ghost use Rattle.flow_meaning.specs.Planned.{planned, asking};
ghost use Rattle.flow_meaning.specs.Scopes.{Val};
ghost use Rattle.continuations.specs.declared.continuation.Continuation.TheVariants as continuation;
ghost use Rattle.continuations.specs.Kept.{without_top};
ghost use Rattle.continuations.specs.Loads.{Adds};
ghost use Rattle.continuations.specs.Pending.{owns_target, owns_use};
ghost use Rattle.continuations.specs.Resuming.{Begins, Keeps, Resumes, ResumesBehind, ResumesBeside};
ghost use Rattle.continuations.specs.Shapes.{use_of, evaluates_both};
ghost use Rattle.continuations.specs.Settings.{entrance};

use continuations::{Continuation, Control, Stack, Target, Use};
use flow_text::OutOfMemory;
use js_ast::{AssignOperator, BinaryOperator, Expr, ExprKind, UnaryOperator};

/// An operator between two expressions: the left one is evaluated first.
#[inline(always)]
pub(crate) fn begin_binary<'p, T: Copy>(
    stack: &mut Stack<'p, T>,
    left: &'p Expr,
    operator: BinaryOperator,
    right: &'p Expr,
) -> Result<Control<'p>, OutOfMemory>
    requires { length stack.old.loose ≡ 0 }
    ensures goes_on { IfOk result (Begins (λ tables inputs set functions e. binary_step (planned tables inputs set functions) (entrance tables inputs set functions) (asking tables inputs set functions) (view_expr left.entry.now) operator (view_expr right.entry.now) e.env.place) stack.old stack.new) }
    ensures keeps { IfOk result (Keeps stack.old stack.new) }
    ensures adds { IfOk result (Adds 2 stack.old stack.new) }
{
    if evaluates_both(operator) {
        begin_both(stack, left, operator, right)
    } else {
        begin_logical(stack, left, operator, right)
    }
}

/// The operators that evaluate both operands.
#[inline(always)]
fn evaluates_both(operator: BinaryOperator) -> bool
    ensures { result ≡ evaluates_both operator }
{
    !matches!(
        operator,
        BinaryOperator::And | BinaryOperator::Or | BinaryOperator::Instanceof
    )
}

/// An operator that evaluates both operands.
#[inline(always)]
#[tactic(auto, using(continuations::proofs::Behind::behind_more, continuations::proofs::Behind::setting_more, continuations::proofs::Steps::both_operands))]
fn begin_both<'p, T: Copy>(
    stack: &mut Stack<'p, T>,
    left: &'p Expr,
    operator: BinaryOperator,
    right: &'p Expr,
) -> Result<Control<'p>, OutOfMemory>
    requires loose { length stack.old.loose ≡ 0 }
    requires both { evaluates_both operator ≡ true }
    ensures goes_on { IfOk result (Begins (λ tables inputs set functions e. binary_step (planned tables inputs set functions) (entrance tables inputs set functions) (asking tables inputs set functions) (view_expr left.entry.now) operator (view_expr right.entry.now) e.env.place) stack.old stack.new) }
    ensures keeps { IfOk result (Keeps stack.old stack.new) }
    ensures adds { IfOk result (Adds 2 stack.old stack.new) }
{
    stack.push(Continuation::BinaryRight(operator, right))?;
    Ok(Control::Expr(left))
}

/// `&&`, `||` and `instanceof`.
#[inline(never)]
#[tactic(auto, using(continuations::proofs::Behind::behind_more, continuations::proofs::Behind::setting_more), unfolding(es_meaning::specs::Evaluation::binary_step))]
fn begin_logical<'p, T: Copy>(
    stack: &mut Stack<'p, T>,
    left: &'p Expr,
    operator: BinaryOperator,
    right: &'p Expr,
) -> Result<Control<'p>, OutOfMemory>
    requires loose { length stack.old.loose ≡ 0 }
    requires one { evaluates_both operator ≡ false }
    ensures goes_on { IfOk result (Begins (λ tables inputs set functions e. binary_step (planned tables inputs set functions) (entrance tables inputs set functions) (asking tables inputs set functions) (view_expr left.entry.now) operator (view_expr right.entry.now) e.env.place) stack.old stack.new) }
    ensures keeps { IfOk result (Keeps stack.old stack.new) }
    ensures adds { IfOk result (Adds 2 stack.old stack.new) }
{
    match operator {
        BinaryOperator::And => {
            stack.push(Continuation::AndRight(right))?;
            Ok(Control::Expr(left))
        }
        BinaryOperator::Or => {
            stack.push(Continuation::OrRight(right))?;
            Ok(Control::Expr(left))
        }
        BinaryOperator::Instanceof => {
            stack.push(Continuation::InstanceRight(right))?;
            Ok(Control::Expr(left))
        }
        // each other operator evaluates both
        _ => unreachable!(),
    }
}

/// An operator in front of an expression.
#[inline(never)]
#[tactic(auto, using(continuations::proofs::Behind::behind_more, continuations::proofs::Behind::setting_more), unfolding(es_meaning::specs::Evaluation::unary_step))]
pub(crate) fn begin_unary<'p, T: Copy>(
    stack: &mut Stack<'p, T>,
    operator: UnaryOperator,
    operand: &'p Expr,
) -> Result<Control<'p>, OutOfMemory>
    requires { length stack.old.loose ≡ 0 }
    ensures goes_on { IfOk result (Begins (λ tables inputs set functions e. unary_step (planned tables inputs set functions) (entrance tables inputs set functions) (asking tables inputs set functions) operator (view_expr operand.entry.now) e.env.place) stack.old stack.new) }
    ensures keeps { IfOk result (Keeps stack.old stack.new) }
    ensures adds { IfOk result (Adds 3 stack.old stack.new) }
{
    match operator {
        UnaryOperator::Delete => begin_delete(stack, operand),
        UnaryOperator::Increment => Ok(Control::Use(Use::Prefixed(BinaryOperator::Add), operand)),
        UnaryOperator::Decrement => {
            Ok(Control::Use(Use::Prefixed(BinaryOperator::Subtract), operand))
        }
        UnaryOperator::Typeof => begin_typeof(stack, operand),
        UnaryOperator::Void => begin_value(stack, UnaryOperator::Void, operand),
        UnaryOperator::Plus => begin_value(stack, UnaryOperator::Plus, operand),
        UnaryOperator::Minus => begin_value(stack, UnaryOperator::Minus, operand),
        UnaryOperator::BitNot => begin_value(stack, UnaryOperator::BitNot, operand),
        UnaryOperator::Not => begin_value(stack, UnaryOperator::Not, operand),
    }
}

/// An operator that takes the value of its operand.
#[inline(always)]
#[tactic(auto, using(continuations::proofs::Behind::behind_more, continuations::proofs::Behind::setting_more))]
fn begin_value<'p, T: Copy>(
    stack: &mut Stack<'p, T>,
    operator: UnaryOperator,
    operand: &'p Expr,
) -> Result<Control<'p>, OutOfMemory>
    requires { length stack.old.loose ≡ 0 }
    ensures goes_on { IfOk result (Begins (λ tables inputs set functions e. (planned tables inputs set functions).bind Value Value ((asking tables inputs set functions).expr (view_expr operand.entry.now) e.env.place) (unary_value (planned tables inputs set functions) (entrance tables inputs set functions) operator)) stack.old stack.new) }
    ensures keeps { IfOk result (Keeps stack.old stack.new) }
    ensures adds { IfOk result (Adds 3 stack.old stack.new) }
{
    stack.push(Continuation::Unary(operator))?;
    Ok(Control::Expr(operand))
}

/// A name that is asked for its type may have no binding, so it isn't evaluated.
#[inline(always)]
#[tactic(auto, using(continuations::proofs::Behind::behind_more, continuations::proofs::Behind::setting_more))]
fn begin_typeof<'p, T: Copy>(
    stack: &mut Stack<'p, T>,
    operand: &'p Expr,
) -> Result<Control<'p>, OutOfMemory>
    requires { length stack.old.loose ≡ 0 }
    ensures goes_on { IfOk result (Begins (λ tables inputs set functions e. typeof_step (planned tables inputs set functions) (entrance tables inputs set functions) (asking tables inputs set functions) (is_name (view_expr operand.entry.now)) (view_expr operand.entry.now) e.env.place) stack.old stack.new) }
    ensures keeps { IfOk result (Keeps stack.old stack.new) }
    ensures adds { IfOk result (Adds 3 stack.old stack.new) }
{
    if is_name(operand) {
        Ok(Control::Use(Use::Asked, operand))
    } else {
        stack.push(Continuation::Unary(UnaryOperator::Typeof))?;
        Ok(Control::Expr(operand))
    }
}

/// A reference is deleted, and of what is none only the value is taken (ECMA-262 11.4.1).
#[inline(always)]
#[tactic(auto, using(continuations::proofs::Behind::behind_more, continuations::proofs::Behind::setting_more))]
fn begin_delete<'p, T: Copy>(
    stack: &mut Stack<'p, T>,
    operand: &'p Expr,
) -> Result<Control<'p>, OutOfMemory>
    requires { length stack.old.loose ≡ 0 }
    ensures goes_on { IfOk result (Begins (λ tables inputs set functions e. delete_step (planned tables inputs set functions) (entrance tables inputs set functions) (asking tables inputs set functions) (is_reference (view_expr operand.entry.now)) (view_expr operand.entry.now) e.env.place) stack.old stack.new) }
    ensures keeps { IfOk result (Keeps stack.old stack.new) }
    ensures adds { IfOk result (Adds 3 stack.old stack.new) }
{
    if is_reference(operand) {
        Ok(Control::Use(Use::Deleted, operand))
    } else {
        stack.push(Continuation::Unary(UnaryOperator::Delete))?;
        Ok(Control::Expr(operand))
    }
}

/// Whether it is a name or a property, also in parentheses.
#[inline(always)]
#[tactic(auto, unfolding(es_meaning::specs::Evaluation::is_reference))]
pub(crate) fn is_reference(e: &Expr) -> bool
    ensures { result ≡ is_reference (view_expr e.now) }
{
    match &*e.kind {
        ExprKind::Name(_) | ExprKind::Member { .. } | ExprKind::Index { .. } => true,
        ExprKind::Paren(inner) => is_reference(inner),
        _ => false,
    }
}

/// Whether it is a name, also in parentheses.
#[inline(always)]
#[tactic(auto, unfolding(es_meaning::specs::Evaluation::is_name))]
fn is_name(e: &Expr) -> bool
    ensures { result ≡ is_name (view_expr e.now) }
{
    match &*e.kind {
        ExprKind::Name(_) => true,
        ExprKind::Paren(inner) => is_name(inner),
        _ => false,
    }
}

/// What an assignment does with its target.
#[inline(always)]
pub(crate) fn assigned_by<'p>(operator: AssignOperator, value: &'p Expr) -> Use<'p>
    ensures means { (vs : List Val) → use_of result vs ≡ assigned_by (operator_of operator) (view_expr value.entry.now) }
    ensures alone { owns_use result ≡ 0 }
{
    match operator {
        AssignOperator::Assign => Use::Assigned(value),
        AssignOperator::Multiply => Use::Updated(BinaryOperator::Multiply, value),
        AssignOperator::Divide => Use::Updated(BinaryOperator::Divide, value),
        AssignOperator::Remainder => Use::Updated(BinaryOperator::Remainder, value),
        AssignOperator::Add => Use::Updated(BinaryOperator::Add, value),
        AssignOperator::Subtract => Use::Updated(BinaryOperator::Subtract, value),
        AssignOperator::ShiftLeft => Use::Updated(BinaryOperator::ShiftLeft, value),
        AssignOperator::ShiftRight => Use::Updated(BinaryOperator::ShiftRight, value),
        AssignOperator::ShiftRightZero => Use::Updated(BinaryOperator::ShiftRightZero, value),
        AssignOperator::BitAnd => Use::Updated(BinaryOperator::BitAnd, value),
        AssignOperator::BitXor => Use::Updated(BinaryOperator::BitXor, value),
        AssignOperator::BitOr => Use::Updated(BinaryOperator::BitOr, value),
    }
}

/// Behind the left operand the right one is evaluated.
#[inline(always)]
#[tactic(auto, using(continuations::proofs::Behind::behind_more, continuations::proofs::Behind::setting_more), unfolding(es_meaning::specs::Evaluation::binary_right))]
pub fn binary_right<'p, T: Copy>(
    stack: &mut Stack<'p, T>,
    operator: BinaryOperator,
    right: &'p Expr,
) -> Result<Control<'p>, OutOfMemory>
    requires { length stack.old.loose ≡ 1 }
    ensures goes_on { IfOk result (Resumes (continuation.BinaryRight operator right.entry) stack.old stack.new) }
    ensures keeps { IfOk result (Keeps stack.old stack.new) }
    ensures adds { IfOk result (Adds 5 stack.old stack.new) }
{
    stack.push(Continuation::BinaryDone(operator))?;
    Ok(Control::Expr(right))
}

/// Behind the left operand of `instanceof` the right one is evaluated.
#[inline(always)]
#[tactic(auto, using(continuations::proofs::Behind::behind_more, continuations::proofs::Behind::setting_more), unfolding(es_meaning::specs::Evaluation::instance_right))]
pub fn instance_right<'p, T: Copy>(
    stack: &mut Stack<'p, T>,
    right: &'p Expr,
) -> Result<Control<'p>, OutOfMemory>
    requires { length stack.old.loose ≡ 1 }
    ensures goes_on { IfOk result (Resumes (continuation.InstanceRight right.entry) stack.old stack.new) }
    ensures keeps { IfOk result (Keeps stack.old stack.new) }
    ensures adds { IfOk result (Adds 4 stack.old stack.new) }
{
    stack.push(Continuation::InstanceDone)?;
    Ok(Control::Expr(right))
}

/// Behind the left side of a comma the right one is evaluated.
#[inline(always)]
#[tactic(auto, unfolding(es_meaning::specs::Evaluation::comma_right))]
pub fn comma_right<'p, T: Copy>(stack: &mut Stack<'p, T>, right: &'p Expr) -> Control<'p>
    requires { length stack.old.loose ≡ 1 }
    ensures goes_on { Resumes (continuation.CommaRight right.entry) stack.old stack.new result }
    ensures keeps { Keeps (without_top stack.old) stack.new result }
    ensures adds { Adds 0 stack.old stack.new result }
{
    stack.forget();
    Control::Expr(right)
}

/// Behind the old value, which a getter gave, the operand of a compound assignment is evaluated.
#[inline(always)]
pub fn compound_right<'p, T: Copy>(
    stack: &mut Stack<'p, T>,
    operator: BinaryOperator,
    right: &'p Expr,
    target: Target<'p>,
) -> Result<Control<'p>, OutOfMemory>
    requires { length stack.old.loose ≡ owns_target target + 1 }
    ensures goes_on { IfOk result (ResumesBehind (continuation.CompoundRight operator right.entry target.entry) stack.old stack.new) }
    ensures keeps { IfOk result (Keeps stack.old stack.new) }
    ensures adds { IfOk result (Adds 11 stack.old stack.new) }
{
    stack.push(Continuation::CompoundDone(operator, target))?;
    Ok(Control::Expr(right))
}

/// Behind a setter the value that its assignment gives, which lies below the setter's.
#[inline(always)]
#[tactic(auto, unfolding(es_meaning::specs::Evaluation::give, flow_meaning::specs::Planned::end_putting))]
pub fn give_behind<'p, T: Copy>(stack: &mut Stack<'p, T>) -> Control<'p>
    requires { length stack.old.loose ≡ 2 }
    ensures goes_on { ResumesBeside continuation.GiveBehind stack.old stack.new result }
    ensures keeps { Keeps (without_top stack.old) stack.new result }
    ensures adds { Adds 6 stack.old stack.new result }
{
    stack.forget();
    Control::Value
}
