//! The first step of each part of a script.

ghost use Rattle.std.specs.Prelude.{◌≡◌, ◌≤◌, ℕ, [], List, false, None, length, IfOk, option_map};
ghost use Rattle.flow_policy.specs.Inputs.{Given};
ghost use Rattle.flow_policy.specs.Policies.{Tables};
ghost use Rattle.js_ast.specs.Functions.{FunctionCode};
ghost use Rattle.es_meaning.specs.BuiltIns.{BuiltIns};
ghost use Rattle.js_ast.specs.Nodes.{nodes_of};
ghost use Rattle.js_ast.specs.Trees.{block as block_statement, labelled};
ghost use Rattle.es_meaning.specs.Environments.{thrown};
ghost use Rattle.es_meaning.specs.Directives.{upgrade_of};
ghost use Rattle.js_ast.specs.Views.{view_block, view_clauses, view_expr, view_exprs, view_maybe_expr, view_stmt, view_first, view_target};
ghost use Rattle.es_meaning.specs.Operations.{One, Value, postfixed};
ghost use Rattle.es_meaning.specs.Evaluation.{expr_step, callee_step, construct_value, is_reference, choose_expr, comma_right, stmt_step, named_step, label_step, carries_labels, return_step, first_step, behind_expression, jump_with, choose_stmt, choose_stmts, enumerated, switched};
ghost use Rattle.flow_meaning.specs.Planned.{planned, asking};
ghost use Rattle.flow_meaning.specs.Scopes.{State, Val};
ghost use Rattle.continuations.specs.Loads.{Adds, lift};
ghost use Rattle.continuations.specs.Pending.{next_plan, owns_use, values_of};
ghost use Rattle.continuations.specs.Resuming.{Begins, Keeps};
ghost use Rattle.continuations.specs.Shapes.{all_labels, behind_labels, body_behind, labels_at, passed_labels, round_of, step_of, use_of};
ghost use Rattle.continuations.specs.Settings.{Setting, entrance};

use crate::operators::{assigned_by, begin_binary, begin_unary, is_reference};
use continuations::{
    Continuation, Control, Enumeration, Round, Stack, Use, begin_index, begin_items, begin_member,
    begin_properties, begin_statements,
};
use flow_text::{OutOfMemory, Text};
use js_ast::{
    BinaryOperator, Block, ClauseList, Expr, ExprKind, ForFirst, PostfixOperator, Stmt, StmtKind,
};

/// A call. Its callee is a reference, or else an expression.
#[inline(always)]
#[tactic(auto, using(continuations::proofs::Behind::behind_more, continuations::proofs::Behind::setting_more))]
fn begin_call<'p, T: Copy>(
    stack: &mut Stack<'p, T>,
    callee: &'p Expr,
    list: &'p [Expr],
) -> Result<Control<'p>, OutOfMemory>
    requires { length stack.old.loose ≡ 0 }
    ensures goes_on { IfOk result (Begins (λ tables inputs set functions e. callee_step (planned tables inputs set functions) (entrance tables inputs set functions) (asking tables inputs set functions) (is_reference (view_expr callee.entry.now)) (view_expr callee.entry.now) (view_exprs list.entry.now) e.env.place) stack.old stack.new) }
    ensures keeps { IfOk result (Keeps stack.old stack.new) }
    ensures adds { IfOk result (Adds 3 stack.old stack.new) }
{
    if is_reference(callee) {
        Ok(Control::Use(Use::Called(list), callee))
    } else {
        stack.push(Continuation::Callee(list))?;
        Ok(Control::Expr(callee))
    }
}

/// `new` with arguments.
#[tactic(auto, using(continuations::proofs::Behind::behind_more, continuations::proofs::Behind::setting_more))]
fn begin_new<'p, T: Copy>(
    stack: &mut Stack<'p, T>,
    callee: &'p Expr,
    list: &'p [Expr],
) -> Result<Control<'p>, OutOfMemory>
    requires { length stack.old.loose ≡ 0 }
    ensures goes_on { IfOk result (Begins (λ tables inputs set functions e. (planned tables inputs set functions).bind Value Value ((asking tables inputs set functions).expr (view_expr callee.entry.now) e.env.place) (construct_value (planned tables inputs set functions) (entrance tables inputs set functions) (asking tables inputs set functions) (view_exprs list.entry.now) e.env.place)) stack.old stack.new) }
    ensures keeps { IfOk result (Keeps stack.old stack.new) }
    ensures adds { IfOk result (Adds 3 stack.old stack.new) }
{
    stack.push(Continuation::Constructor(list))?;
    Ok(Control::Expr(callee))
}

/// What is done with the operand of `++` or `--` behind it.
#[inline(always)]
fn postfix_use<'p>(operator: PostfixOperator) -> Use<'p>
    ensures means { (vs : List Val) → use_of result vs ≡ postfixed (step_of operator) }
    ensures alone { owns_use result ≡ 0 }
{
    match operator {
        PostfixOperator::Increment => Use::Postfixed(BinaryOperator::Add),
        PostfixOperator::Decrement => Use::Postfixed(BinaryOperator::Subtract),
    }
}

/// A condition is evaluated, and then one of two expressions.
#[inline(always)]
#[tactic(auto, using(continuations::proofs::Behind::behind_more, continuations::proofs::Behind::setting_more))]
fn begin_choice<'p, T: Copy>(
    stack: &mut Stack<'p, T>,
    test: &'p Expr,
    then: &'p Expr,
    other: &'p Expr,
) -> Result<Control<'p>, OutOfMemory>
    requires { length stack.old.loose ≡ 0 }
    ensures goes_on { IfOk result (Begins (λ tables inputs set functions e. (planned tables inputs set functions).bind Value Value ((asking tables inputs set functions).expr (view_expr test.entry.now) e.env.place) (choose_expr (planned tables inputs set functions) (entrance tables inputs set functions) (asking tables inputs set functions) (view_expr then.entry.now) (view_expr other.entry.now) e.env.place)) stack.old stack.new) }
    ensures keeps { IfOk result (Keeps stack.old stack.new) }
    ensures adds { IfOk result (Adds 2 stack.old stack.new) }
{
    stack.push(Continuation::Choose(then, other))?;
    Ok(Control::Expr(test))
}

/// The left side of a comma is evaluated, and then the right one.
#[tactic(auto, using(continuations::proofs::Behind::behind_more, continuations::proofs::Behind::setting_more))]
fn begin_comma<'p, T: Copy>(
    stack: &mut Stack<'p, T>,
    left: &'p Expr,
    right: &'p Expr,
) -> Result<Control<'p>, OutOfMemory>
    requires { length stack.old.loose ≡ 0 }
    ensures goes_on { IfOk result (Begins (λ tables inputs set functions e. (planned tables inputs set functions).bind Value Value ((asking tables inputs set functions).expr (view_expr left.entry.now) e.env.place) (comma_right (planned tables inputs set functions) (entrance tables inputs set functions) (asking tables inputs set functions) (view_expr right.entry.now) e.env.place)) stack.old stack.new) }
    ensures keeps { IfOk result (Keeps stack.old stack.new) }
    ensures adds { IfOk result (Adds 1 stack.old stack.new) }
{
    stack.push(Continuation::CommaRight(right))?;
    Ok(Control::Expr(left))
}

/// An expression.
#[inline(always)]
#[tactic(auto, using(js_ast::proofs::ViewLaws::held_exprs, js_ast::specs::declared::trees::ExprKind::TheViews::the_lemmas), unfolding(es_meaning::specs::Evaluation::expr_step))]
pub fn begin_expression<'p, T: Copy>(
    stack: &mut Stack<'p, T>,
    e: &'p Expr,
) -> Result<Control<'p>, OutOfMemory>
    requires { length stack.old.loose ≡ 0 }
    ensures goes_on { IfOk result (Begins (λ tables inputs set functions f. expr_step (planned tables inputs set functions) (entrance tables inputs set functions) (asking tables inputs set functions) (view_expr e.entry.now) f.env.place) stack.old stack.new) }
    ensures keeps { IfOk result (Keeps stack.old stack.new) }
    ensures adds { IfOk result (Adds 11 stack.old stack.new) }
{
    match &*e.kind {
        ExprKind::Name(name) => Ok(Control::Name(name)),
        ExprKind::Number(n) => Ok(Control::Number(n)),
        ExprKind::String { value, .. } => Ok(Control::Text(value)),
        ExprKind::Null => Ok(Control::Null),
        ExprKind::Bool(b) => Ok(Control::Bool(*b)),
        ExprKind::Paren(inner) => Ok(Control::Expr(inner)),
        ExprKind::Call { callee, args } => begin_call(stack, callee, args.items()),
        ExprKind::New { callee, args } => match args {
            None => begin_new(stack, callee, &[]),
            Some(args) => begin_new(stack, callee, args.items()),
        },
        ExprKind::Function(f) => Ok(Control::Function(f)),
        ExprKind::Postfix { operand, operator } => Ok(Control::Use(
            postfix_use(*operator),
            operand,
        )),
        ExprKind::Unary { operator, operand } => begin_unary(stack, *operator, operand),
        ExprKind::Binary {
            left,
            operator,
            right,
        } => begin_binary(stack, left, *operator, right),
        ExprKind::Conditional { test, then, other } => begin_choice(stack, test, then, other),
        ExprKind::Assign {
            target,
            operator,
            value,
        } => Ok(Control::Use(assigned_by(*operator, value), target)),
        ExprKind::Comma { left, right } => begin_comma(stack, left, right),
        ExprKind::This => Ok(Control::This),
        ExprKind::Object { properties, .. } => begin_properties(stack, properties, 0),
        ExprKind::Member { base, name } => begin_member(stack, Use::Valued, base, name),
        ExprKind::Index { base, index } => begin_index(stack, Use::Valued, base, index),
        ExprKind::Array { items, .. } => begin_items(stack, items, 0, 0),
    }
}

/// A loop's first part, and then the loop.
#[inline(always)]
#[tactic(auto, using(continuations::proofs::Behind::behind_more, continuations::proofs::Behind::setting_more, js_ast::specs::declared::trees::ExprKind::TheViews::the_lemmas), unfolding(es_meaning::specs::Evaluation::first_step))]
fn begin_for<'p, T: Copy>(
    stack: &mut Stack<'p, T>,
    first: &'p ForFirst,
    round: Round<'p>,
) -> Result<Control<'p>, OutOfMemory>
    requires { length stack.old.loose ≡ 0 }
    ensures goes_on { IfOk result (Begins (λ tables inputs set functions e. first_step (planned tables inputs set functions) (entrance tables inputs set functions) (asking tables inputs set functions) (view_first first.entry.now) (round_of round.entry) e.env) stack.old stack.new) }
    ensures keeps { IfOk result (Keeps stack.old stack.new) }
    ensures adds { IfOk result (Adds 8 stack.old stack.new) }
{
    match first {
        ForFirst::Expr(None) => Ok(Control::Loop(round)),
        ForFirst::Expr(Some(e)) => {
            stack.push(Continuation::Looped(round))?;
            Ok(Control::Expr(e))
        }
        ForFirst::Var(declarations) => {
            stack.push(Continuation::Declared(round))?;
            Ok(Control::Variables(declarations))
        }
    }
}

/// It can be an upgrade directive: it is a string literal.
#[inline(always)]
#[tactic(auto, using(js_ast::specs::declared::trees::ExprKind::TheViews::the_lemmas), unfolding(es_meaning::specs::Directives::upgrade_of))]
fn is_literal(e: &Expr) -> bool
    ensures { result ≡ false → upgrade_of (view_expr e.now) ≡ None }
{
    matches!(&*e.kind, ExprKind::String { .. })
}

/// An expression is evaluated, and its value is of no use, or it is a directive.
#[inline(always)]
#[tactic(auto, using(continuations::proofs::Behind::behind_more, continuations::proofs::Behind::setting_more), unfolding(es_meaning::specs::Evaluation::behind_expression, es_meaning::specs::Evaluation::discard))]
fn begin_discard<'p, T: Copy>(
    stack: &mut Stack<'p, T>,
    e: &'p Expr,
) -> Result<Control<'p>, OutOfMemory>
    requires { length stack.old.loose ≡ 0 }
    ensures goes_on { IfOk result (Begins (λ tables inputs set functions f. (planned tables inputs set functions).bind Value One ((asking tables inputs set functions).expr (view_expr e.entry.now) f.env.place) (behind_expression (planned tables inputs set functions) (entrance tables inputs set functions) (asking tables inputs set functions) (upgrade_of (view_expr e.entry.now)) f.env)) stack.old stack.new) }
    ensures keeps { IfOk result (Keeps stack.old stack.new) }
    ensures adds { IfOk result (Adds 1 stack.old stack.new) }
{
    if is_literal(e) {
        stack.push(Continuation::Raise(e))?;
    } else {
        stack.push(Continuation::Discard)?;
    }
    Ok(Control::Expr(e))
}

/// What is thrown is evaluated first.
#[inline(always)]
#[tactic(auto, using(continuations::proofs::Behind::behind_more, continuations::proofs::Behind::setting_more))]
fn begin_throw<'p, T: Copy>(
    stack: &mut Stack<'p, T>,
    value: &'p Expr,
) -> Result<Control<'p>, OutOfMemory>
    requires { length stack.old.loose ≡ 0 }
    ensures goes_on { IfOk result (Begins (λ tables inputs set functions f. (planned tables inputs set functions).bind Value One ((asking tables inputs set functions).expr (view_expr value.entry.now) f.env.place) (jump_with (planned tables inputs set functions) (entrance tables inputs set functions) (asking tables inputs set functions) thrown f.env)) stack.old stack.new) }
    ensures keeps { IfOk result (Keeps stack.old stack.new) }
    ensures adds { IfOk result (Adds 1 stack.old stack.new) }
{
    stack.push(Continuation::Throw)?;
    Ok(Control::Expr(value))
}

/// What is returned is evaluated first, if anything.
#[inline(always)]
#[tactic(auto, using(continuations::proofs::Behind::behind_more, continuations::proofs::Behind::setting_more))]
fn begin_return<'p, T: Copy>(
    stack: &mut Stack<'p, T>,
    value: &'p Option<Expr>,
) -> Result<Control<'p>, OutOfMemory>
    requires { length stack.old.loose ≡ 0 }
    ensures goes_on { IfOk result (Begins (λ tables inputs set functions f. return_step (planned tables inputs set functions) (entrance tables inputs set functions) (asking tables inputs set functions) (view_maybe_expr value.entry.now) f.env) stack.old stack.new) }
    ensures keeps { IfOk result (Keeps stack.old stack.new) }
    ensures adds { IfOk result (Adds 7 stack.old stack.new) }
{
    match value {
        None => Ok(Control::Return),
        Some(value) => {
            stack.push(Continuation::Return)?;
            Ok(Control::Expr(value))
        }
    }
}

/// A condition is evaluated, and then a statement or nothing.
#[inline(always)]
#[tactic(auto, using(continuations::proofs::Behind::behind_more, continuations::proofs::Behind::setting_more))]
fn begin_if<'p, T: Copy>(
    stack: &mut Stack<'p, T>,
    test: &'p Expr,
    then: &'p Stmt,
) -> Result<Control<'p>, OutOfMemory>
    requires { length stack.old.loose ≡ 0 }
    ensures goes_on { IfOk result (Begins (λ tables inputs set functions f. (planned tables inputs set functions).bind Value One ((asking tables inputs set functions).expr (view_expr test.entry.now) f.env.place) (choose_stmt (planned tables inputs set functions) (entrance tables inputs set functions) (asking tables inputs set functions) (view_stmt then.entry.now) f.env)) stack.old stack.new) }
    ensures keeps { IfOk result (Keeps stack.old stack.new) }
    ensures adds { IfOk result (Adds 2 stack.old stack.new) }
{
    stack.push(Continuation::ChooseStmt(then))?;
    Ok(Control::Expr(test))
}

/// A condition is evaluated, and then one of two statements.
#[inline(always)]
#[tactic(auto, using(continuations::proofs::Behind::behind_more, continuations::proofs::Behind::setting_more))]
fn begin_if_else<'p, T: Copy>(
    stack: &mut Stack<'p, T>,
    test: &'p Expr,
    then: &'p Stmt,
    other: &'p Stmt,
) -> Result<Control<'p>, OutOfMemory>
    requires { length stack.old.loose ≡ 0 }
    ensures goes_on { IfOk result (Begins (λ tables inputs set functions f. (planned tables inputs set functions).bind Value One ((asking tables inputs set functions).expr (view_expr test.entry.now) f.env.place) (choose_stmts (planned tables inputs set functions) (entrance tables inputs set functions) (asking tables inputs set functions) (view_stmt then.entry.now) (view_stmt other.entry.now) f.env)) stack.old stack.new) }
    ensures keeps { IfOk result (Keeps stack.old stack.new) }
    ensures adds { IfOk result (Adds 2 stack.old stack.new) }
{
    stack.push(Continuation::ChooseStmts(then, other))?;
    Ok(Control::Expr(test))
}

/// What `for in` takes the keys of is evaluated first.
#[inline(always)]
#[tactic(auto, using(continuations::proofs::Behind::behind_more, continuations::proofs::Behind::setting_more))]
fn begin_for_in<'p, T: Copy>(
    stack: &mut Stack<'p, T>,
    enumeration: Enumeration<'p>,
    object: &'p Expr,
) -> Result<Control<'p>, OutOfMemory>
    requires { length stack.old.loose ≡ 0 }
    ensures goes_on { IfOk result (Begins (λ tables inputs set functions f. (planned tables inputs set functions).bind Value One ((asking tables inputs set functions).expr (view_expr object.entry.now) f.env.place) (enumerated (planned tables inputs set functions) (entrance tables inputs set functions) (asking tables inputs set functions) (labels_at (view_stmt enumeration.entry.of.now)) (view_target enumeration.entry.target.now) (view_stmt enumeration.entry.body.now) f.env)) stack.old stack.new) }
    ensures keeps { IfOk result (Keeps stack.old stack.new) }
    ensures adds { IfOk result (Adds 4 stack.old stack.new) }
{
    stack.push(Continuation::Enumerated(enumeration))?;
    Ok(Control::Expr(object))
}

/// What a `switch` compares is evaluated first.
#[inline(always)]
#[tactic(auto, using(continuations::proofs::Behind::behind_more, continuations::proofs::Behind::setting_more))]
fn begin_switch<'p, T: Copy>(
    stack: &mut Stack<'p, T>,
    of: &'p Stmt,
    value: &'p Expr,
    clauses: &'p ClauseList,
) -> Result<Control<'p>, OutOfMemory>
    requires { length stack.old.loose ≡ 0 }
    ensures goes_on { IfOk result (Begins (λ tables inputs set functions f. (planned tables inputs set functions).bind Value One ((asking tables inputs set functions).expr (view_expr value.entry.now) f.env.place) (switched (planned tables inputs set functions) (entrance tables inputs set functions) (asking tables inputs set functions) (all_labels [] (view_stmt of.entry.now)) (view_clauses (nodes_of clauses.entry.now)) f.env)) stack.old stack.new) }
    ensures keeps { IfOk result (Keeps stack.old stack.new) }
    ensures adds { IfOk result (Adds 2 stack.old stack.new) }
{
    stack.push(Continuation::Switched(of, clauses))?;
    Ok(Control::Expr(value))
}

/// The statement behind a label, if one stands in front.
#[inline(always)]
#[tactic(auto, using(js_ast::specs::declared::trees::ExprKind::TheViews::the_lemmas))]
fn behind_label(s: &Stmt) -> Option<&Stmt>
    ensures { option_map (λ t. view_stmt t.now) result ≡ body_behind (view_stmt s.entry.now) }
{
    match &*s.kind {
        StmtKind::Labelled { body, .. } => Some(body),
        _ => None,
    }
}

/// The statement behind so many labels.
#[inline(always)]
fn behind_labels(s: &Stmt, passed: u32) -> &Stmt
    ensures { view_stmt result.now ≡ behind_labels passed (view_stmt s.entry.now) }
{
    if passed == 0 {
        return s;
    }
    match behind_label(s) {
        Some(body) => behind_labels(body, passed - 1),
        None => s,
    }
}

/// It is a loop or a `switch`, also behind labels.
#[inline(always)]
fn carries_labels(s: &Stmt) -> bool
    ensures { result ≡ carries_labels (view_stmt s.now) }
{
    match &*s.kind {
        StmtKind::DoWhile { .. }
        | StmtKind::While { .. }
        | StmtKind::For { .. }
        | StmtKind::ForIn { .. }
        | StmtKind::Switch { .. } => true,
        StmtKind::Labelled { body, .. } => carries_labels(body),
        _ => false,
    }
}

/// A labelled statement behind so many labels: a loop and a `switch` carry the label, and what is neither has a frame of its own.
#[inline(always)]
fn begin_labelled<'p>(
    of: &'p Stmt,
    passed: u32,
    label: &'p Text,
    body: &'p Stmt,
) -> Result<Control<'p>, OutOfMemory>
    ensures plan { IfOk result (λ next. (tables : Tables) (inputs : Given) (set : BuiltIns) (functions : List FunctionCode) (vs : List Val) (e : Setting) (s : State) (at : ℕ) → behind_labels passed (view_stmt of.entry.now) ≡ labelled at label.entry.now (view_stmt body.entry.now)
        → next_plan tables inputs set functions next vs e s ≡ label_step (planned tables inputs set functions) (entrance tables inputs set functions) (asking tables inputs set functions) (carries_labels (view_stmt body.entry.now)) (passed_labels passed [] (view_stmt of.entry.now)) label.entry.now (view_stmt body.entry.now) e.env s) }
    ensures values { IfOk result (λ next. values_of next ≡ 0) }
    ensures lifts { IfOk result (λ next. lift next ≤ 7) }
{
    if carries_labels(body) {
        match passed.checked_add(1) {
            Some(passed) => Ok(Control::Named(of, passed)),
            None => Err(OutOfMemory),
        }
    } else {
        Ok(Control::Labelled(label, body))
    }
}

/// A loop, a `switch` or a labelled statement behind so many labels.
#[inline(never)]
#[tactic(auto, using(js_ast::specs::declared::trees::ExprKind::TheViews::the_lemmas), unfolding(es_meaning::specs::Evaluation::named_step))]
pub fn begin_named<'p, T: Copy>(
    stack: &mut Stack<'p, T>,
    of: &'p Stmt,
    passed: u32,
) -> Result<Control<'p>, OutOfMemory>
    requires { length stack.old.loose ≡ 0 }
    ensures goes_on { IfOk result (Begins (λ tables inputs set functions f. named_step (planned tables inputs set functions) (entrance tables inputs set functions) (asking tables inputs set functions) (passed_labels passed [] (view_stmt of.entry.now)) (behind_labels passed (view_stmt of.entry.now)) f.env) stack.old stack.new) }
    ensures keeps { IfOk result (Keeps stack.old stack.new) }
    ensures adds { IfOk result (Adds 8 stack.old stack.new) }
{
    let s = behind_labels(of, passed);
    match &*s.kind {
        StmtKind::DoWhile { .. } => Ok(Control::DoLoop(Round { of })),
        StmtKind::While { .. } => Ok(Control::Loop(Round { of })),
        StmtKind::For { first, .. } => begin_for(stack, first, Round { of }),
        StmtKind::ForIn {
            target,
            object,
            body,
        } => begin_for_in(stack, Enumeration { of, target, body }, object),
        StmtKind::Switch { value, clauses } => begin_switch(stack, of, value, clauses),
        StmtKind::Labelled { label, body } => begin_labelled(of, passed, label, body),
        _ => Ok(Control::Done),
    }
}

/// A statement.
#[inline(always)]
#[tactic(auto, using(js_ast::proofs::ViewLaws::held_stmts, js_ast::specs::declared::trees::ExprKind::TheViews::the_lemmas), unfolding(es_meaning::specs::Evaluation::stmt_step))]
pub fn begin_statement<'p, T: Copy>(
    stack: &mut Stack<'p, T>,
    s: &'p Stmt,
) -> Result<Control<'p>, OutOfMemory>
    requires { length stack.old.loose ≡ 0 }
    ensures goes_on { IfOk result (Begins (λ tables inputs set functions f. stmt_step (planned tables inputs set functions) (entrance tables inputs set functions) (asking tables inputs set functions) (view_stmt s.entry.now) f.env) stack.old stack.new) }
    ensures keeps { IfOk result (Keeps stack.old stack.new) }
    ensures adds { IfOk result (Adds 11 stack.old stack.new) }
{
    match &*s.kind {
        StmtKind::Block(list) => begin_statements(stack, list.items()),
        StmtKind::Var { declarations, .. } => Ok(Control::Variables(declarations)),
        StmtKind::Empty | StmtKind::Debugger(_) => Ok(Control::Done),
        StmtKind::Expr { expr, .. } => begin_discard(stack, expr),
        StmtKind::If { test, then, other } => match other {
            None => begin_if(stack, test, then),
            Some(other) => begin_if_else(stack, test, then, other),
        },
        StmtKind::Throw { value, .. } => begin_throw(stack, value),
        StmtKind::Return { value, .. } => begin_return(stack, value),
        StmtKind::Continue { label, .. } => Ok(Control::Break(true, label)),
        StmtKind::Break { label, .. } => Ok(Control::Break(false, label)),
        StmtKind::TryCatch { .. } | StmtKind::TryFinally { .. } | StmtKind::TryBoth { .. } => {
            Ok(Control::Try(s))
        }
        StmtKind::Function(_) => Ok(Control::Done),
        StmtKind::DoWhile { .. }
        | StmtKind::While { .. }
        | StmtKind::For { .. }
        | StmtKind::ForIn { .. }
        | StmtKind::Switch { .. }
        | StmtKind::Labelled { .. } => begin_named(stack, s, 0),
    }
}

/// A block of a `try` statement, as a block statement.
pub fn begin_block<'p, T: Copy>(
    stack: &mut Stack<'p, T>,
    block: &'p Block,
) -> Result<Control<'p>, OutOfMemory>
    requires { length stack.old.loose ≡ 0 }
    ensures goes_on { IfOk result (Begins (λ tables inputs set functions f. stmt_step (planned tables inputs set functions) (entrance tables inputs set functions) (asking tables inputs set functions) (block_statement (view_block block.entry.now)) f.env) stack.old stack.new) }
    ensures keeps { IfOk result (Keeps stack.old stack.new) }
    ensures adds { IfOk result (Adds 6 stack.old stack.new) }
{
    begin_statements(stack, block.body.items())
}
