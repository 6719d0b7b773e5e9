ghost use Rattle.std.specs.Prelude.{◌≡◌, length, IfOk};
ghost use Rattle.std.specs.List.{All};
ghost use Rattle.flow_frames.specs.Held.{Belong};
ghost use Rattle.js_values.specs.Readings.{HasValue};

use crate::told::holds;
use continuations::{Control, Round, Stack};
use flow_frames::{Frames, Kind};
use flow_text::{OutOfMemory, Text};
use js_ast::{Expr, ExprKind, Stmt, StmtKind};
use js_number::Primitive;
use js_values::{Labelled, Value};
use origin_labels::{Labels, Masks};
use std::alloc::Global;
use std::test::*;
use step_control::{and_right, choose_stmt, choose_stmts, end_branch_value, or_right, tested};

fn name(alloc: Global, spelling: &str) -> Result<Expr, OutOfMemory> {
    let text = Text::spelled(alloc, spelling)?;
    let kind = Box::new(alloc, ExprKind::Name(text))?;
    Ok(Expr { at: 0, kind })
}

fn empty(alloc: Global) -> Result<Stmt, OutOfMemory> {
    let kind = Box::new(alloc, StmtKind::Empty)?;
    Ok(Stmt { at: 0, kind })
}

// A stack with this value alone.
fn one_value<'p, L: Labels>(
    alloc: Global,
    _labels: &L,
    value: bool,
    label: L::Label,
) -> Result<Stack<'p, L::Label>, OutOfMemory>
    requires { L.made _labels.now label }
    ensures one { IfOk result (λ stack. length stack.loose ≡ 1) }
    ensures made { IfOk result (λ stack. All (HasValue (L.made _labels.now)) stack.loose) }
{
    let mut stack = Stack::new(alloc);
    stack.lay(Labelled {
        value: Value::Primitive(Primitive::Bool(value)),
        label,
    })?;
    Ok(stack)
}

// What `&&` and `||` do behind a left operand: whether the right one is evaluated, and how many frames there are then.
fn logical<L: Labels>(
    alloc: Global,
    labels: &mut L,
    right: &Expr,
    left: bool,
    and: bool,
) -> Result<(bool, usize), OutOfMemory> {
    let mut frames = Frames::new(alloc, &*labels)?;
    let none = labels.bottom();
    let mut stack = one_value(alloc, &*labels, left, none)?;
    let next = if and {
        and_right(labels, &mut frames, &mut stack, right)?
    } else {
        or_right(labels, &mut frames, &mut stack, right)?
    };
    Ok((matches!(next, Control::Expr(_)), frames.len()))
}

// The left operand, whether the operator is `&&`, and whether the right operand is evaluated.
const LOGICAL: &[(bool, bool, bool)] = &[
    (true, true, true),
    (false, true, false),
    (true, false, false),
    (false, false, true),
];

fn is_logical(alloc: Global, left: bool, and: bool, right: bool) -> Result<bool, OutOfMemory> {
    let operand = name(alloc, "a")?;
    Ok(logical(alloc, &mut Masks, &operand, left, and)? == (right, 2))
}

#[test]
fn logical_operators(rt: HostRuntime) {
    for (left, and, right) in LOGICAL {
        assert!(rt; holds(is_logical(rt.alloc(), *left, *and, *right)));
    }
}

// Whether origin 0 decides that a run is in the frames.
fn is_secret<L: Labels>(labels: &L, frames: &Frames<L::Label>) -> bool
    requires { Belong L.made L.meaning labels.now frames.now.frames }
{
    let context = frames.context(labels);
    labels.has(context, 0)
}

// Whether a statement is evaluated next, how many frames there are, and whether origin 0 decides it.
fn inside<L: Labels>(
    labels: &L,
    frames: &Frames<L::Label>,
    next: Control<'_>,
) -> (bool, usize, bool)
    requires { Belong L.made L.meaning labels.now frames.now.frames }
{
    let is_secret = is_secret(labels, frames);
    (matches!(next, Control::Stmt(_)), frames.len(), is_secret)
}

// What comes of a part that a value with this label chose.
fn chosen<L: Labels>(
    alloc: Global,
    labels: &mut L,
    secret: L::Label,
    body: &Stmt,
    other: Option<&Stmt>,
) -> Result<(bool, usize, bool), OutOfMemory>
    requires { L.made labels.old secret }
{
    let mut frames = Frames::new(alloc, &*labels)?;
    let mut stack = one_value(alloc, &*labels, false, secret)?;
    match other {
        Some(other) => {
            let next = choose_stmts(labels, &mut frames, &mut stack, body, other)?;
            Ok(inside(&*labels, &frames, next))
        }
        None => {
            let next = choose_stmt(labels, &mut frames, &mut stack, body)?;
            Ok(inside(&*labels, &frames, next))
        }
    }
}

// The value of a stack that has one alone.
fn only_value<'p, L: Labels>(_labels: &L, stack: &mut Stack<'p, L::Label>) -> Labelled<L::Label>
    requires one { length stack.old.loose ≡ 1 }
    requires made { All (HasValue (L.made _labels.now)) stack.old.loose }
    ensures { L.made _labels.now result.label }
{
    stack.pop()
}

// What a value without origins has behind a branch that this label chose: whether it has origin 0, and how many frames there are.
fn ended<L: Labels>(
    alloc: Global,
    labels: &mut L,
    secret: L::Label,
) -> Result<(bool, usize), OutOfMemory>
    requires { L.made labels.old secret }
{
    let mut frames = Frames::new(alloc, &*labels)?;
    frames.push(labels, Kind::Branch, secret)?;
    let none = labels.bottom();
    let mut stack = one_value(alloc, &*labels, true, none)?;
    if frames.len() != 2 {
        return Err(OutOfMemory);
    }
    let Control::Value = end_branch_value(labels, &mut frames, &mut stack, 1)? else {
        return Err(OutOfMemory);
    };
    let value = only_value(&*labels, &mut stack);
    Ok((labels.has(value.label, 0), frames.len()))
}

// What a loop's condition with this label does: whether a turn comes, and whether origin 0 decides that the run is in the loop.
fn asked<L: Labels>(
    alloc: Global,
    labels: &mut L,
    secret: L::Label,
    body: &Stmt,
    holds: bool,
) -> Result<(bool, bool), OutOfMemory>
    requires { L.made labels.old secret }
{
    let round = Round { of: body };
    let mut frames = Frames::new(alloc, &*labels)?;
    let mut stack = one_value(alloc, &*labels, holds, secret)?;
    let next = tested(labels, &mut frames, &mut stack, round)?;
    let is_secret = is_secret(labels, &frames);
    Ok((matches!(next, Control::Turn(_)), is_secret))
}

fn chooses(alloc: Global) -> Result<bool, OutOfMemory> {
    let body = empty(alloc)?;
    let secret = Masks.single(0)?;
    Ok(chosen(alloc, &mut Masks, secret, &body, None)? == (false, 2, true))
}

fn chooses_the_other(alloc: Global) -> Result<bool, OutOfMemory> {
    let body = empty(alloc)?;
    let other = empty(alloc)?;
    let secret = Masks.single(0)?;
    Ok(chosen(alloc, &mut Masks, secret, &body, Some(&other))? == (true, 2, true))
}

fn ends(alloc: Global) -> Result<bool, OutOfMemory> {
    let secret = Masks.single(0)?;
    Ok(ended(alloc, &mut Masks, secret)? == (true, 1))
}

fn asks(alloc: Global, holds: bool) -> Result<bool, OutOfMemory> {
    let body = empty(alloc)?;
    let secret = Masks.single(0)?;
    Ok(asked(alloc, &mut Masks, secret, &body, holds)? == (holds, true))
}

#[test]
fn branches_and_conditions(rt: HostRuntime) {
    let alloc = rt.alloc();
    assert!(rt; holds(chooses(alloc)));
    assert!(rt; holds(chooses_the_other(alloc)));
    assert!(rt; holds(ends(alloc)));
    assert!(rt; holds(asks(alloc, true)));
    assert!(rt; holds(asks(alloc, false)));
}
