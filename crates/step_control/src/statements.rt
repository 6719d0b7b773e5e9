//! Statements and loops: what is evaluated next (ECMA-262 12).

ghost use Rattle.std.specs.Prelude.{◌≡◌, length, IfOk};
ghost use Rattle.es_meaning.specs.Evaluation.{tested};
ghost use Rattle.flow_meaning.specs.Planned.{planned, asking};
ghost use Rattle.continuations.specs.declared.continuation.Continuation.TheVariants as continuation;
ghost use Rattle.continuations.specs.Kept.{without_top};
ghost use Rattle.continuations.specs.Loads.{Adds};
ghost use Rattle.continuations.specs.Resuming.{Begins, Keeps, Resumes, ResumesDone};
ghost use Rattle.continuations.specs.Shapes.{round_of};
ghost use Rattle.continuations.specs.Settings.{entrance};

use continuations::{Continuation, Control, Round, Stack, begin_statements};
use flow_text::OutOfMemory;
use js_ast::Stmt;

/// Behind a statement those that stand behind it.
#[inline(always)]
#[tactic(auto, unfolding(es_meaning::specs::Evaluation::more_statements_behind))]
pub fn more_statements<'p, T: Copy>(
    stack: &mut Stack<'p, T>,
    rest: &'p [Stmt],
) -> Result<Control<'p>, OutOfMemory>
    requires { length stack.old.loose ≡ 0 }
    ensures goes_on { IfOk result (ResumesDone (continuation.Statements rest.entry) stack.old stack.new) }
    ensures keeps { IfOk result (Keeps stack.old stack.new) }
    ensures adds { IfOk result (Adds 6 stack.old stack.new) }
{
    begin_statements(stack, rest)
}

/// The value of an expression statement is of no use.
#[inline(always)]
#[tactic(auto, unfolding(es_meaning::specs::Evaluation::discard))]
pub fn discard<'p, T: Copy>(stack: &mut Stack<'p, T>) -> Control<'p>
    requires { length stack.old.loose ≡ 1 }
    ensures goes_on { Resumes continuation.Discard stack.old stack.new result }
    ensures keeps { Keeps (without_top stack.old) stack.new result }
    ensures adds { Adds 6 stack.old stack.new result }
{
    stack.forget();
    Control::Done
}

/// A loop's condition, and then a further turn or the end.
#[inline(always)]
#[tactic(auto, using(continuations::proofs::Behind::behind_more, continuations::proofs::Behind::setting_more), unfolding(es_meaning::specs::Evaluation::tested))]
pub(crate) fn begin_test<'p, T: Copy>(
    stack: &mut Stack<'p, T>,
    round: Round<'p>,
) -> Result<Control<'p>, OutOfMemory>
    requires { length stack.old.loose ≡ 0 }
    ensures goes_on { IfOk result (Begins (λ tables inputs set functions e. tested (planned tables inputs set functions) (entrance tables inputs set functions) (asking tables inputs set functions) (round_of round.entry) e.env) stack.old stack.new) }
    ensures keeps { IfOk result (Keeps stack.old stack.new) }
    ensures adds { IfOk result (Adds 1 stack.old stack.new) }
{
    match round.test() {
        None => Ok(Control::Turn(round)),
        Some(test) => {
            stack.push(Continuation::Tested(round))?;
            Ok(Control::Expr(test))
        }
    }
}

/// Behind what the loop's header changes its condition.
#[inline(always)]
#[tactic(auto, unfolding(es_meaning::specs::Evaluation::updated))]
pub fn updated<'p, T: Copy>(
    stack: &mut Stack<'p, T>,
    round: Round<'p>,
) -> Result<Control<'p>, OutOfMemory>
    requires { length stack.old.loose ≡ 1 }
    ensures goes_on { IfOk result (Resumes (continuation.Updated round.entry) stack.old stack.new) }
    ensures keeps { IfOk result (Keeps (without_top stack.old) stack.new) }
    ensures adds { IfOk result (Adds 1 stack.old stack.new) }
{
    stack.forget();
    begin_test(stack, round)
}

/// Behind the body of a turn what the loop's header changes, and its condition.
#[inline(always)]
#[tactic(auto, using(continuations::proofs::Behind::behind_more, continuations::proofs::Behind::setting_more), unfolding(es_meaning::specs::Evaluation::turned_round))]
pub fn turned<'p, T: Copy>(
    stack: &mut Stack<'p, T>,
    round: Round<'p>,
) -> Result<Control<'p>, OutOfMemory>
    requires { length stack.old.loose ≡ 0 }
    ensures goes_on { IfOk result (ResumesDone (continuation.Turned round.entry) stack.old stack.new) }
    ensures keeps { IfOk result (Keeps stack.old stack.new) }
    ensures adds { IfOk result (Adds 1 stack.old stack.new) }
{
    match round.update() {
        None => begin_test(stack, round),
        Some(update) => {
            stack.push(Continuation::Updated(round))?;
            Ok(Control::Expr(update))
        }
    }
}

/// Behind a loop's first part the loop.
#[inline(always)]
#[tactic(auto, unfolding(es_meaning::specs::Evaluation::looped_value))]
pub fn looped<'p, T: Copy>(stack: &mut Stack<'p, T>, round: Round<'p>) -> Control<'p>
    requires { length stack.old.loose ≡ 1 }
    ensures goes_on { Resumes (continuation.Looped round.entry) stack.old stack.new result }
    ensures keeps { Keeps (without_top stack.old) stack.new result }
    ensures adds { Adds 3 stack.old stack.new result }
{
    stack.forget();
    Control::Loop(round)
}

/// Behind a loop's variables the loop.
#[inline(always)]
#[tactic(auto, unfolding(es_meaning::specs::Evaluation::looped))]
pub fn declared<'p, T: Copy>(stack: &mut Stack<'p, T>, round: Round<'p>) -> Control<'p>
    requires { length stack.old.loose ≡ 0 }
    ensures goes_on { ResumesDone (continuation.Declared round.entry) stack.old stack.new result }
    ensures keeps { Keeps stack.old stack.new result }
    ensures adds { Adds 3 stack.old stack.new result }
{
    let _waiting = &*stack;
    Control::Loop(round)
}
