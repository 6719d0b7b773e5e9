//! The arguments of a call, from the left (ECMA-262 11.2.4).

ghost use Rattle.std.specs.Prelude.{◌≡◌, ◌≤◌, ◌+◌, ℕ, List, length, drop, IfOk, OnOk};
ghost use Rattle.flow_policy.specs.Inputs.{Given};
ghost use Rattle.flow_policy.specs.Policies.{Tables};
ghost use Rattle.js_ast.specs.Functions.{FunctionCode};
ghost use Rattle.es_meaning.specs.BuiltIns.{BuiltIns};
ghost use Rattle.continuations.specs.Settings.{Setting, entrance};
ghost use Rattle.flow_meaning.specs.Scopes.{State, Val};
ghost use Rattle.js_ast.specs.Views.{view_exprs};
ghost use Rattle.es_meaning.specs.Evaluation.{arguments, call_with};
ghost use Rattle.flow_meaning.specs.Planned.{planned, asking};
ghost use Rattle.continuations.specs.declared.continuation.Continuation.TheVariants as continuation;
ghost use Rattle.continuations.specs.Loads.{Adds, lift};
ghost use Rattle.continuations.specs.Resuming.{BeginsBehind, Keeps, ResumesBehind, ResumesBeside};
ghost use Rattle.continuations.specs.Pending.{next_plan, owns_calling, values_of};
ghost use Rattle.continuations.specs.Shapes.{calling_of};

use crate::continuation::{Calling, Continuation, Control};
use crate::stack::Stack;
use flow_text::OutOfMemory;
use js_ast::Expr;

/// What is done with all arguments.
#[tactic(auto, unfolding(es_meaning::specs::Evaluation::call_with))]
fn called<'p>(calling: Calling, count: u32) -> Control<'p>
    ensures plan { (tables : Tables) (inputs : Given) (set : BuiltIns) (functions : List FunctionCode) (vs : List Val) (e : Setting) (s : State) → next_plan tables inputs set functions result vs e s ≡ call_with (planned tables inputs set functions) (entrance tables inputs set functions) (asking tables inputs set functions) (calling_of calling vs) (drop (owns_calling calling) vs) s }
    ensures values { values_of result ≡ owns_calling calling + count }
    ensures lifts { lift result ≤ 8 }
{
    match calling {
        Calling::Calls => Control::Call(count),
        Calling::Constructs => Control::Construct(count),
    }
}

/// Further arguments, behind those that were evaluated.
#[inline(always)]
#[tactic(auto, using(crate::proofs::Behind::behind_more, crate::proofs::Behind::setting_more, crate::proofs::Steps::arguments_none, crate::proofs::Steps::arguments_more))]
pub fn begin_arguments<'p, T: Copy>(
    stack: &mut Stack<'p, T>,
    calling: Calling,
    count: u32,
    list: &'p [Expr],
) -> Result<Control<'p>, OutOfMemory>
    requires { length stack.old.loose ≡ owns_calling calling + count }
    ensures goes_on { IfOk result (BeginsBehind (λ tables inputs set functions vs e. arguments (planned tables inputs set functions) (entrance tables inputs set functions) (asking tables inputs set functions) (calling_of calling vs) (drop (owns_calling calling) vs) (view_exprs list.entry.now) e.env.place) stack.old stack.new) }
    ensures keeps { IfOk result (Keeps stack.old stack.new) }
    ensures adds { IfOk result (Adds 8 stack.old stack.new) }
{
    match list.split_first() {
        None => Ok(called(calling, count)),
        Some((first, rest)) => {
            stack.push(Continuation::Argument(calling, count, rest))?;
            Ok(Control::Expr(first))
        }
    }
}

/// Behind what is called, a getter's value, the arguments: it stands above what the call has as `this`.
#[inline(always)]
pub fn called_by<'p, T: Copy>(
    stack: &mut Stack<'p, T>,
    list: &'p [Expr],
) -> Result<Control<'p>, OutOfMemory>
    requires { length stack.old.loose ≡ 2 }
    ensures goes_on { IfOk result (ResumesBeside (continuation.CalledBy list.entry) stack.old stack.new) }
    ensures keeps { IfOk result (Keeps stack.old stack.new) }
    ensures adds { IfOk result (Adds 8 stack.old stack.new) }
{
    begin_arguments(stack, Calling::Calls, 0, list)
}

/// Behind an argument those that stand behind it.
#[inline(always)]
#[tactic(auto, using(crate::proofs::Steps::values_more), unfolding(es_meaning::specs::Evaluation::more_arguments))]
pub fn more_arguments<'p, T: Copy>(
    stack: &mut Stack<'p, T>,
    calling: Calling,
    count: u32,
    rest: &'p [Expr],
) -> Result<Control<'p>, OutOfMemory>
    requires { length stack.old.loose ≡ owns_calling calling + count + 1 }
    ensures goes_on { IfOk result (ResumesBehind (continuation.Argument calling count rest.entry) stack.old stack.new) }
    ensures keeps { IfOk result (Keeps stack.old stack.new) }
    ensures adds { IfOk result (Adds 8 stack.old stack.new) }
{
    match count.checked_add(1) {
        Some(count) => begin_arguments(stack, calling, count, rest),
        None => Err(OutOfMemory),
    }
}
