//! `for in` (ECMA-262 12.6.4): its frame, its turns, and what is evaluated in them.

ghost use Rattle.std.specs.Prelude.{◌≡◌, ◌≤◌, ◌+◌, ℕ, List, [], ◌∷◌, length, IfOk};
ghost use Rattle.origin_labels.specs.Stores.{IsKept};
ghost use Rattle.flow_frames.specs.Held.{Belong};
ghost use Rattle.flow_policy.specs.Inputs.{Given};
ghost use Rattle.js_ast.specs.Functions.{FunctionCode};
ghost use Rattle.es_meaning.specs.BuiltIns.{BuiltIns};
ghost use Rattle.flow_policy.specs.Policies.{Tables};
ghost use Rattle.js_ast.specs.Views.{view_target};
ghost use Rattle.continuations.specs.Settings.{Setting, entrance};
ghost use Rattle.es_meaning.specs.Evaluation.{target_step, visit_step};
ghost use Rattle.es_meaning.specs.Plain.{key_text};
ghost use Rattle.flow_meaning.specs.Planned.{planned, asking};
ghost use Rattle.flow_meaning.specs.Scopes.{State, Val};
ghost use Rattle.continuations.specs.declared.continuation.Continuation.TheVariants as continuation;
ghost use Rattle.continuations.specs.Kept.{without_top};
ghost use Rattle.continuations.specs.Loads.{Adds, lift};
ghost use Rattle.continuations.specs.Pending.{next_plan, values_of, visit_of};
ghost use Rattle.continuations.specs.Resuming.{BeginsBeside, Keeps, Opened, Resumes, ResumesDoneBehind, ResumesIn};

use crate::scopes::enter;
use continuations::{Continuation, Control, Enumeration, Stack, Use};
use flow_frames::{Frames, Kind};
use flow_text::OutOfMemory;
use js_ast::{ForTarget, Stmt};
use origin_labels::Labels;

/// The keys of a value are visited, in a frame of their own.
#[inline(never)]
pub fn begin_enumeration<'p, L: Labels>(
    labels: &mut L,
    frames: &mut Frames<L::Label>,
    stack: &mut Stack<'p, L::Label>,
    enumeration: Enumeration<'p>,
) -> Result<Control<'p>, OutOfMemory>
    requires loose { length stack.old.loose ≡ 1 }
    requires belongs { Belong L.made L.meaning labels.old frames.old.frames }
    ensures goes_on { IfOk result (ResumesIn L.made L.meaning labels.new (continuation.Enumerated enumeration.entry) stack.old stack.new frames.old.frames frames.new.frames) }
    ensures opened { IfOk result (Opened stack.old stack.new frames.old.frames frames.new.frames) }
    ensures adds { IfOk result (Adds 9 stack.old stack.new) }
    ensures belongs { Belong L.made L.meaning labels.new frames.new.frames }
    ensures kept { IsKept L.made L.meaning L.room L.firm labels.old labels.new }
{
    let depth = frames.len();
    let none = labels.bottom();
    enter(labels, frames, Kind::Loop, none)?;
    let object = stack.pop();
    stack.push(Continuation::EndRound(false, depth, enumeration.of))?;
    stack.lay(object)?;
    Ok(Control::Keys(enumeration))
}

/// A turn, in a frame of its own, with its key: the target is given the key, then the body is done, and then the other keys are visited.
#[inline(never)]
pub fn begin_visit<'p, L: Labels>(
    labels: &mut L,
    frames: &mut Frames<L::Label>,
    stack: &mut Stack<'p, L::Label>,
    enumeration: Enumeration<'p>,
    count: u32,
) -> Result<Control<'p>, OutOfMemory>
    requires loose { length stack.old.loose ≡ count + 2 }
    requires belongs { Belong L.made L.meaning labels.old frames.old.frames }
    ensures goes_on { IfOk result (BeginsBeside L.made L.meaning labels.new (λ tables inputs set functions vs e. visit_step (planned tables inputs set functions) (entrance tables inputs set functions) (asking tables inputs set functions) (visit_of enumeration.entry count vs) e.env) stack.old stack.new frames.old.frames frames.new.frames) }
    ensures opened { IfOk result (Opened stack.old stack.new frames.old.frames frames.new.frames) }
    ensures adds { IfOk result (Adds 16 stack.old stack.new) }
    ensures belongs { Belong L.made L.meaning labels.new frames.new.frames }
    ensures kept { IsKept L.made L.meaning L.room L.firm labels.old labels.new }
{
    let depth = frames.len();
    let none = labels.bottom();
    enter(labels, frames, Kind::Turn, none)?;
    let key = stack.pop();
    stack.push(Continuation::Visited(enumeration, count))?;
    stack.push(Continuation::EndRound(true, depth, enumeration.of))?;
    stack.push(Continuation::VisitBody(enumeration.body))?;
    stack.lay(key)?;
    Ok(given_key(enumeration.target))
}

// The target is given the text that no work keeps.
#[inline(always)]
fn given_key<'p>(target: &'p ForTarget) -> Control<'p>
    ensures plan { (tables : Tables) (inputs : Given) (set : BuiltIns) (functions : List FunctionCode) (v : Val) (e : Setting) (s : State) → next_plan tables inputs set functions result (v ∷ []) e s ≡ target_step (planned tables inputs set functions) (entrance tables inputs set functions) (asking tables inputs set functions) (view_target target.entry.now) (key_text v.value) e.env.place s }
    ensures value { values_of result ≡ 1 }
    ensures lifts { lift result ≤ 12 }
{
    match target {
        ForTarget::Expr(target) => Control::Use(Use::GivenText, target),
        ForTarget::Var(variable) => Control::GiveVariable(variable),
    }
}

/// Behind the target the body.
#[inline(always)]
#[tactic(auto, unfolding(es_meaning::specs::Evaluation::visit_body))]
pub fn visit_body<'p, T: Copy>(stack: &mut Stack<'p, T>, body: &'p Stmt) -> Control<'p>
    requires { length stack.old.loose ≡ 1 }
    ensures goes_on { Resumes (continuation.VisitBody body.entry) stack.old stack.new result }
    ensures keeps { Keeps (without_top stack.old) stack.new result }
    ensures adds { Adds 0 stack.old stack.new result }
{
    stack.forget();
    Control::Stmt(body)
}

/// Behind a turn the keys that are left.
#[inline(always)]
#[tactic(auto, unfolding(es_meaning::specs::Evaluation::visited))]
pub fn visited<'p, T: Copy>(
    _stack: &Stack<'p, T>,
    enumeration: Enumeration<'p>,
    count: u32,
) -> Control<'p>
    requires { length _stack.now.loose ≡ count + 1 }
    ensures goes_on { ResumesDoneBehind (continuation.Visited enumeration.entry count) _stack.now _stack.now result }
    ensures keeps { Keeps _stack.now _stack.now result }
    ensures adds { Adds 7 _stack.now _stack.now result }
{
    Control::Visits(enumeration, count)
}
