//! Objects and their properties: what is evaluated of them, in which order (ECMA-262 11.1.5, 11.2.1).

ghost use Rattle.std.specs.Prelude.{◌≡◌, ◌+◌, length, IfOk};
ghost use Rattle.js_ast.specs.Views.{view_expr};
ghost use Rattle.es_meaning.specs.Operations.{Value};
ghost use Rattle.es_meaning.specs.Evaluation.{index_base, member_base};
ghost use Rattle.flow_meaning.specs.Planned.{planned, asking};
ghost use Rattle.continuations.specs.declared.continuation.Continuation.TheVariants as continuation;
ghost use Rattle.continuations.specs.Literals.{IsPart, literal_from};
ghost use Rattle.continuations.specs.Loads.{Adds};
ghost use Rattle.continuations.specs.Pending.{owns_use};
ghost use Rattle.continuations.specs.Resuming.{BeginsBehind, Keeps, ResumesBehind};
ghost use Rattle.continuations.specs.Shapes.{use_of};
ghost use Rattle.continuations.specs.Settings.{entrance};

use crate::continuation::{Continuation, Control, Use};
use crate::stack::Stack;
use flow_text::{OutOfMemory, Text};
use js_ast::{Expr, Function, PropertyKind, PropertyList};

/// A part of an object literal (ECMA-262 11.1.5): none is left, it has a value that is evaluated, or it is a getter or a setter, whose function is made.
#[derive(Clone, Copy)]
pub enum Part<'p> {
    None,
    Value(&'p Expr),
    Function(&'p Function),
}

/// The part of a literal that stands behind so many others.
pub fn part_at<'p>(list: &'p PropertyList, count: u32) -> Part<'p>
    ensures { IsPart result list.entry.now count }
{
    let Some(property) = list.items().get(count as usize) else {
        return Part::None;
    };
    match &property.kind {
        PropertyKind::Value(value) => Part::Value(value),
        PropertyKind::Getter(function) => Part::Function(function),
        PropertyKind::Setter(function) => Part::Function(function),
    }
}

/// The parts of a literal from one on, behind the values of those before it. What isn't evaluated next is left to be done with the run's state.
pub fn begin_properties<'p, T: Copy>(
    stack: &mut Stack<'p, T>,
    list: &'p PropertyList,
    count: u32,
) -> Result<Control<'p>, OutOfMemory>
    requires { length stack.old.loose ≡ count }
    ensures goes_on { IfOk result (BeginsBehind (literal_from list.entry.now count) stack.old stack.new) }
    ensures keeps { IfOk result (Keeps stack.old stack.new) }
    ensures adds { IfOk result (Adds 7 stack.old stack.new) }
{
    match part_at(list, count) {
        Part::Value(value) => {
            stack.push(Continuation::Property(list, count))?;
            Ok(Control::Expr(value))
        }
        _ => Ok(Control::Object(list, count)),
    }
}

/// Behind the value of a property those that stand behind it.
#[tactic(auto, using(crate::proofs::Steps::values_more), unfolding(es_meaning::specs::Evaluation::more_values))]
pub fn more_properties<'p, T: Copy>(
    stack: &mut Stack<'p, T>,
    list: &'p PropertyList,
    count: u32,
) -> Result<Control<'p>, OutOfMemory>
    requires { length stack.old.loose ≡ count + 1 }
    ensures goes_on { IfOk result (ResumesBehind (continuation.Property list.entry count) stack.old stack.new) }
    ensures keeps { IfOk result (Keeps stack.old stack.new) }
    ensures adds { IfOk result (Adds 7 stack.old stack.new) }
{
    match count.checked_add(1) {
        Some(count) => begin_properties(stack, list, count),
        None => Err(OutOfMemory),
    }
}

/// A property with a name: its base is evaluated first.
#[inline(always)]
#[tactic(auto, using(crate::proofs::Behind::behind_more, crate::proofs::Behind::setting_more))]
pub fn begin_member<'p, T: Copy>(
    stack: &mut Stack<'p, T>,
    how: Use<'p>,
    base: &'p Expr,
    name: &'p Text,
) -> Result<Control<'p>, OutOfMemory>
    requires { length stack.old.loose ≡ owns_use how }
    ensures goes_on { IfOk result (BeginsBehind (λ tables inputs set functions vs e. (planned tables inputs set functions).bind Value Value ((asking tables inputs set functions).expr (view_expr base.entry.now) e.env.place) (member_base (planned tables inputs set functions) (entrance tables inputs set functions) (asking tables inputs set functions) (use_of how.entry vs) name.entry.now e.env.place)) stack.old stack.new) }
    ensures keeps { IfOk result (Keeps stack.old stack.new) }
    ensures adds { IfOk result (Adds 11 stack.old stack.new) }
{
    stack.push(Continuation::MemberBase(how, name))?;
    Ok(Control::Expr(base))
}

/// A property with a key that is evaluated: its base is evaluated first.
#[inline(always)]
#[tactic(auto, using(crate::proofs::Behind::behind_more, crate::proofs::Behind::setting_more))]
pub fn begin_index<'p, T: Copy>(
    stack: &mut Stack<'p, T>,
    how: Use<'p>,
    base: &'p Expr,
    index: &'p Expr,
) -> Result<Control<'p>, OutOfMemory>
    requires { length stack.old.loose ≡ owns_use how }
    ensures goes_on { IfOk result (BeginsBehind (λ tables inputs set functions vs e. (planned tables inputs set functions).bind Value Value ((asking tables inputs set functions).expr (view_expr base.entry.now) e.env.place) (index_base (planned tables inputs set functions) (entrance tables inputs set functions) (asking tables inputs set functions) (use_of how.entry vs) (view_expr index.entry.now) e.env.place)) stack.old stack.new) }
    ensures keeps { IfOk result (Keeps stack.old stack.new) }
    ensures adds { IfOk result (Adds 10 stack.old stack.new) }
{
    stack.push(Continuation::IndexBase(how, index))?;
    Ok(Control::Expr(base))
}

/// Behind its base the key.
pub fn index_base<'p, T: Copy>(
    stack: &mut Stack<'p, T>,
    how: Use<'p>,
    index: &'p Expr,
) -> Result<Control<'p>, OutOfMemory>
    requires { length stack.old.loose ≡ owns_use how + 1 }
    ensures goes_on { IfOk result (ResumesBehind (continuation.IndexBase how.entry index.entry) stack.old stack.new) }
    ensures keeps { IfOk result (Keeps stack.old stack.new) }
    ensures adds { IfOk result (Adds 13 stack.old stack.new) }
{
    stack.push(Continuation::IndexKey(how))?;
    Ok(Control::Expr(index))
}
