//! The functions of a program.

ghost use Rattle.std.specs.Prelude.{◌≡◌, ◌≤◌, ◌<◌, true, map, option_map, length, slice_get, IfOk};
ghost use Rattle.std.specs.List.{position_or_len};
ghost use Rattle.js_ast.specs.Functions.{functions_of};
ghost use Rattle.js_ast.specs.Held.{code_of};
ghost use Rattle.js_ast.specs.IsMarked.{IsMarked};
ghost use Rattle.js_ast.specs.Views.{view_function, view_program};
ghost use Rattle.es_meaning.specs.Functions.{begins_at, number_in};
ghost use Rattle.function_table.specs.Tables.{table, rises, rises_after, begins_there};

use crate::known_keys::KnownKeys;
use call_records::CallLayout;
use flow_text::OutOfMemory;
use js_ast::{Function, Program};
use std::alloc::Global;
use std::marker::Model;

/// The functions of a program, in the order of their first tokens: a function's number is its index.
#[derive(Drop)]
pub struct Functions<'p> {
    list: Vec<&'p Function>,
    /// What a call of each begins with.
    layouts: Vec<CallLayout<'p>>,
    keys: KnownKeys,
    /// Each begins at a higher place than the one before. So it is in a program that tokens spell.
    in_order: bool,
}

impl<'p> Model for Functions<'p> {
    ghost use Rattle.std.specs.Prelude.{◌≡◌, List, map};
    ghost use Rattle.std.specs.Coded.{codes};
    ghost use Rattle.js_ast.specs.declared.trees.Function.{Function as Node};
    ghost use Rattle.js_ast.specs.contracts.trees.Function as node;
    ghost use Rattle.function_table.specs.Tables.{table, AreTabled};

    ghost Value = { List Node };

    ghost coded = { Prim.hlevel (codes, node.the_row.coded) };

    ghost view = { λ t. map (λ f. f.now) t.list.items };

    ghost invariant = { λ t. AreTabled (table (map (λ f. f.now) t.list.items)) t.in_order × (t.layouts.items ≡ map (λ f. f.now) t.list.items) };
}

impl<'p> Functions<'p> {
    /// Those of a program, by one walk.
    pub fn of(alloc: Global, program: &'p Program) -> Result<Functions<'p>, OutOfMemory>
        requires { IsMarked program.now }
        ensures { IfOk result (λ t. table t ≡ functions_of (view_program program.now)) }
    {
        let list = program.functions(alloc)?;
        if u32::try_from(list.len()).is_err() {
            return Err(OutOfMemory);
        }
        let in_order = is_in_order(&list);
        let layouts = layouts_of(alloc, &list)?;
        let keys = KnownKeys::new(alloc)?;
        Ok(Functions {
            list,
            layouts,
            keys,
            in_order,
        })
    }

    /// The one with a number.
    pub fn get(&self, number: u32) -> Option<&'p Function>
        ensures { option_map (λ f. code_of f.now) result ≡ slice_get (table self.now) number }
    {
        match self.list.get(number as usize) {
            Some(f) => Some(*f),
            None => None,
        }
    }

    /// What a call of the one with a number begins with.
    pub fn layout(&self, number: u32) -> Option<&CallLayout<'p>>
        ensures { option_map (λ l. code_of l.now) result ≡ slice_get (table self.now) number }
    {
        match self.layouts.get(number as usize) {
            Some(layout) => Some(layout),
            None => None,
        }
    }

    /// The keys of properties that functions and calls make.
    pub fn keys(&self) -> &KnownKeys {
        &self.keys
    }

    /// The number of a function: that of the first one that begins where it does, and how many there are where none does.
    pub fn number_of(&self, f: &Function) -> u32
        ensures { result ≡ number_in (table self.now) (view_function f.now) }
    {
        if self.in_order && begins_there(&self.list, f.number, f) {
            return f.number;
        }
        place_of(&self.list, f) as u32
    }
}

/// What a call of each begins with.
fn layouts_of<'p>(alloc: Global, list: &[&'p Function]) -> Result<Vec<CallLayout<'p>>, OutOfMemory>
    ensures { IfOk result (λ ls. ls.items ≡ map (λ f. f.now) list.now) }
{
    let mut layouts = Vec::with_capacity(alloc, list.len())?;
    for f in list {
        let layout = CallLayout::of(alloc, f)?;
        layouts.push(layout)?;
    }
    Ok(layouts)
}

/// Where a function begins.
#[tactic(auto, using(js_ast::proofs::ViewLaws::parts_function))]
fn place(f: &Function) -> usize
    ensures { result ≡ begins_at (view_function f.now) }
{
    f.at
}

/// Whether each function begins at a higher place than the one before.
fn is_in_order(list: &[&Function]) -> bool
    ensures { result ≡ rises (table (map (λ f. f.now) list.now)) }
{
    match list {
        [] => true,
        [first, others @ ..] => is_above(place(first), others),
    }
}

/// Whether each begins at a higher place than the one before, and the first of them above a place.
fn is_above(first: usize, list: &[&Function]) -> bool
    ensures { result ≡ rises_after first (table (map (λ f. f.now) list.now)) }
{
    let mut last = first;
    for f in list {
        let at = place(f);
        if at <= last {
            return false;
        }
        last = at;
    }
    true
}

/// Whether the function with a number begins where another one does.
fn begins_there(list: &[&Function], number: u32, f: &Function) -> bool
    ensures { result ≡ begins_there (table (map (λ f. f.now) list.now)) number (view_function f.now) }
{
    let at = place(f);
    match list.get(number as usize) {
        Some(other) => place(other) == at,
        None => false,
    }
}

/// The index of the first function that begins where another one does, or how many there are.
fn place_of(list: &[&Function], f: &Function) -> usize
    ensures is { result ≡ number_in (table (map (λ f. f.now) list.now)) (view_function f.now) }
    ensures within { result ≤ length list.now }
{
    let at = place(f);
    for (i, other) in list.iter().enumerate() {
        if place(other) == at {
            return i;
        }
    }
    list.len()
}
