//! The names that the record of a call begins with are added to a layout, with their places.

ghost use Rattle.std.specs.Prelude.{◌≡◌, [], ◌∷◌, ◌++◌, false, Some, IfOk, OnOk};
ghost use Rattle.js_ast.specs.Nodes.{nodes_of};
ghost use Rattle.js_ast.specs.Trees.{name_of};
ghost use Rattle.js_ast.specs.Views.{view_function, view_idents, view_name, view_stmt, view_stmts};
ghost use Rattle.env_records.specs.Layouts.{first_place};
ghost use Rattle.es_meaning.specs.Declared.{declared_functions};
ghost use Rattle.es_meaning.specs.Functions.{this_name, function_name, name_text};
ghost use Rattle.call_records.specs.Declarations.{declared_by};
ghost use Rattle.call_records.specs.Planned.{names, with_name, parameter_names, function_names, with_arguments_name, arguments_place, ArePlaces, Adds};

use crate::declaring::declared;
use env_records::Layout;
use flow_text::{OutOfMemory, Text};
use js_ast::{Function, Ident, Stmt, StmtList};
use std::alloc::Global;

/// `this`
const THIS: [u16; 4] = [0x74, 0x68, 0x69, 0x73];

/// `function`
const FUNCTION: [u16; 8] = [0x66, 0x75, 0x6E, 0x63, 0x74, 0x69, 0x6F, 0x6E];

/// `arguments`
const ARGUMENTS: [u16; 9] = [0x61, 0x72, 0x67, 0x75, 0x6D, 0x65, 0x6E, 0x74, 0x73];

/// Where names of a call are in its layout.
#[derive(Drop)]
pub(crate) struct Places {
    pub(crate) parameters: Vec<usize>,
    pub(crate) functions: Vec<usize>,
    /// That of the `arguments` object, where it is bound.
    pub(crate) arguments: Option<usize>,
}

// A text of these units.
fn text_of(alloc: Global, units: &[u16]) -> Result<Text, OutOfMemory>
    ensures { IfOk result (λ text. text ≡ units.now) }
{
    let mut text = Text::new(alloc);
    text.push_units(units)?;
    Ok(text)
}

/// The two names that the record of each call begins with. Nothing gives them another value.
pub(crate) fn first_names(alloc: Global) -> Result<Layout, OutOfMemory>
    ensures { IfOk result (λ layout. layout ≡ names false this_name ++ names false function_name) }
{
    let mut layout = Layout::new(alloc);
    layout.push(text_of(alloc, &THIS)?, false)?;
    layout.push(text_of(alloc, &FUNCTION)?, false)?;
    Ok(layout)
}

/// Adds a name, unless it is there.
pub(crate) fn keep(alloc: Global, name: &Text, layout: &mut Layout) -> Result<(), OutOfMemory>
    ensures { OnOk result (layout.new ≡ with_name name.now layout.old) }
{
    if layout.place(name).is_some() {
        return Ok(());
    }
    layout.push(name.copy(alloc)?, true)
}

// The same, and gives its place.
fn place(alloc: Global, name: &Text, layout: &mut Layout) -> Result<usize, OutOfMemory>
    ensures names { OnOk result (layout.new ≡ with_name name.now layout.old) }
    ensures place { IfOk result (λ place. first_place name.now layout.new ≡ Some place) }
{
    match layout.place(name) {
        Some(place) => Ok(place),
        None => {
            let place = layout.len();
            layout.push(name.copy(alloc)?, true)?;
            Ok(place)
        }
    }
}

// The same, and adds its place to others.
fn place_next(
    alloc: Global,
    name: &Text,
    layout: &mut Layout,
    places: &mut Vec<usize>,
) -> Result<(), OutOfMemory>
    ensures { OnOk result (Adds (name.now ∷ []) layout.old layout.new places.old.items places.new.items) }
{
    let place = place(alloc, name, layout)?;
    places.push(place)?;
    Ok(())
}

/// Adds the parameters, and gives their places.
pub(crate) fn place_parameters(
    alloc: Global,
    params: &[Ident],
    layout: &mut Layout,
) -> Result<Vec<usize>, OutOfMemory>
    ensures { IfOk result (λ places. Adds (parameter_names (view_idents params.now)) layout.old layout.new [] places.items) }
{
    let mut places = Vec::with_capacity(alloc, params.len())?;
    'params: for param in params {
        place_next(alloc, &param.text, layout, &mut places)?;
    }
    Ok(places)
}

// The name of a function, and none as the empty one.
fn name_of(alloc: Global, name: &Option<Ident>) -> Result<Text, OutOfMemory>
    ensures { IfOk result (λ text. text ≡ name_text (view_name name.now)) }
{
    match name {
        Some(name) => name.text.copy(alloc),
        None => Ok(Text::new(alloc)),
    }
}

// Adds the name of a function.
#[tactic(auto, using(js_ast::proofs::ViewLaws::parts_function))]
fn place_function(
    alloc: Global,
    f: &Function,
    layout: &mut Layout,
    places: &mut Vec<usize>,
) -> Result<(), OutOfMemory>
    ensures { OnOk result (Adds (name_text (name_of (view_function f.now)) ∷ []) layout.old layout.new places.old.items places.new.items) }
{
    let name = name_of(alloc, &f.name)?;
    place_next(alloc, &name, layout, places)
}

// Adds the name of the function that a statement declares itself, if it is a declaration.
fn place_declared(
    alloc: Global,
    s: &Stmt,
    layout: &mut Layout,
    places: &mut Vec<usize>,
) -> Result<(), OutOfMemory>
    ensures { OnOk result (Adds (function_names (declared_by (view_stmt s.now))) layout.old layout.new places.old.items places.new.items) }
{
    match declared(s) {
        Some(f) => place_function(alloc, f, layout, places),
        None => Ok(()),
    }
}

/// Adds the functions that statements declare, and gives their places.
pub(crate) fn place_functions(
    alloc: Global,
    list: &StmtList,
    layout: &mut Layout,
) -> Result<Vec<usize>, OutOfMemory>
    ensures { IfOk result (λ places. Adds (function_names (declared_functions (view_stmts (nodes_of list.now)))) layout.old layout.new [] places.items) }
{
    let mut places = Vec::new(alloc);
    'statements: for s in list.items() {
        place_declared(alloc, s, layout, &mut places)?;
    }
    Ok(places)
}

/// Adds `arguments`, if the code names it and it isn't there (ECMA-262 10.5, step 7), and gives its place. Nothing gives it another value.
pub(crate) fn place_arguments(
    alloc: Global,
    names_arguments: bool,
    layout: &mut Layout,
) -> Result<Option<usize>, OutOfMemory>
    ensures names { OnOk result (layout.new ≡ with_arguments_name names_arguments layout.old) }
    ensures place { IfOk result (λ place. place ≡ arguments_place names_arguments layout.old) }
{
    if !names_arguments {
        return Ok(None);
    }
    let name = text_of(alloc, &ARGUMENTS)?;
    if layout.place(&name).is_some() {
        return Ok(None);
    }
    let place = layout.len();
    layout.push(name, false)?;
    Ok(Some(place))
}
