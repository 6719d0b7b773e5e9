//! The functions that a body declares (ECMA-262 10.5, step 5).

ghost use Rattle.std.specs.Prelude.{◌≡◌, ◌≤◌, ◌++◌, [], ◌∷◌, IfOk, IfSome, IsNone, OnOk, length};
ghost use Rattle.origin_labels.specs.Stores.{IsKept};
ghost use Rattle.js_ast.specs.Nodes.{nodes_of};
ghost use Rattle.js_ast.specs.Views.{view_function, view_stmt, view_stmts};
ghost use Rattle.js_values.specs.Readings.{HasHeap};
ghost use Rattle.es_meaning.specs.Declared.{declared_functions};
ghost use Rattle.es_meaning.specs.Functions.{objects_of, references_of, behind_functions};
ghost use Rattle.call_records.specs.Declarations.{declared_by};
ghost use Rattle.function_table.specs.Tables.{table};
ghost use Rattle.function_entry.specs.Declaring.{labelled_with};
ghost use Rattle.function_entry.specs.Making.{Makes};

use crate::objects::{count, make_objects};
use call_records::declared;
use flow_text::OutOfMemory;
use function_table::Functions;
use js_ast::{Function, Stmt, StmtList};
use js_values::{EnvId, Labelled, Value};
use object_heap::Heap;
use origin_labels::Labels;
use std::alloc::Global;

// Makes the objects of a function that closes over this record, and gives its reference.
fn make_one<T: Copy, L: Labels<Label = T>>(
    alloc: Global,
    labels: &mut L,
    heap: &mut Heap<T>,
    context: T,
    functions: &Functions<'_>,
    f: &Function,
    own: EnvId,
) -> Result<Labelled<T>, OutOfMemory>
    requires started { 16 ≤ length heap.old }
    requires context { L.made labels.old context }
    requires belongs { HasHeap (L.made labels.old) heap.old }
    ensures makes { OnOk result (Makes L.made L.meaning labels.new context (objects_of (table functions.now) (length heap.old) own.0 (view_function f.now ∷ [])) heap.old heap.new) }
    ensures reference { IfOk result (λ v. v ∷ [] ≡ labelled_with context (references_of (length heap.old) (view_function f.now ∷ []))) }
    ensures length { OnOk result (length heap.new ≡ behind_functions (length heap.old) (view_function f.now ∷ [])) }
    ensures grows { length heap.old ≤ length heap.new }
    ensures belongs { HasHeap (L.made labels.new) heap.new }
    ensures kept { IsKept L.made L.meaning L.room L.firm labels.old labels.new }
{
    let count = count(f)?;
    let number = functions.number_of(f);
    let keys = functions.keys();
    let o = make_objects(alloc, labels, keys, heap, context, number, own, count)?;
    Ok(Labelled {
        value: Value::Object(o),
        label: context,
    })
}

// Makes the objects of the function that a statement declares, if it is a declaration, and puts its reference behind the others.
fn make_by_statement<T: Copy, L: Labels<Label = T>>(
    alloc: Global,
    labels: &mut L,
    heap: &mut Heap<T>,
    context: T,
    functions: &Functions<'_>,
    s: &Stmt,
    own: EnvId,
    references: &mut Vec<Labelled<T>>,
) -> Result<(), OutOfMemory>
    requires started { 16 ≤ length heap.old }
    requires context { L.made labels.old context }
    requires belongs { HasHeap (L.made labels.old) heap.old }
    ensures makes { OnOk result (Makes L.made L.meaning labels.new context (objects_of (table functions.now) (length heap.old) own.0 (declared_by (view_stmt s.now))) heap.old heap.new) }
    ensures references { OnOk result (references.new.items ≡ references.old.items ++ labelled_with context (references_of (length heap.old) (declared_by (view_stmt s.now)))) }
    ensures length { OnOk result (length heap.new ≡ behind_functions (length heap.old) (declared_by (view_stmt s.now))) }
    ensures grows { length heap.old ≤ length heap.new }
    ensures belongs { HasHeap (L.made labels.new) heap.new }
    ensures kept { IsKept L.made L.meaning L.room L.firm labels.old labels.new }
{
    match declared(s) {
        Some(f) => {
            let reference = make_one(alloc, labels, heap, context, functions, f, own)?;
            references.push(reference)?;
            Ok(())
        }
        None => Ok(()),
    }
}

/// Makes the objects of the functions that a body declares, in their order, in the context. They close over the record `own`.
/// Their references have the context's label.
pub(crate) fn make_declared<T: Copy, L: Labels<Label = T>>(
    alloc: Global,
    labels: &mut L,
    heap: &mut Heap<T>,
    context: T,
    functions: &Functions<'_>,
    body: &StmtList,
    own: EnvId,
) -> Result<Vec<Labelled<T>>, OutOfMemory>
    requires started { 16 ≤ length heap.old }
    requires context { L.made labels.old context }
    requires belongs { HasHeap (L.made labels.old) heap.old }
    ensures makes { OnOk result (Makes L.made L.meaning labels.new context (objects_of (table functions.now) (length heap.old) own.0 (declared_functions (view_stmts (nodes_of body.now)))) heap.old heap.new) }
    ensures references { IfOk result (λ vs. vs.items ≡ labelled_with context (references_of (length heap.old) (declared_functions (view_stmts (nodes_of body.now))))) }
    ensures length { OnOk result (length heap.new ≡ behind_functions (length heap.old) (declared_functions (view_stmts (nodes_of body.now)))) }
    ensures grows { length heap.old ≤ length heap.new }
    ensures belongs { HasHeap (L.made labels.new) heap.new }
    ensures kept { IsKept L.made L.meaning L.room L.firm labels.old labels.new }
{
    let mut references = Vec::new(alloc);
    'statements: for s in body.items() {
        make_by_statement(
            alloc,
            labels,
            heap,
            context,
            functions,
            s,
            own,
            &mut references,
        )?;
    }
    Ok(references)
}
