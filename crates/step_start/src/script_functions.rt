//! The functions that the outermost code declares become objects, and properties of the global object, before its variables do (ECMA-262 10.5, 13.2).

ghost use Rattle.std.specs.Prelude.{◌≡◌, ◌<◌, ◌≤◌, ◌+◌, [], ◌∷◌, IfOk, IfSome, OnOk, IsNone, length};
ghost use Rattle.js_ast.specs.Nodes.{nodes_of};
ghost use Rattle.js_ast.specs.Trees.{params_of};
ghost use Rattle.js_ast.specs.Views.{view_function, view_name, view_stmt, view_stmts};
ghost use Rattle.js_values.specs.declared.value.Value.TheVariants.{Object};
ghost use Rattle.js_values.specs.Walks.{plain_chain, plain_find};
ghost use Rattle.es_meaning.specs.Declared.{declared_functions};
ghost use Rattle.es_meaning.specs.Functions.{function_object, constructed_prototype, name_text};
ghost use Rattle.es_meaning.specs.Plain.{declared_over};
ghost use Rattle.es_meaning.specs.Start.{global_object};
ghost use Rattle.call_records.specs.Declarations.{declared_by};
ghost use Rattle.function_table.specs.Tables.{table};
ghost use Rattle.plain_heap.specs.PlainObjects.{seen_slot, with_more};
ghost use Rattle.plain_heap.specs.Started.{IsStarted};
ghost use Rattle.step_start.specs.Entered.{may_take, may_take_over, Comes, Enters};

use call_records::declared;
use flow_text::{OutOfMemory, Text};
use function_table::Functions;
use js_ast::{Function, Ident, Stmt, StmtList};
use js_values::{Body, Class, EnvId, Inner, Key, Marks, ObjId, Slot, Value};
use plain_heap::{BUILT_IN, FUNCTION_PROTOTYPE, GLOBAL_OBJECT, OBJECT_PROTOTYPE, PlainHeap};
use std::alloc::Global;

/// The record of the outermost code.
const OUTERMOST: EnvId = EnvId(0);

/// The attributes of the `prototype` of a function (ECMA-262 15.3.5.2).
const KEPT: Marks = Marks {
    writable: true,
    enumerable: false,
    configurable: false,
};

/// The attributes of what the outermost code declares, which can't be deleted (ECMA-262 10.5).
pub(crate) const DECLARED: Marks = Marks {
    writable: true,
    enumerable: true,
    configurable: false,
};

// Makes a function with this number and so many parameters, whose `prototype` is the object that is made next.
fn make_itself<T: Copy>(
    alloc: Global,
    heap: &mut PlainHeap<T>,
    function: u32,
    count: u32,
) -> Result<ObjId, OutOfMemory>
    requires started { 9 < length heap.old.objects }
    ensures makes { OnOk result (heap.new ≡ with_more (function_object (length heap.old.objects) function 0 count ∷ []) heap.old) }
    ensures number { IfOk result (λ o. o.0 ≡ length heap.old.objects) }
    ensures length { OnOk result (length heap.new.objects ≡ length heap.old.objects + 1) }
{
    let inner = Inner::Script {
        function,
        env: OUTERMOST,
    };
    let o = heap.new_object(Class::Function, Some(FUNCTION_PROTOTYPE), inner)?;
    let constructed = ObjId(heap.len());
    heap.give_length(alloc, o, count)?;
    let body = Body::Data(Value::Object(constructed));
    heap.give_named(alloc, o, "prototype", body, KEPT)?;
    heap.give_function_rows(alloc, o)?;
    Ok(o)
}

// Makes the prototype of what a function constructs.
fn make_constructed<T: Copy>(
    alloc: Global,
    heap: &mut PlainHeap<T>,
    o: ObjId,
) -> Result<(), OutOfMemory>
    requires started { 9 < length heap.old.objects }
    ensures { OnOk result (heap.new ≡ with_more (constructed_prototype o.0 ∷ []) heap.old) }
{
    let proto = heap.new_object(Class::Object, Some(OBJECT_PROTOTYPE), Inner::Plain)?;
    let body = Body::Data(Value::Object(o));
    heap.give_named(alloc, proto, "constructor", body, BUILT_IN)
}

// Makes the objects of a function (ECMA-262 13.2).
fn make_function<T: Copy>(
    alloc: Global,
    heap: &mut PlainHeap<T>,
    function: u32,
    count: u32,
) -> Result<ObjId, OutOfMemory>
    requires started { IsStarted heap.old.objects }
    ensures makes { OnOk result (heap.new ≡ with_more (function_object (length heap.old.objects) function 0 count ∷ constructed_prototype (length heap.old.objects) ∷ []) heap.old) }
    ensures number { IfOk result (λ o. o.0 ≡ length heap.old.objects) }
    ensures started { OnOk result (IsStarted heap.new.objects) }
{
    let o = make_itself(alloc, heap, function, count)?;
    make_constructed(alloc, heap, o)?;
    Ok(o)
}

// Whether a function may be declared over a property: one that can be configured, or data that can be written and is enumerable.
fn may_take_over<T: Copy>(slot: &Slot<T>) -> bool
    ensures { result ≡ may_take_over (seen_slot slot.now) }
{
    match &slot.body {
        Body::Data(_) => {
            slot.marks.configurable || (slot.marks.writable && slot.marks.enumerable)
        }
        Body::Accessor { .. } => slot.marks.configurable,
    }
}

// Whether a function may be declared by this name, which may name a property of the global object or of its prototype.
fn may_take<T: Copy>(heap: &PlainHeap<T>, name: &Key) -> bool
    ensures { result ≡ may_take name.now heap.now.objects }
{
    match heap.own(GLOBAL_OBJECT, name) {
        Some(slot) => may_take_over(slot),
        None => match heap.own(OBJECT_PROTOTYPE, name) {
            Some(slot) => may_take_over(slot),
            None => true,
        },
    }
}

// Declares a function by its name, unless that is refused.
fn bind<T: Copy>(heap: &mut PlainHeap<T>, name: Key, o: ObjId) -> Result<bool, OutOfMemory>
    requires started { IsStarted heap.old.objects }
    ensures binds { IfOk result (λ goes. Comes heap.old.label heap.new goes (declared_over (plain_find name (plain_chain heap.old.objects global_object.0)) name (Object o) heap.old.objects)) }
    ensures started { OnOk result (IsStarted heap.new.objects) }
{
    if !may_take(heap, &name) {
        return Ok(false);
    }
    heap.give(GLOBAL_OBJECT, name, Body::Data(Value::Object(o)), DECLARED)?;
    Ok(true)
}

// The name of a function as a key, and none as the empty one.
fn key_of(alloc: Global, name: &Option<Ident>) -> Result<Key, OutOfMemory>
    ensures { IfOk result (λ key. key ≡ name_text (view_name name.now)) }
{
    match name {
        Some(name) => Ok(Key::new(name.text.copy(alloc)?)),
        None => Ok(Key::new(Text::new(alloc))),
    }
}

// How many parameters a function has.
fn count(f: &Function) -> Result<u32, OutOfMemory>
    ensures { IfOk result (λ n. n ≡ length (params_of (view_function f.now))) }
{
    match u32::try_from(f.params.items().len()) {
        Ok(n) => Ok(n),
        Err(_) => Err(OutOfMemory),
    }
}

// Makes a function and declares it, unless that is refused.
fn declare_function<T: Copy>(
    alloc: Global,
    functions: &Functions<'_>,
    f: &Function,
    heap: &mut PlainHeap<T>,
) -> Result<bool, OutOfMemory>
    requires started { IsStarted heap.old.objects }
    ensures enters { IfOk result (λ goes. Enters (table functions.now) (view_function f.now ∷ []) heap.old heap.new goes) }
    ensures started { OnOk result (IsStarted heap.new.objects) }
{
    let count = count(f)?;
    let key = key_of(alloc, &f.name)?;
    let number = functions.number_of(f);
    let o = make_function(alloc, heap, number, count)?;
    bind(heap, key, o)
}

// Declares the function that a statement is, if it is one.
fn in_statement<T: Copy>(
    alloc: Global,
    functions: &Functions<'_>,
    s: &Stmt,
    heap: &mut PlainHeap<T>,
) -> Result<bool, OutOfMemory>
    requires started { IsStarted heap.old.objects }
    ensures enters { IfOk result (λ goes. Enters (table functions.now) (declared_by (view_stmt s.now)) heap.old heap.new goes) }
    ensures started { OnOk result (IsStarted heap.new.objects) }
{
    match declared(s) {
        Some(f) => declare_function(alloc, functions, f, heap),
        None => Ok(true),
    }
}

/// Declares the functions of the outermost code in their order, until one is refused.
pub(crate) fn declare_functions<T: Copy>(
    alloc: Global,
    functions: &Functions<'_>,
    list: &StmtList,
    heap: &mut PlainHeap<T>,
) -> Result<bool, OutOfMemory>
    requires started { IsStarted heap.old.objects }
    ensures enters { IfOk result (λ goes. Enters (table functions.now) (declared_functions (view_stmts (nodes_of list.now))) heap.old heap.new goes) }
    ensures started { OnOk result (IsStarted heap.new.objects) }
{
    'statements: for s in list.items() {
        if !in_statement(alloc, functions, s, heap)? {
            return Ok(false);
        }
    }
    Ok(true)
}
