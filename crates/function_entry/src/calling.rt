//! What an object is for a call.

ghost use Rattle.std.specs.Prelude.{◌≡◌, slice_get};
ghost use Rattle.origin_labels.specs.Label.{Label};
ghost use Rattle.js_values.specs.Readings.{read_heap};
ghost use Rattle.es_meaning.specs.Functions.{is_function, script_callee, callable_inner};
ghost use Rattle.flow_meaning.specs.Erased.{erased_inner};
ghost use Rattle.flow_meaning.specs.Tracked.{callee_at};
ghost use Rattle.function_table.specs.Callees.{callee_of};
ghost use Rattle.function_table.specs.Tables.{table};
ghost use Rattle.function_entry.specs.Calling.{IsOfTable};

use function_table::{Callee, Functions};
use js_values::{Class, EnvId, Inner, ObjId};
use object_heap::Heap;

// Whether objects of a class are functions.
fn is_function(class: Class) -> bool
    ensures { result ≡ is_function class }
{
    match class {
        Class::Function => true,
        Class::Object
        | Class::Array
        | Class::Arguments
        | Class::Error
        | Class::Math
        | Class::Json
        | Class::String
        | Class::Number
        | Class::Boolean => false,
    }
}

// The function of the script with a number.
fn script_callee<'p>(functions: &Functions<'p>, number: u32, place: EnvId) -> Callee<'p>
    ensures is { callee_of result ≡ script_callee (slice_get (table functions.now) number) number place.0 }
    ensures of_table { IsOfTable (table functions.now) result }
{
    match functions.get(number) {
        Some(function) => Callee::Script {
            number,
            function,
            place,
        },
        None => Callee::NotCallable,
    }
}

// What a function is for a call.
fn inner_callee<'p, T: Copy>(functions: &Functions<'p>, inner: &Inner<T>) -> Callee<'p>
    ensures is { callee_of result ≡ callable_inner (table functions.now) (erased_inner inner.now) }
    ensures of_table { IsOfTable (table functions.now) result }
{
    match inner {
        Inner::Plain => Callee::Empty,
        Inner::Script { function, env } => script_callee(functions, *function, *env),
        Inner::Native { which } => Callee::Native { which: *which },
        Inner::Bound { .. } => Callee::NotCallable,
    }
}

/// What an object is for a call (ECMA-262 11.2.3, 13.2). A function of the script is one of the table, and a number that no object has is no function's.
pub fn callee<'p, T: Copy>(functions: &Functions<'p>, heap: &Heap<T>, o: ObjId) -> Callee<'p>
    ensures is { (reading : T → Label) → callee_of result ≡ callee_at (table functions.now) (read_heap reading heap.now) o.0 }
    ensures of_table { IsOfTable (table functions.now) result }
{
    if o.0 >= heap.len() {
        return Callee::NotCallable;
    }
    if is_function(heap.shape(o).class) {
        return inner_callee(functions, heap.inner(o));
    }
    Callee::NotCallable
}
