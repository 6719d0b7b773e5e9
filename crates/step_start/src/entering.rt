//! The objects that a run of a script begins with.

ghost use Rattle.std.specs.Prelude.{◌≡◌, IfOk};
ghost use Rattle.js_ast.specs.Functions.{functions_of};
ghost use Rattle.js_ast.specs.Views.{view_program};
ghost use Rattle.es_meaning.specs.BuiltIns.{built_ins_of};
ghost use Rattle.es_meaning.specs.Plain.{first_heap, may_declare};
ghost use Rattle.function_table.specs.Tables.{table};
ghost use Rattle.plain_heap.specs.Started.{IsStarted};

use crate::entries::start_objects;
use crate::hoisting::in_list;
use crate::script_functions::declare_functions;
use flow_text::OutOfMemory;
use function_table::Functions;
use js_ast::Program;
use native_protocol::Natives;
use plain_heap::PlainHeap;
use std::alloc::Global;

/// The objects that a run begins with, and whether the script may declare its functions.
#[derive(Drop)]
pub struct Entered<T> {
    pub heap: PlainHeap<T>,
    pub may_declare: bool,
}

/// The objects of a set of built-ins, and on the global object the functions and then the variables that the script declares. Where a function is refused, the
/// objects of the set alone.
pub(crate) fn script_objects<T: Copy, N: Natives>(
    alloc: Global,
    natives: &N,
    program: &Program,
    functions: &Functions<'_>,
    label: T,
) -> Result<Entered<T>, OutOfMemory>
    requires functions { table functions.now ≡ functions_of (view_program program.now) }
    ensures objects { IfOk result (λ entered. entered.heap ≡ record { label = label; objects = first_heap (built_ins_of (N.entries natives.now) (N.begin natives.now) (N.after natives.now) (N.asks natives.now)) (view_program program.now) }) }
    ensures may_declare { IfOk result (λ entered. entered.may_declare ≡ may_declare (built_ins_of (N.entries natives.now) (N.begin natives.now) (N.after natives.now) (N.asks natives.now)) (view_program program.now)) }
    ensures started { IfOk result (λ entered. IsStarted entered.heap.objects) }
{
    let mut heap = start_objects(alloc, natives, label)?;
    let may_declare = declare_functions(alloc, functions, &program.body, &mut heap)?;
    if may_declare {
        in_list(alloc, &program.body, &mut heap)?;
        Ok(Entered { heap, may_declare })
    } else {
        let heap = start_objects(alloc, natives, label)?;
        Ok(Entered { heap, may_declare })
    }
}
