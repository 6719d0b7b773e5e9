//! Programs whose functions are marked.

ghost use Rattle.std.specs.Prelude.{◌≡◌, IfOk};
ghost use Rattle.js_ast.specs.Nodes.{nodes_of};
ghost use Rattle.js_ast.specs.Views.{view_program, view_stmts};
ghost use Rattle.js_ast.specs.IsMarked.{IsMarked};

use crate::marking::mark_list;
use crate::prologue::prologue_strict;
use flow_text::OutOfMemory;
use js_ast::{Program, StmtList};

/// The program of these statements. It gives each function its number, and marks which code is strict. It takes no
/// memory, and answers that there is none only for a program of 2^32 functions or more.
pub fn marked_program(body: StmtList) -> Result<Program, OutOfMemory>
    ensures kept { IfOk result (λ p. view_program p ≡ view_stmts (nodes_of body)) }
    ensures marks { IfOk result IsMarked }
{
    let strict = prologue_strict(body.items());
    let mut body = body;
    let function_count = mark_list(&mut body, strict, 0)?;
    Ok(Program {
        body,
        strict,
        function_count,
    })
}
