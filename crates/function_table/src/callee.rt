//! What a value is for a call.

use js_ast::Function;
use js_values::EnvId;

/// What a value is for a call (ECMA-262 13.2.1, 13.2.2, 15.3.4).
#[derive(Clone, Copy)]
pub enum Callee<'p> {
    /// It isn't a function, or a bound one, which is called by its target.
    NotCallable,
    /// The prototype of functions: it gives undefined, and constructs nothing.
    Empty,
    /// A function of the script, with its number and the record that it closes over.
    Script {
        number: u32,
        function: &'p Function,
        place: EnvId,
    },
    /// A built-in function, with its number.
    Native {
        which: u32,
    },
}
