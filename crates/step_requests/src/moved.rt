//! How a run goes on behind a request.

use channel_requests::Printed;
use continuations::Control;
use native_protocol::Answer;

/// What comes behind a request: the built-in, which has so many registers, asks next and is told an answer, perhaps behind a line that it printed; it waits for
/// what was entered; or it is over.
#[derive(Drop)]
pub(crate) enum Moved<'p, T> {
    Asks(u32, Answer),
    Prints(u32, Printed<T>),
    Waits(Control<'p>),
    Ends(Control<'p>),
}
