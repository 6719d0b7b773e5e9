//! How a run leaves the language.

ghost use Rattle.std.specs.Prelude.{◌≡◌, length, IfOk};
ghost use Rattle.es_meaning.specs.Outcomes.{left};
ghost use Rattle.flow_meaning.specs.Planned.{End};
ghost use Rattle.flow_meaning.specs.Scopes.{as_plain};
ghost use Rattle.run_state.specs.Names.{leaving_name};
ghost use Rattle.continuations.specs.Loads.{Adds};
ghost use Rattle.continuations.specs.Moving.{Rests};
ghost use Rattle.continuations.specs.Resuming.{Begins};

use crate::continuation::{Control, Reason};
use crate::stack::Stack;
use flow_text::{OutOfMemory, Text};
use js_number::Primitive;
use js_values::{Labelled, Value};
use origin_labels::Labels;
use run_state::Leaving;

/// The run leaves the language by this name, which lies loose then.
fn leave_named<'p, L: Labels>(
    labels: &L,
    stack: &mut Stack<'p, L::Label>,
    name: Text,
) -> Result<Control<'p>, OutOfMemory>
    requires { length stack.old.loose ≡ 0 }
    ensures goes_on { IfOk result (Begins (λ tables inputs set functions e s. End (as_plain (left name)) s) stack.old stack.new) }
    ensures rests { IfOk result (Rests (L.made labels.now) stack.old stack.new) }
    ensures adds { IfOk result (Adds 0 stack.old stack.new) }
{
    let none = labels.bottom();
    stack.lay(Labelled {
        value: Value::Primitive(Primitive::Str(name)),
        label: none,
    })?;
    Ok(Control::Leave(Reason::Named))
}

/// The run leaves the language.
pub fn leave_by<'p, L: Labels>(
    labels: &L,
    stack: &mut Stack<'p, L::Label>,
    why: Leaving,
) -> Result<Control<'p>, OutOfMemory>
    requires { length stack.old.loose ≡ 0 }
    ensures goes_on { IfOk result (Begins (λ tables inputs set functions e s. End (as_plain (left (leaving_name why))) s) stack.old stack.new) }
    ensures rests { IfOk result (Rests (L.made labels.now) stack.old stack.new) }
    ensures adds { IfOk result (Adds 0 stack.old stack.new) }
{
    match why {
        Leaving::Number => Ok(Control::Leave(Reason::Number)),
        Leaving::String => Ok(Control::Leave(Reason::String)),
        Leaving::Channel => Ok(Control::Leave(Reason::Channel)),
        Leaving::Origin => Ok(Control::Leave(Reason::Origin)),
        Leaving::Wrapper => Ok(Control::Leave(Reason::Wrapper)),
        Leaving::Named(name) => leave_named(labels, stack, name),
    }
}
