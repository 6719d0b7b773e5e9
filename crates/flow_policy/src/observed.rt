//! What an observer sees of inputs.

ghost use Rattle.std.specs.Prelude.{◌≡◌, ◌↔◌, None};
ghost use Rattle.origin_labels.specs.Label.{sees};
ghost use Rattle.flow_policy.specs.Inputs.{IsGivenTo};
ghost use Rattle.flow_policy.specs.Observed.{Agree, first_disagreement, same_lines};

use crate::inputs::Inputs;
use crate::policy::Policy;
use flow_text::Text;
use origin_labels::OriginList;

/// The number of the first input channel that the observer sees and whose lines differ.
pub fn disagree(
    policy: &Policy,
    first: &Inputs,
    second: &Inputs,
    observer: &OriginList,
) -> Option<usize>
    requires first { IsGivenTo policy.now first.now }
    requires second { IsGivenTo policy.now second.now }
    ensures first { result ≡ first_disagreement observer.now policy.now first.now second.now }
    ensures agree { (result ≡ None) ↔ Agree observer.now policy.now first.now second.now }
{
    for (i, channel) in policy.inputs().iter().enumerate() {
        if sees(observer, &channel.label) && !same_lines(first.lines(i), second.lines(i)) {
            return Some(i);
        }
    }
    None
}

// Whether the observer sees what has the label.
fn sees(observer: &OriginList, label: &OriginList) -> bool
    ensures { result ≡ sees observer.now label.now }
{
    let origins = observer.items();
    label.items().iter().all(|origin| origins.contains(origin))
}

fn same_lines(first: &[Text], second: &[Text]) -> bool
    ensures { result ≡ same_lines first.now second.now }
{
    first == second
}
