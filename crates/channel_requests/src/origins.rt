//! Origins that a built-in names by their numbers.

ghost use Rattle.std.specs.Prelude.{◌≡◌, ◌<◌, length, IfOk};
ghost use Rattle.std.specs.List.{All};
ghost use Rattle.origin_labels.specs.Label.{label_of};
ghost use Rattle.origin_labels.specs.Stores.{IsKept};
ghost use Rattle.es_meaning.specs.Requested.{are_origins};
ghost use Rattle.channel_requests.specs.Answers.{Means};

use flow_policy::Policy;
use flow_text::OutOfMemory;
use origin_labels::{Labels, OriginList, join_all};

/// Whether a policy declares each of these origins.
pub(crate) fn are_declared(policy: &Policy, origins: &OriginList) -> bool
    ensures { result ≡ are_origins (length policy.now.origins) origins.now }
{
    let count = policy.origins().len();
    are_below(count, origins.items())
}

fn are_below(count: u32, origins: &[u32]) -> bool
    ensures { result ≡ are_origins count origins.now }
{
    origins.iter().all(|origin| *origin < count)
}

/// The label of these origins.
pub(crate) fn label_of<L: Labels>(
    labels: &mut L,
    origins: &OriginList,
) -> Result<L::Label, OutOfMemory>
    requires { All (λ origin. origin < L.room labels.old) origins.now }
    ensures means { IfOk result (λ label. Means L.made L.meaning labels.new label (λ reading. label_of origins.now)) }
    ensures kept { IsKept L.made L.meaning L.room L.firm labels.old labels.new }
{
    join_all(labels, origins)
}
