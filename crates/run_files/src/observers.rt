//! Observers: the origins that a list names.

ghost use Rattle.std.specs.Prelude.{◌≡◌, option_copied, slice_get};
ghost use Rattle.std.specs.List.{slice_split};
ghost use Rattle.flow_lists.specs.Lists.{is_comma};
ghost use Rattle.run_files.specs.Accepting.{Observes, IsRead};

use crate::refusals::Refusal;
use flow_policy::{ListFault, Policy, read_list};
use origin_labels::OriginList;
use std::alloc::Global;

/// Reads the observer's list of declared origins, where there is one.
pub(crate) fn accept_observer<'a>(
    alloc: Global,
    policy: &Policy,
    list: Option<&'a str>,
) -> Result<Option<OriginList>, Refusal<'a>>
    ensures observes { Observes policy.now (option_copied list.entry) result }
    ensures read { IsRead result }
{
    let Some(list) = list else {
        return Ok(None);
    };
    match read_list(alloc, policy.origins(), list) {
        Ok(observer) => Ok(Some(observer)),
        Err(ListFault::Form) => Err(Refusal::UnknownObserver { name: list }),
        Err(ListFault::Unknown { which }) => Err(Refusal::UnknownObserver {
            name: piece(list, which).unwrap_or(""),
        }),
        Err(ListFault::OutOfMemory) => Err(Refusal::OutOfMemory),
    }
}

/// The piece of a list with a number, from 0.
fn piece(list: &str, which: usize) -> Option<&str>
    ensures { option_copied result ≡ slice_get (slice_split is_comma list.now) which }
{
    list.split(',').nth(which)
}
