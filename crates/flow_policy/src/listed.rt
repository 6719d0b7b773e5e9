//! Lists of origins that are no part of a policy.

ghost use Rattle.std.specs.Prelude.{◌≡◌, ◌<◌, None, length, IfOk, MatchResult};
ghost use Rattle.std.specs.List.{All};
ghost use Rattle.origin_labels.specs.Label.{label_of};
ghost use Rattle.flow_lists.specs.Lists.{names_in};
ghost use Rattle.flow_policy.specs.Lists.{numbers_of};
ghost use Rattle.flow_policy.specs.Listed.{list_of, unknown_in, GivesList, FindsNumber, FailsNumbers};

use crate::fault::ListFault;
use crate::names::text_of;
use flow_lists::{are_names, first_name, is_bare};
use flow_text::{OutOfMemory, Text};
use origin_labels::{OriginList, Origins};
use std::alloc::Global;

/// Reads a list of declared origins: `-`, or names with single commas between.
pub fn read_list(alloc: Global, origins: &Origins, list: &str) -> Result<OriginList, ListFault>
    ensures list { GivesList result (list_of origins.now list.now) }
{
    let text = text_of(alloc, list.as_bytes())?;
    list_in(alloc, origins, text.units())
}

fn list_in(alloc: Global, origins: &Origins, list: &[u16]) -> Result<OriginList, ListFault>
    ensures list { GivesList result (list_of origins.now list.now) }
{
    if !are_names(list) {
        return Err(ListFault::Form);
    }
    let numbers = numbers_in(alloc, origins, list)?;
    Ok(label_of(alloc, &numbers, origins.len())?)
}

// The number of each name of the list.
fn numbers_in(alloc: Global, origins: &Origins, list: &[u16]) -> Result<Vec<u32>, ListFault>
    ensures numbers { MatchResult result (λ v. (unknown_in origins.now list.now ≡ None) × (v.items ≡ numbers_of origins.now (names_in list.now))) (λ e. FailsNumbers e (unknown_in origins.now list.now)) }
    ensures below { IfOk result (λ v. All (λ number. number < length origins.now) v.items) }
{
    let mut numbers = Vec::new(alloc);
    if is_bare(list) {
        return Ok(numbers);
    }
    let mut rest = list;
    while let Some((name, others)) = first_name(rest) {
        let number = number_of(alloc, origins, name, numbers.len())?;
        numbers.push(number)?;
        rest = others;
    }
    let last = number_of(alloc, origins, rest, numbers.len())?;
    numbers.push(last)?;
    Ok(numbers)
}

fn number_of(alloc: Global, origins: &Origins, name: &[u16], which: usize) -> Result<u32, ListFault>
    ensures { FindsNumber result which origins.now name.now }
{
    let mut text = Text::new(alloc);
    text.push_units(name)?;
    origins.index_of(&text).ok_or(ListFault::Unknown { which })
}

// The set of numbers that are below a bound.
fn label_of(alloc: Global, numbers: &[u32], bound: u32) -> Result<OriginList, OutOfMemory>
    requires { All (λ number. number < bound) numbers.now }
    ensures { IfOk result (λ label. label ≡ label_of numbers.now) }
{
    let mut label = OriginList::new(alloc);
    for origin in 0..bound {
        if numbers.contains(&origin) {
            label.push(origin)?;
        }
    }
    Ok(label)
}
