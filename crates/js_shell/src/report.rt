//! The bytes of a run's report.

ghost use Rattle.std.specs.Prelude.{◌≡◌, ◌<◌, [], ◌++◌, true, map, length, nat_lt, codes, IfOk, IfSome};
ghost use Rattle.std.specs.List.{All, join_with_byte, list_all, slice_index_or};
ghost use Rattle.flow_text.specs.Utf8.{utf8_of};
ghost use Rattle.flow_meaning.specs.Scopes.{stopped};
ghost use Rattle.flow_meaning.specs.Written.{rule_name, list_bytes, halt_bytes, ending_bytes, report};
ghost use Rattle.run_state.specs.Names.{leaving_name};
ghost use Rattle.step_run.specs.Ran.{HasDeclared, told_by};

use flow_frames::Rule;
use flow_policy::Policy;
use flow_text::{OutOfMemory, Text};
use origin_labels::{OriginList, Origins};
use run_state::Leaving;
use std::alloc::Global;
use step_run::Ending;

/// The report of how a run ended. There is none of a write fault or of want of memory.
#[tactic(auto, unfolding(flow_meaning::specs::Written::report))]
pub(crate) fn report_bytes(
    alloc: Global,
    policy: &Policy,
    ending: &Ending,
) -> Result<Vec<u8>, OutOfMemory>
    requires { HasDeclared (length policy.now.origins) ending.now }
    ensures { IfOk result (λ bytes. IfSome (told_by ending.now) (λ told. bytes.items ≡ report policy.now told)) }
{
    let mut bytes = Vec::from_slice(alloc, b"! ")?;
    bytes.extend_from_slice(&ending_bytes(alloc, policy, ending)?)?;
    bytes.push(b'\n')?;
    Ok(bytes)
}

/// What stands in the report between its first two characters and its line's end.
#[tactic(auto, unfolding(flow_meaning::specs::Written::ending_bytes, flow_meaning::specs::Written::halt_bytes))]
pub(crate) fn ending_bytes(
    alloc: Global,
    policy: &Policy,
    ending: &Ending,
) -> Result<Vec<u8>, OutOfMemory>
    requires { HasDeclared (length policy.now.origins) ending.now }
    ensures { IfOk result (λ bytes. IfSome (told_by ending.now) (λ told. bytes.items ≡ ending_bytes policy.now told)) }
{
    match ending {
        Ending::Done => Ok(Vec::from_slice(alloc, b"done")?),
        Ending::Threw { shown } => threw_bytes(alloc, shown),
        Ending::Stopped { rule, need, have } => stopped_bytes(alloc, policy, *rule, need, have),
        Ending::Left(why) => left_bytes(alloc, why),
        Ending::OutOfTurns => Ok(Vec::from_slice(alloc, b"out of turns")?),
        Ending::WriteFault | Ending::OutOfMemory => Err(OutOfMemory),
    }
}

fn threw_bytes(alloc: Global, shown: &Text) -> Result<Vec<u8>, OutOfMemory>
    ensures { IfOk result (λ bytes. bytes.items ≡ codes "threw " ++ utf8_of shown.now) }
{
    let mut bytes = Vec::from_slice(alloc, b"threw ")?;
    bytes.extend_from_slice(&shown.to_utf8(alloc)?)?;
    Ok(bytes)
}

fn left_bytes(alloc: Global, why: &Leaving) -> Result<Vec<u8>, OutOfMemory>
    ensures { IfOk result (λ bytes. bytes.items ≡ codes "left " ++ utf8_of (leaving_name why.now)) }
{
    let mut bytes = Vec::from_slice(alloc, b"left ")?;
    bytes.extend_from_slice(&name_bytes(alloc, why)?)?;
    Ok(bytes)
}

/// The name by which a run leaves.
fn name_bytes(alloc: Global, why: &Leaving) -> Result<Vec<u8>, OutOfMemory>
    ensures { IfOk result (λ bytes. bytes.items ≡ utf8_of (leaving_name why.now)) }
{
    match why {
        Leaving::Named(name) => {
            let bytes = name.to_utf8(alloc)?;
            Ok(bytes)
        }
        Leaving::Number => spelled_bytes(alloc, b"number"),
        Leaving::String => spelled_bytes(alloc, b"string"),
        Leaving::Channel => spelled_bytes(alloc, b"channel"),
        Leaving::Origin => spelled_bytes(alloc, b"origin"),
        Leaving::Wrapper => spelled_bytes(alloc, b"wrapper"),
    }
}

/// A word of ASCII, which is spelled by its own units.
fn spelled_bytes(alloc: Global, word: &[u8]) -> Result<Vec<u8>, OutOfMemory>
    requires ascii { list_all (λ u. nat_lt u 128) word.now ≡ true }
    ensures { IfOk result (λ bytes. bytes.items ≡ utf8_of word.now) }
{
    let bytes = Vec::from_slice(alloc, word)?;
    Ok(bytes)
}

#[tactic(auto, unfolding(flow_meaning::specs::Written::halt_bytes))]
fn stopped_bytes(
    alloc: Global,
    policy: &Policy,
    rule: Rule,
    need: &OriginList,
    have: &OriginList,
) -> Result<Vec<u8>, OutOfMemory>
    requires need { All (λ k. k < length policy.now.origins) need.now }
    requires have { All (λ k. k < length policy.now.origins) have.now }
    ensures { IfOk result (λ bytes. bytes.items ≡ halt_bytes policy.now (stopped rule need.now have.now)) }
{
    let mut bytes = Vec::from_slice(alloc, b"stopped ")?;
    bytes.extend_from_slice(rule_name(rule))?;
    bytes.extend_from_slice(b" need ")?;
    bytes.extend_from_slice(&list_bytes(alloc, policy, need)?)?;
    bytes.extend_from_slice(b" have ")?;
    bytes.extend_from_slice(&list_bytes(alloc, policy, have)?)?;
    Ok(bytes)
}

fn rule_name(rule: Rule) -> &'static [u8]
    ensures { result.now ≡ rule_name rule }
{
    match rule {
        Rule::W1 => b"W1",
        Rule::W2 => b"W2",
        Rule::W3 => b"W3",
        Rule::W4 => b"W4",
        Rule::W5 => b"W5",
        Rule::W6 => b"W6",
        Rule::W7 => b"W7",
        Rule::W8 => b"W8",
        Rule::W9 => b"W9",
        Rule::W10 => b"W10",
        Rule::W11 => b"W11",
        Rule::W12 => b"W12",
    }
}

/// A label as a list.
#[tactic(auto, unfolding(flow_meaning::specs::Written::list_bytes))]
fn list_bytes(alloc: Global, policy: &Policy, label: &OriginList) -> Result<Vec<u8>, OutOfMemory>
    requires { All (λ k. k < length policy.now.origins) label.now }
    ensures { IfOk result (λ bytes. bytes.items ≡ list_bytes policy.now label.now) }
{
    let items = label.items();
    if items.is_empty() {
        return Ok(Vec::from_slice(alloc, b"-")?);
    }
    joined_names(alloc, policy.origins(), items)
}

/// The names of origins with commas between.
fn joined_names(alloc: Global, origins: &Origins, label: &[u32]) -> Result<Vec<u8>, OutOfMemory>
    requires { All (λ k. k < length origins.now) label.now }
    ensures { IfOk result (λ bytes. bytes.items ≡ join_with_byte 44 (map (λ k. utf8_of (slice_index_or origins.now k [])) label.now)) }
{
    let mut bytes = Vec::new(alloc);
    for (i, origin) in label.iter().enumerate() {
        if i > 0 {
            bytes.push(b',')?;
        }
        bytes.extend_from_slice(&origins.name(*origin).to_utf8(alloc)?)?;
    }
    Ok(bytes)
}
