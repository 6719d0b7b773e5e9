//! Lists of origins.

ghost use Rattle.std.specs.Prelude.{◌≡◌, ◌≤◌, ℕ, false, length, slice_index_or, IfOk};
ghost use Rattle.origin_labels.specs.Label.{IsLabel, has};
ghost use Rattle.flow_policy.specs.Lists.{label_in};
ghost use Rattle.flow_policy.specs.Policies.{table_room};
ghost use Rattle.flow_policy.specs.Answers.{FindsOrigin, MarksOrigins, GivesLabel};

use crate::fault::{LineFault, PolicyKind};
use flow_lists::{first_name, is_bare};
use flow_text::{OutOfMemory, Text};
use origin_labels::{OriginList, Origins};
use std::alloc::Global;

/// Each table has room for this many.
pub(crate) const TABLE_ROOM: usize = 64;

/// The set of the list's origins.
pub(crate) fn label_in(
    alloc: Global,
    origins: &Origins,
    list: &[u16],
) -> Result<OriginList, LineFault>
    requires { length origins.now ≤ table_room }
    ensures { GivesLabel result origins.now list.now }
{
    let marks = marks_in(alloc, origins, list)?;
    Ok(marked(alloc, &marks)?)
}

// A mark for each origin of the list.
fn marks_in(alloc: Global, origins: &Origins, list: &[u16]) -> Result<[bool; TABLE_ROOM], LineFault>
    requires { length origins.now ≤ table_room }
    ensures { MarksOrigins result origins.now list.now }
{
    let mut marks = [false; TABLE_ROOM];
    if is_bare(list) {
        return Ok(marks);
    }
    let mut rest = list;
    while let Some((name, others)) = first_name(rest) {
        let origin = origin_of(alloc, origins, name)?;
        marks[origin] = true;
        rest = others;
    }
    let last = origin_of(alloc, origins, rest)?;
    marks[last] = true;
    Ok(marks)
}

fn origin_of(alloc: Global, origins: &Origins, name: &[u16]) -> Result<usize, LineFault>
    ensures { FindsOrigin result origins.now name.now }
{
    let mut text = Text::new(alloc);
    text.push_units(name)?;
    match origins.index_of(&text) {
        Some(origin) => Ok(origin as usize),
        None => Err(LineFault::Bad(PolicyKind::Unknown)),
    }
}

// The origins that have a mark.
fn marked(alloc: Global, marks: &[bool; TABLE_ROOM]) -> Result<OriginList, OutOfMemory>
    ensures label { IfOk result (λ l. IsLabel l) }
    ensures members { IfOk result (λ l. (k : ℕ) → has k l ≡ slice_index_or marks.now k false) }
{
    let mut origins = OriginList::new(alloc);
    for (origin, mark) in marks.iter().enumerate() {
        if *mark {
            origins.push(origin as u32)?;
        }
    }
    Ok(origins)
}
