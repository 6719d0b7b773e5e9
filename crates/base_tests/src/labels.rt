use crate::told::holds;
use flow_text::{OutOfMemory, Text};
use origin_labels::{Labels, Masks, OriginList, Origins, join_all};
use std::alloc::Global;
use std::test::*;

// Which of the origins 0, 1, 63 and 64 the label has.
fn held<L: Labels>(labels: &L, label: L::Label) -> [bool; 4]
    requires { L.made labels.now label }
{
    [
        labels.has(label, 0),
        labels.has(label, 1),
        labels.has(label, 63),
        labels.has(label, 64),
    ]
}

fn sets() -> Result<bool, OutOfMemory> {
    let zero = Masks.single(0)?;
    let one = Masks.single(1)?;
    let both = Masks.join(one, zero)?;
    let last = Masks.single(63)?;
    Ok(
        held(&Masks, Masks.bottom()) == [false, false, false, false]
            && held(&Masks, zero) == [true, false, false, false]
            && held(&Masks, one) == [false, true, false, false]
            && held(&Masks, both) == [true, true, false, false]
            && held(&Masks, last) == [false, false, true, false],
    )
}

fn inclusions() -> Result<bool, OutOfMemory> {
    let zero = Masks.single(0)?;
    let one = Masks.single(1)?;
    let both = Masks.join(one, zero)?;
    let within = Masks.within(one, both)
        && Masks.within(Masks.bottom(), one)
        && Masks.within(both, both);
    Ok(within && !Masks.within(both, one) && !Masks.within(zero, one))
}

// Whether the first set has the origin, and whether it is included in the second.
fn found<L: Labels>(labels: &L, a: L::Label, b: L::Label, origin: u32) -> (bool, bool)
    requires first { L.made labels.now a }
    requires second { L.made labels.now b }
{
    (labels.has(a, origin), labels.within(a, b))
}

// The list of the origins 0 and 1.
fn zero_and_one(alloc: Global) -> Result<OriginList, OutOfMemory> {
    let mut list = OriginList::new(alloc);
    list.push(0)?;
    list.push(1)?;
    Ok(list)
}

fn joins(list: &OriginList) -> Result<bool, OutOfMemory> {
    if list.items() == [0, 1].as_slice() {
        let all = join_all(&mut Masks, list)?;
        let one = Masks.single(1)?;
        return Ok(
            found(&Masks, all, one, 0) == (true, false)
                && found(&Masks, all, one, 1) == (true, false)
                && found(&Masks, all, one, 2) == (false, false)
                && found(&Masks, one, all, 1) == (true, true),
        );
    }
    Ok(false)
}

fn joins_a_list(alloc: Global) -> Result<bool, OutOfMemory> {
    joins(&zero_and_one(alloc)?)
}

fn lists_one(alloc: Global) -> Result<bool, OutOfMemory> {
    let mut list = OriginList::new(alloc);
    list.push(3)?;
    Ok(list.items() == [3].as_slice())
}

#[test]
fn sets_of_origins(rt: HostRuntime) {
    assert!(rt; holds(sets()));
    assert!(rt; holds(inclusions()));
    assert!(rt; holds(joins_a_list(rt.alloc())));
    assert!(rt; holds(lists_one(rt.alloc())));
}

// The text of one unit.
fn text_of(alloc: Global, unit: u16) -> Result<Text, OutOfMemory> {
    let mut text = Text::new(alloc);
    text.push(unit)?;
    Ok(text)
}

fn has_one_name(alloc: Global, origins: &Origins) -> Result<bool, OutOfMemory> {
    let a = text_of(alloc, 65)?;
    let b = text_of(alloc, 66)?;
    let numbers = origins.index_of(&a) == Some(0) && origins.index_of(&b).is_none();
    Ok(numbers && origins.len() == 1 && *origins.name(0) == a)
}

fn adds_a_name(alloc: Global) -> Result<bool, OutOfMemory> {
    let mut origins = Origins::new(alloc);
    let name = text_of(alloc, 65)?;
    if origins.index_of(&name).is_some() {
        return Ok(false);
    }
    let number = origins.add(name)?;
    Ok(number == 0 && has_one_name(alloc, &origins)?)
}

#[test]
fn names_by_number(rt: HostRuntime) {
    assert!(rt; holds(adds_a_name(rt.alloc())));
}
