ghost use Rattle.std.specs.Prelude.{◌<◌, IfOk};
ghost use Rattle.std.specs.List.{All};

use crate::told::holds;
use flow_text::OutOfMemory;
use interned_labels::Interned;
use origin_labels::{Labels, OriginList, join_all};
use std::alloc::Global;
use std::test::*;

fn unions(alloc: Global) -> Result<bool, OutOfMemory> {
    let mut labels = Interned::new(alloc, 8);
    let zero = labels.single(0)?;
    let five = labels.single(5)?;
    let both = labels.join(five, zero)?;
    Ok(
        labels.origins(labels.bottom()).is_empty()
            && labels.origins(zero) == [0].as_slice()
            && labels.origins(five) == [5].as_slice()
            && labels.origins(both) == [0, 5].as_slice()
            && labels.room() == 8,
    )
}

fn equal_sets(alloc: Global) -> Result<bool, OutOfMemory> {
    let mut labels = Interned::new(alloc, 8);
    let zero = labels.single(0)?;
    let five = labels.single(5)?;
    let one_way = labels.join(five, zero)?;
    let other_way = labels.join(zero, five)?;
    let again = labels.join(five, zero)?;
    let equal = one_way == other_way && again == one_way && labels.single(0)? == zero;
    Ok(equal && zero != five && labels.len() == 4)
}

fn inclusions(alloc: Global) -> Result<bool, OutOfMemory> {
    let mut labels = Interned::new(alloc, 8);
    let zero = labels.single(0)?;
    let five = labels.single(5)?;
    let both = labels.join(five, zero)?;
    let within = labels.within(five, both)
        && labels.within(labels.bottom(), zero)
        && labels.within(both, both);
    let apart = !labels.within(both, five) && !labels.within(zero, five);
    Ok(within && apart && labels.has(both, 5) && !labels.has(both, 1))
}

// The origins below 1,000.
fn thousand(alloc: Global) -> Result<OriginList, OutOfMemory>
    ensures { IfOk result (All (λ origin. origin < 1000)) }
{
    let mut list = OriginList::new(alloc);
    for origin in 0..1000 {
        list.push(origin)?;
    }
    Ok(list)
}

fn joins_a_thousand(alloc: Global) -> Result<bool, OutOfMemory> {
    let list = thousand(alloc)?;
    let mut labels = Interned::new(alloc, 1000);
    let all = join_all(&mut labels, &list)?;
    Ok(labels.origins(all) == list.items())
}

#[test]
fn interned_sets(rt: HostRuntime) {
    assert!(rt; holds(unions(rt.alloc())));
    assert!(rt; holds(equal_sets(rt.alloc())));
    assert!(rt; holds(inclusions(rt.alloc())));
    assert!(rt; holds(joins_a_thousand(rt.alloc())));
}
