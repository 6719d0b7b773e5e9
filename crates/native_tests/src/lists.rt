use crate::objects::holds;
use flow_text::OutOfMemory;
use native_protocol::{Reg, RegList};
use std::alloc::Global;
use std::test::*;

fn lists_one(alloc: Global) -> Result<bool, OutOfMemory> {
    let mut list = RegList::new(alloc);
    list.push(Reg(2))?;
    Ok(list.items() == [Reg(2)].as_slice())
}

#[test]
fn one_register(rt: HostRuntime) {
    let listed = holds(lists_one(rt.alloc()));
    assert!(rt; listed);
}
