ghost use Rattle.std.specs.Prelude.{◌≤◌};

use crate::told::holds;
use flow_text::OutOfMemory;
use script_maker::make;
use std::alloc::Global;
use std::test::*;

const SCRIPT_OF_TWO: &[u8] =
    b"var t = 0, s = read(\"pin\");\n(function (o) { o.n = o.n + 1; t = t + o.n; })({ n: t % 10 });\n(function (o) { o.n = o.n + 2; t = t + o.n; })({ n: t % 10 });\nprint(\"pub\", t);\nprint(\"all\", s);\n";

fn has_length(alloc: Global, number: u32, wanted: usize) -> Result<bool, OutOfMemory>
    requires some { 1 ≤ number }
    requires most { number ≤ 10000 }
{
    let script = make(alloc, number)?;
    Ok(script.len() == wanted)
}

fn makes_two(alloc: Global) -> Result<bool, OutOfMemory> {
    let script = make(alloc, 2)?;
    Ok(script.as_slice() == SCRIPT_OF_TWO)
}

#[test]
fn makes_scripts(rt: HostRuntime) {
    assert!(rt; holds(makes_two(rt.alloc())));
    assert!(rt; holds(has_length(rt.alloc(), 1, 125)));
    assert!(rt; holds(has_length(rt.alloc(), 3, 251)));
    assert!(rt; holds(has_length(rt.alloc(), 10_000, 658_956)));
}
