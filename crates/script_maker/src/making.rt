//! The script of a number.

ghost use Rattle.std.specs.Prelude.{◌≡◌, ◌≤◌, ◌<◌, ◌++◌, length, IfOk, OnOk, IsAscii};
ghost use Rattle.script_maker.specs.Made.{call_line, made};

use flow_text::OutOfMemory;
use itoa::Buffer;
use std::alloc::Global;

/// The script that the generator makes of a number, in bytes.
pub fn make(alloc: Global, number: u32) -> Result<Vec<u8>, OutOfMemory>
    requires some { 1 ≤ number }
    requires most { number ≤ 10000 }
    ensures bytes { IfOk result (λ bytes. bytes.items ≡ made number) }
    ensures short { IfOk result (λ bytes. length bytes.items < 1048576) }
    ensures ascii { IfOk result (λ bytes. IsAscii bytes.items) }
{
    let mut bytes = Vec::from_slice(alloc, b"var t = 0, s = read(\"pin\");\n")?;
    for k in 1..number + 1 {
        push_call(&mut bytes, k)?;
    }
    bytes.extend_from_slice(b"print(\"pub\", t);\nprint(\"all\", s);\n")?;
    Ok(bytes)
}

/// Adds the line of one call.
fn push_call(bytes: &mut Vec<u8>, k: u32) -> Result<(), OutOfMemory>
    ensures { OnOk result (bytes.new.items ≡ bytes.old.items ++ call_line k) }
{
    let mut buffer = Buffer::new();
    bytes.extend_from_slice(b"(function (o) { o.n = o.n + ")?;
    bytes.extend_from_slice(buffer.format(k).as_bytes())?;
    bytes.extend_from_slice(b"; t = t + o.n; })({ n: t % 10 });\n")?;
    Ok(())
}
