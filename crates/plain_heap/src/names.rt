//! Names as keys.

ghost use Rattle.std.specs.Prelude.{◌≡◌, IfOk};

use flow_text::{OutOfMemory, Text};
use js_values::Key;
use std::alloc::Global;

/// The text with a unit for each byte of a name.
pub fn text_of(alloc: Global, name: &str) -> Result<Text, OutOfMemory>
    ensures { IfOk result (λ text. text ≡ name.now) }
{
    let mut text = Text::new(alloc);
    for byte in name.as_bytes() {
        text.push(u16::from(*byte))?;
    }
    Ok(text)
}

/// The key with a unit for each byte of a name.
pub fn key_of(alloc: Global, name: &str) -> Result<Key, OutOfMemory>
    ensures { IfOk result (λ key. key ≡ name.now) }
{
    Ok(Key::new(text_of(alloc, name)?))
}
