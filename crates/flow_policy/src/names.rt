//! Texts of words.

ghost use Rattle.std.specs.Prelude.{◌≡◌, IfOk};

use flow_text::{OutOfMemory, Text};
use std::alloc::Global;

/// The text with a unit for each byte.
pub(crate) fn text_of(alloc: Global, bytes: &[u8]) -> Result<Text, OutOfMemory>
    ensures { IfOk result (λ t. t ≡ bytes.now) }
{
    let mut text = Text::new(alloc);
    for byte in bytes {
        text.push(u16::from(*byte))?;
    }
    Ok(text)
}
