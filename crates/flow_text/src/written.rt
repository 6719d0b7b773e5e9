//! Texts that are written: with no line end, and with numbers.

ghost use Rattle.std.specs.Prelude.{◌≡◌, ◌≤◌, ◌++◌, take, length, OnOk, OnErr, IfOk};
ghost use Rattle.std.specs.Fmt.{signed_decimal};
ghost use Rattle.flow_text.specs.Written.{escaped, escaped_unit};

use crate::memory::OutOfMemory;
use crate::text::Text;
use itoa::Buffer;
use std::alloc::Global;

const BACKSLASH: u16 = b'\\' as u16;

impl Text {
    /// The text as one line.
    #[tactic(auto, unfolding(crate::specs::Written::escaped))]
    pub fn escaped(&self, alloc: Global) -> Result<Text, OutOfMemory>
        ensures { IfOk result (λ t. t ≡ escaped self.now) }
    {
        let mut written = Vec::new(alloc);
        for unit in self.units() {
            push_escaped(&mut written, *unit)?;
        }
        Text::of_units(alloc, written)
    }

    /// Adds a number's decimal digits, behind a minus where it is below zero.
    pub fn push_decimal(&mut self, n: i64) -> Result<(), OutOfMemory>
        ensures ok { OnOk result (self.new ≡ self.old ++ signed_decimal n) }
        ensures unchanged { OnErr result (self.new ≡ self.old) }
    {
        let mut buffer = Buffer::new();
        let digits = buffer.format(n).as_bytes();
        self.push_units(&widened(digits)[..digits.len()])
    }
}

// Adds what stands for a unit in one line.
#[tactic(auto, unfolding(crate::specs::Written::escaped_unit))]
fn push_escaped(written: &mut Vec<u16>, unit: u16) -> Result<(), OutOfMemory>
    ensures { OnOk result (written.new.items ≡ written.old.items ++ escaped_unit unit) }
{
    match unit {
        0x5C => written.extend_from_slice(&[BACKSLASH, BACKSLASH])?,
        0x0A => written.extend_from_slice(&[BACKSLASH, b'n' as u16])?,
        0x0D => written.extend_from_slice(&[BACKSLASH, b'r' as u16])?,
        _ => written.push(unit)?,
    }
    Ok(())
}

// The bytes as units, at the front.
fn widened(bytes: &[u8]) -> [u16; 40]
    requires { length bytes.now ≤ 40 }
    ensures { take (length bytes.now) result ≡ bytes.now }
{
    let mut units = [0; 40];
    for (i, byte) in bytes.iter().enumerate() {
        units[i] = u16::from(*byte);
    }
    units
}
