//! Texts from UTF-8, and back.

ghost use Rattle.std.specs.Prelude.{◌≡◌, ◌++◌, true, Ok, OnOk, OnErr, IfOk, IfErr};
ghost use Rattle.std.specs.Char.Escape.{encode_utf16};
ghost use Rattle.std.specs.Str.{IsUtf8};
ghost use Rattle.flow_text.specs.Memory.{GivesText, IsFaultOf};
ghost use Rattle.flow_text.specs.Utf8.{are_paired, text_of_utf8, units_of, utf8_of};

use crate::memory::OutOfMemory;
use crate::text::{Text, TextFault};
use std::alloc::Global;
use std::str;

impl Text {
    /// The text that the bytes spell.
    #[tactic(auto, unfolding(crate::specs::Utf8::text_of_utf8))]
    pub fn from_utf8(alloc: Global, bytes: &[u8]) -> Result<Text, TextFault>
        ensures reading { GivesText result (text_of_utf8 bytes.now) }
        ensures utf8 { OnOk result (IsUtf8 bytes.now) }
        ensures again { IfOk result (λ t. utf8_of t ≡ bytes.now) }
        ensures fault { IfErr result (IsFaultOf bytes.now) }
    {
        match str::from_utf8(bytes) {
            Ok(spelling) => Ok(Text::spelled(alloc, spelling)?),
            Err(error) => Err(TextFault::BadUtf8 {
                at: error.valid_up_to(),
            }),
        }
    }

    /// The text of these characters.
    #[tactic(auto, unfolding(crate::specs::Utf8::units_of))]
    pub fn spelled(alloc: Global, spelling: &str) -> Result<Text, OutOfMemory>
        ensures { IfOk result (λ t. t ≡ units_of spelling.now) }
    {
        let mut units = Vec::new(alloc);
        for character in spelling.chars() {
            push_character(&mut units, character)?;
        }
        Text::of_units(alloc, units)
    }

    /// Adds the one or two units of a character.
    pub fn push_char(&mut self, character: char) -> Result<(), OutOfMemory>
        ensures ok { OnOk result (self.new ≡ self.old ++ encode_utf16 character) }
        ensures unchanged { OnErr result (self.new ≡ self.old) }
    {
        let mut room = [0; 2];
        self.push_units(character.encode_utf16(&mut room))
    }

    /// The bytes that spell it, with U+FFFD for each surrogate without its partner.
    #[tactic(auto, unfolding(crate::specs::Utf8::utf8_of))]
    pub fn to_utf8(&self, alloc: Global) -> Result<Vec<u8>, OutOfMemory>
        ensures spelling { IfOk result (λ v. v.items ≡ utf8_of self.now) }
        ensures again { are_paired self.now ≡ true → IfOk result (λ v. text_of_utf8 v.items ≡ Ok self.now) }
    {
        let spelling = String::from_utf16_lossy(alloc, self.known_units())?;
        Ok(spelling.into_bytes())
    }
}

// Adds the one or two units of a character.
fn push_character(units: &mut Vec<u16>, character: char) -> Result<(), OutOfMemory>
    ensures { OnOk result (units.new.items ≡ units.old.items ++ encode_utf16 character) }
{
    let mut room = [0; 2];
    units.extend_from_slice(character.encode_utf16(&mut room))?;
    Ok(())
}
