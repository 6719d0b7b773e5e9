//! What a call keeps, in a box, so that it is handed on in one word.

ghost use Rattle.std.specs.Prelude.{◌≡◌, ◌++◌, ◌+ℤ◌, IfOk};
ghost use Rattle.native_programs.specs.Choosing.{bumped};
ghost use Rattle.native_programs.specs.Values.{counter_in, with_counter, text_kept, with_text, with_held, with_number, with_seen, cleared, values_begin};

use crate::amounts::plus;
use crate::line::{Count, Counter, TextSlot};
use crate::values::Values;
use flow_text::{OutOfMemory, Text};
use js_number::Num;
use native_protocol::{Reg, Seen};
use std::alloc::Global;
use std::marker::Model;

/// What a call keeps.
#[derive(Drop)]
pub struct Kept {
    values: Box<Values>,
}

impl Model for Kept {
    ghost use Rattle.native_programs.specs.declared.values.Values.{Values};

    ghost Value = { Values };

    ghost view = { λ k. k.values.value };
}

impl Kept {
    /// What a call keeps that begins.
    pub(crate) fn begin(alloc: Global, argc: u64, construct: bool) -> Result<Kept, OutOfMemory>
        ensures { IfOk result (λ kept. kept ≡ values_begin argc construct) }
    {
        Ok(Kept {
            values: Box::new(alloc, Values::begin(alloc, argc, construct))?,
        })
    }

    /// All of it.
    pub(crate) fn values(&self) -> &Values
        ensures { result.now ≡ self.now }
    {
        &self.values
    }

    /// Keeps a number.
    pub(crate) fn set_counter(&mut self, counter: Counter, number: i64)
        ensures { self.new ≡ with_counter counter number self.old }
    {
        self.values.set_counter(counter, number);
    }

    /// Keeps a text.
    pub(crate) fn set_text(&mut self, slot: TextSlot, text: Text)
        ensures { self.new ≡ with_text slot text self.old }
    {
        self.values.set_text(slot, text);
    }

    /// Adds units to a text.
    pub(crate) fn append(&mut self, slot: TextSlot, units: &[u16]) -> Result<(), OutOfMemory>
        ensures { IfOk result (λ _. self.new ≡ with_text slot (text_kept self.old slot ++ units.now) self.old) }
    {
        self.values.append(slot, units)
    }

    /// Keeps the register of a text that was converted.
    pub(crate) fn set_held(&mut self, at: Reg)
        ensures { self.new ≡ with_held at self.old }
    {
        self.values.held = Some(at);
    }

    /// Keeps a number that was converted.
    pub(crate) fn set_number(&mut self, number: Num)
        ensures { self.new ≡ with_number number self.old }
    {
        self.values.number = Some(number);
    }

    /// Keeps what a look saw.
    pub(crate) fn set_seen(&mut self, seen: Seen)
        ensures { self.new ≡ with_seen seen self.old }
    {
        self.values.seen = seen;
    }

    /// Forgets what a turn of a loop keeps for itself.
    pub(crate) fn clear(&mut self, alloc: Global)
        ensures { self.new ≡ cleared self.old }
    {
        self.values.clear(alloc);
    }

    /// A loop's counter goes on, and the next turn begins.
    pub(crate) fn bump(&mut self, alloc: Global, count: Count) -> Result<(), OutOfMemory>
        ensures { IfOk result (λ _. self.new ≡ bumped count self.old) }
    {
        match count {
            Count::Up(index, _) => self.go_on(alloc, index, 1),
            Count::Down(index, _) => self.go_on(alloc, index, -1),
            Count::Endless => {
                self.clear(alloc);
                Ok(())
            }
        }
    }

    fn go_on(&mut self, alloc: Global, index: Counter, by: i64) -> Result<(), OutOfMemory>
        ensures { IfOk result (λ _. self.new ≡ with_counter index (counter_in self.old index +ℤ by) (cleared self.old)) }
    {
        let next = plus(self.values.counter(index), by)?;
        self.clear(alloc);
        self.set_counter(index, next);
        Ok(())
    }
}
