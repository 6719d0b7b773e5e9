//! What a call keeps between its requests.

ghost use Rattle.std.specs.Prelude.{◌≡◌, ◌++◌, IfOk};
ghost use Rattle.native_programs.specs.Values.{counter_in, with_counter, text_kept, with_text, cleared, values_begin};

use crate::line::{Counter, TextSlot};
use flow_text::{OutOfMemory, Text};
use js_number::{Num, Primitive};
use native_protocol::{Reg, Seen};
use std::alloc::Global;

/// How it was called, and the numbers and texts that it keeps, with the register of the text that was converted last, the number that
/// was converted last, and what the last look saw.
#[derive(Drop)]
pub struct Values {
    pub argc: u64,
    pub construct: bool,
    pub length: i64,
    pub index: i64,
    pub first: i64,
    pub last: i64,
    pub count: i64,
    pub items: i64,
    pub subject: Text,
    pub sought: Text,
    pub result: Text,
    pub piece: Text,
    pub held: Option<Reg>,
    pub number: Option<Num>,
    pub seen: Seen,
}

impl Values {
    /// Those of a call that begins.
    pub fn begin(alloc: Global, argc: u64, construct: bool) -> Values
        ensures { result ≡ values_begin argc construct }
    {
        Values {
            argc,
            construct,
            length: 0,
            index: 0,
            first: 0,
            last: 0,
            count: 0,
            items: 0,
            subject: Text::new(alloc),
            sought: Text::new(alloc),
            result: Text::new(alloc),
            piece: Text::new(alloc),
            held: None,
            number: None,
            seen: Seen::Prim(Primitive::Undefined),
        }
    }

    /// A number.
    pub fn counter(&self, counter: Counter) -> i64
        ensures { result ≡ counter_in self.now counter }
    {
        match counter {
            Counter::Length => self.length,
            Counter::Index => self.index,
            Counter::First => self.first,
            Counter::Last => self.last,
            Counter::Count => self.count,
            Counter::Items => self.items,
        }
    }

    /// Keeps a number.
    pub fn set_counter(&mut self, counter: Counter, number: i64)
        ensures { self.new ≡ with_counter counter number self.old }
    {
        match counter {
            Counter::Length => self.length = number,
            Counter::Index => self.index = number,
            Counter::First => self.first = number,
            Counter::Last => self.last = number,
            Counter::Count => self.count = number,
            Counter::Items => self.items = number,
        }
    }

    /// A text.
    pub fn text(&self, slot: TextSlot) -> &Text
        ensures { result.now ≡ text_kept self.now slot }
    {
        match slot {
            TextSlot::Subject => &self.subject,
            TextSlot::Sought => &self.sought,
            TextSlot::Result => &self.result,
            TextSlot::Piece => &self.piece,
        }
    }

    /// Keeps a text.
    pub fn set_text(&mut self, slot: TextSlot, text: Text)
        ensures { self.new ≡ with_text slot text self.old }
    {
        match slot {
            TextSlot::Subject => self.subject = text,
            TextSlot::Sought => self.sought = text,
            TextSlot::Result => self.result = text,
            TextSlot::Piece => self.piece = text,
        }
    }

    /// Adds units to a text, in place where nothing else shares it.
    pub fn append(&mut self, slot: TextSlot, units: &[u16]) -> Result<(), OutOfMemory>
        ensures { IfOk result (λ _. self.new ≡ with_text slot (text_kept self.old slot ++ units.now) self.old) }
    {
        match slot {
            TextSlot::Subject => self.subject.push_units(units),
            TextSlot::Sought => self.sought.push_units(units),
            TextSlot::Result => self.result.push_units(units),
            TextSlot::Piece => self.piece.push_units(units),
        }
    }

    /// Forgets what a turn of a loop keeps for itself.
    pub fn clear(&mut self, alloc: Global)
        ensures { self.new ≡ cleared self.old }
    {
        self.piece = Text::new(alloc);
        self.held = None;
        self.number = None;
        self.seen = Seen::Prim(Primitive::Undefined);
    }
}
