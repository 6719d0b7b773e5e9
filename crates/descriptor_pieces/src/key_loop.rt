//! A loop over the keys of an object.

ghost use Rattle.std.specs.Prelude.{◌≡◌, IfOk};
ghost use Rattle.descriptor_pieces.specs.LoopPieces.{keys_begin, keys_asks, keys_after, last_begin, last_turn, behind_key};
ghost use Rattle.descriptor_pieces.specs.declared.key_loop.KeyLoop.TheVariants as loops;
ghost use Rattle.std.specs.Fmt.{decimal};

use crate::seen::{count, key};
use flow_text::{OutOfMemory, Text};
use js_values::Key;
use native_protocol::{Answer, Reg, Request};
use std::alloc::Global;

/// The last keys in a list, those that are still left of so many.
#[derive(Clone, Copy)]
pub struct LastKeys {
    list: Reg,
    item: Reg,
    count: u64,
    left: u64,
}

/// What it asks for: the list of keys, its length, a look at that, and then each key and a look at it.
#[derive(Clone, Copy)]
pub enum KeyLoop {
    Keys {
        object: Reg,
        all: bool,
        list: Reg,
        item: Reg,
    },
    Length {
        list: Reg,
        item: Reg,
    },
    LookLength {
        list: Reg,
        item: Reg,
    },
    Item(LastKeys),
    LookItem(LastKeys),
}

/// Where an answer leads: the loop asks again, or has a key, behind which there are the last ones, or is over.
#[derive(Drop)]
pub enum KeyTurn {
    Asks(KeyLoop),
    Has { key: Key, last: LastKeys },
    Over,
}

impl LastKeys {
    /// The loop goes on with them.
    pub fn turn(self) -> KeyTurn
        ensures { result ≡ last_turn self }
    {
        if self.left == 0 {
            KeyTurn::Over
        } else {
            KeyTurn::Asks(KeyLoop::Item(self))
        }
    }

    // Where a list of keys has this length.
    fn all(list: Reg, item: Reg, count: u64) -> LastKeys
        ensures { result ≡ last_begin list item count }
    {
        LastKeys {
            list,
            item,
            count,
            left: count,
        }
    }

    // Without the first of them.
    fn behind_first(self) -> LastKeys
        ensures { result ≡ behind_key self }
    {
        LastKeys {
            left: self.left.saturating_sub(1),
            ..self
        }
    }

    // The first of them is got from the list.
    fn get_first(&self, alloc: Global) -> Result<Request, OutOfMemory>
        ensures { IfOk result (λ request. request ≡ keys_asks (loops.Item self.now)) }
    {
        Ok(Request::Get {
            base: self.list,
            key: Key::new(index_text(alloc, self.count.saturating_sub(self.left))?),
            to: self.item,
        })
    }
}

impl KeyLoop {
    /// The loop over the own keys of the object in a register: all, or the enumerable ones. The list of them and each key are put into two more.
    pub fn over(object: Reg, all: bool, list: Reg, item: Reg) -> KeyLoop
        ensures { result ≡ keys_begin object all list item }
    {
        KeyLoop::Keys {
            object,
            all,
            list,
            item,
        }
    }

    /// What it asks for.
    #[tactic(auto, using(crate::proofs::Words::words))]
    pub fn request(&self, alloc: Global) -> Result<Request, OutOfMemory>
        ensures { IfOk result (λ request. request ≡ keys_asks self.now) }
    {
        match self {
            KeyLoop::Keys {
                object,
                all,
                list,
                ..
            } => Ok(Request::Keys {
                base: *object,
                all: *all,
                to: *list,
            }),
            KeyLoop::Length { list, item } => Ok(Request::Get {
                base: *list,
                key: Key::new(Text::spelled(alloc, "length")?),
                to: *item,
            }),
            KeyLoop::LookLength { item, .. } => Ok(Request::Look { reg: *item }),
            KeyLoop::Item(last) => last.get_first(alloc),
            KeyLoop::LookItem(last) => Ok(Request::Look { reg: last.item }),
        }
    }

    /// Where an answer leads.
    pub fn after(self, alloc: Global, answer: Answer) -> KeyTurn
        ensures { result ≡ keys_after self answer }
    {
        match self {
            KeyLoop::Keys { list, item, .. } => KeyTurn::Asks(KeyLoop::Length { list, item }),
            KeyLoop::Length { list, item } => KeyTurn::Asks(KeyLoop::LookLength { list, item }),
            KeyLoop::LookLength { list, item } => {
                LastKeys::all(list, item, count(&answer.seen())).turn()
            }
            KeyLoop::Item(last) => KeyTurn::Asks(KeyLoop::LookItem(last)),
            KeyLoop::LookItem(last) => KeyTurn::Has {
                key: key(alloc, answer.seen()),
                last: last.behind_first(),
            },
        }
    }
}

// The key of an element. No list in memory has one that is past the numbers of a text.
fn index_text(alloc: Global, index: u64) -> Result<Text, OutOfMemory>
    ensures { IfOk result (λ text. text ≡ decimal index) }
{
    let Ok(number) = i64::try_from(index) else {
        return Err(OutOfMemory);
    };
    let mut text = Text::new(alloc);
    text.push_decimal(number)?;
    Ok(text)
}
