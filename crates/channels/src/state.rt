//! What a call of one of the five is at.

ghost use Rattle.std.specs.Prelude.{◌≡◌, ◌<◌, ◌^◌};
ghost use Rattle.channels.specs.Entries.{built_in_at};
ghost use Rattle.channels.specs.Machine.{registers_of, second_text};

use flow_text::Text;
use native_protocol::{Reg, TextOf};
use origin_labels::OriginList;

/// One of the five.
#[derive(Clone, Copy, Debug, PartialEq, Eq)]
pub enum BuiltIn {
    Read,
    Print,
    Lbl,
    Upgs,
    Upge,
}

/// The registers behind the arguments: two for what is made on the way, and one that nothing writes. `end` is the number of the register behind the
/// arguments that were given.
#[derive(Clone, Copy)]
pub struct Registers {
    pub method: Reg,
    pub value: Reg,
    pub unset: Reg,
    pub end: u64,
}

/// What origins join.
#[derive(Drop)]
pub enum Joining {
    Label,
    Structure,
    Existence { key: Text },
}

/// What is left by name where it isn't known.
#[derive(Clone, Copy, Debug, PartialEq, Eq)]
pub enum Unknown {
    Channel,
    Origin,
}

/// What a call is at: each state asks for one request.
#[derive(Drop)]
pub enum ChannelState {
    Begun(BuiltIn, Registers),
    ReadName(Registers),
    ReadLine(Registers),
    PrintName(Registers),
    PrintText(TextOf, Registers),
    PrintLine(Reg, Registers),
    StructureObject(Registers),
    ExistenceObject(Registers),
    ExistenceKey(TextOf, Registers),
    /// The origins so far, and the register that is looked at for the next.
    Origin {
        at: u64,
        origins: OriginList,
        joining: Joining,
        registers: Registers,
    },
    Join {
        origins: OriginList,
        joining: Joining,
        registers: Registers,
    },
    Return(Reg),
    Throw,
    Leave(Unknown),
}

/// The first argument.
pub(crate) const FIRST: Reg = Reg(2);

/// The second argument.
pub(crate) const SECOND: Reg = Reg(3);

// More arguments than there is memory for.
pub(crate) const MANY: u64 = 1 << 62;

// Registers of so many arguments stay free of what is made on the way, also where they weren't given.
const LEAST: u64 = 4;

impl BuiltIn {
    /// The one of a number.
    pub(crate) fn at(which: u32) -> BuiltIn
        ensures { result ≡ built_in_at which }
    {
        match which {
            0 => BuiltIn::Read,
            1 => BuiltIn::Print,
            2 => BuiltIn::Lbl,
            3 => BuiltIn::Upgs,
            _ => BuiltIn::Upge,
        }
    }
}

impl Registers {
    /// Those of a call with so many arguments.
    pub(crate) fn of(argc: u64) -> Registers
        requires { argc < 2 ^ 62 }
        ensures { result ≡ registers_of argc }
    {
        let free = 2 + argc.max(LEAST);
        Registers {
            method: Reg(free),
            value: Reg(free + 1),
            unset: Reg(free + 2),
            end: argc + 2,
        }
    }

    /// The second argument on its way to a text.
    pub(crate) fn second_text(self) -> TextOf
        ensures { result ≡ second_text self }
    {
        TextOf::register(SECOND, self.method, self.value)
    }
}
