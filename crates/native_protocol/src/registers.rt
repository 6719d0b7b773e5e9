//! Registers: 0 is `this`, 1 is what is called, and the arguments stand from 2 on.

ghost use Rattle.std.specs.Prelude.{◌≡◌, [], ◌∷◌, ◌++◌, OnOk, OnErr};

use flow_text::OutOfMemory;
use std::alloc::Global;
use std::marker::Model;

/// A register of a call of a built-in, by its number. One that nothing wrote holds undefined.
#[derive(Clone, Copy, Debug, PartialEq, Eq)]
pub struct Reg(pub u64);

/// Registers in order.
#[derive(Drop)]
pub struct RegList {
    registers: Vec<Reg>,
}

impl Model for RegList {
    ghost use Rattle.std.specs.Prelude.{List};
    ghost use Rattle.native_protocol.specs.declared.registers.Reg.{Reg};

    ghost Value = { List Reg };

    ghost view = { λ l. l.registers.items };
}

impl RegList {
    /// No registers. It takes no memory.
    pub fn new(alloc: Global) -> RegList
        ensures { result ≡ [] }
    {
        RegList {
            registers: Vec::new(alloc),
        }
    }

    /// Appends a register.
    pub fn push(&mut self, register: Reg) -> Result<(), OutOfMemory>
        ensures ok { OnOk result (self.new ≡ self.old ++ register ∷ []) }
        ensures unchanged { OnErr result (self.new ≡ self.old) }
    {
        self.registers.push(register)?;
        Ok(())
    }

    /// The registers.
    pub fn items(&self) -> &[Reg]
        ensures { result.now ≡ self.now }
    {
        &self.registers
    }
}
