//! Registers that no argument stands in.

ghost use Rattle.std.specs.Prelude.{◌≡◌, IfOk};
ghost use Rattle.object_functions.specs.Registers.{registers};

use descriptor_pieces::PropertyRegisters;
use flow_text::OutOfMemory;
use native_protocol::Reg;

/// The registers behind the arguments of a call: four for a property, four more, and the number of the first one behind all of these.
#[derive(Clone, Copy)]
pub struct Registers {
    pub own: PropertyRegisters,
    pub first: Reg,
    pub second: Reg,
    pub third: Reg,
    pub fourth: Reg,
    pub free: u64,
}

// So many arguments stand in no memory.
const MANY: u64 = 1 << 62;

impl Registers {
    /// Those behind so many arguments.
    pub fn behind(argc: u64) -> Result<Registers, OutOfMemory>
        ensures { IfOk result (λ r. r ≡ registers argc) }
    {
        if argc >= MANY {
            return Err(OutOfMemory);
        }
        let first = 2 + argc.max(4);
        Ok(Registers {
            own: PropertyRegisters::from(first)?,
            first: Reg(first + 4),
            second: Reg(first + 5),
            third: Reg(first + 6),
            fourth: Reg(first + 7),
            free: first + 8,
        })
    }
}
