//! Registers that no argument stands in.

ghost use Rattle.std.specs.Prelude.{◌≡◌, IfOk};
ghost use Rattle.primitive_natives.specs.Registers.{scratch};

use flow_text::OutOfMemory;
use native_protocol::Reg;

/// Four registers behind the arguments of a call.
#[derive(Clone, Copy, PartialEq, Eq)]
pub struct Scratch {
    pub first: Reg,
    pub second: Reg,
    pub third: Reg,
    pub fourth: Reg,
}

// So many arguments stand in no memory.
const MANY: u64 = 1 << 62;

impl Scratch {
    /// Those behind so many arguments.
    pub fn behind(argc: u64) -> Result<Scratch, OutOfMemory>
        ensures { IfOk result (λ s. s ≡ scratch argc) }
    {
        if argc >= MANY {
            return Err(OutOfMemory);
        }
        let first = 2 + argc.max(4);
        Ok(Scratch {
            first: Reg(first),
            second: Reg(first + 1),
            third: Reg(first + 2),
            fourth: Reg(first + 3),
        })
    }
}
