//! Where bytes go.

ghost use Rattle.std.specs.Prelude.{◌≡◌, ◌≤◌, ℕ, Bool, false, List, Option, is_err, OnOk, OnErr};
ghost use Rattle.flow_io.specs.Files.{Rose};
ghost use Rattle.flow_io.specs.Sinks.{Appends, AppendsFront};

use crate::store::Failed;

/// A place for bytes, which is shut once a put has failed.
pub trait Sink {
    /// The bytes taken, where the sink tells them. Once untold, they are never told again.
    ghost taken: { Self → Option (List ℕ) };

    /// Whether a put has failed.
    ghost shut: { Self → Bool };

    /// How many faults there were.
    ghost faults: { Self → ℕ };

    /// Takes a piece whole, or fails with a front of it taken.
    fn put(&mut self, piece: &[u8]) -> Result<(), Failed>
        requires { shut self.old ≡ false }
        ensures shut { shut self.new ≡ is_err result }
        ensures ok { OnOk result (Appends (taken self.old) (taken self.new) piece.now) }
        ensures err { OnErr result (AppendsFront (taken self.old) (taken self.new) piece.now) }
        ensures faults_stay { faults self.old ≤ faults self.new }
        ensures failed { OnErr result (Rose (faults self.old) (faults self.new)) };
}
