//! Where bytes come from.

ghost use Rattle.std.specs.Prelude.{◌≡◌, ◌<◌, ◌≤◌, ℕ, Bool, true, List, Option, length, MatchResult, IfOk, OnOk, OnErr, IfSome, IsSomeAnd};
ghost use Rattle.flow_io.specs.Files.{Files, file_at, Rose, given_after, IsPieceOf, IsStoreKept};

/// The outside failed, and the fault was counted.
#[derive(Clone, Copy, Debug, PartialEq, Eq)]
pub struct Failed;

/// Files by their paths. Counts are at most 2^64 - 1, and stay there.
pub trait Store {
    /// Whether a path may be asked.
    ghost may_ask: { Self → List ℕ → Bool };

    /// The files, where the store tells them.
    ghost contents: { Self → Option Files };

    /// How many faults there were.
    ghost faults: { Self → ℕ };

    /// How many bytes were given.
    ghost given: { Self → ℕ };

    /// Reads bytes of a file from a place on into the front of a piece, and answers how many.
    fn read(&mut self, path: &str, at: usize, piece: &mut [u8]) -> Result<usize, Failed>
        requires piece { 0 < length piece.old }
        requires path { may_ask self.old path.now ≡ true }
        ensures kept { IsStoreKept contents may_ask faults self.old self.new }
        ensures within { IfOk result (λ n. n ≤ length piece.old) }
        ensures told { IfOk result (λ n. IfSome (contents self.old) (λ files. IsSomeAnd (file_at files path.now) (λ bytes. IsPieceOf bytes at n piece.new))) }
        ensures given { MatchResult result (λ n. given self.new ≡ given_after (given self.old) n) (λ _. given self.new ≡ given self.old) }
        ensures failed { OnErr result (Rose (faults self.old) (faults self.new)) }
        ensures no_fault { OnOk result (faults self.new ≡ faults self.old) };
}
