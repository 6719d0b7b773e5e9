//! Files in memory that are always read.

ghost use Rattle.std.specs.Prelude.{◌≡◌, ◌≤◌, ◌<◌, ◌∷◌, [], true, ℕ, List, Some, None, length, drop, MatchResult, IfOk, IsOk, OnOk, OnErr, IsSomeAnd};
ghost use Rattle.flow_io.specs.Files.{file_at, Rose, given_after, IsPieceOf, IsStoreKept};
ghost use Rattle.flow_io.specs.Memory.{read_length};
ghost use Rattle.flow_io.specs.Firm.{no_faults, has_file, after_firm_read};

use crate::memory_file::{MemoryFile, bytes_of, copy_piece};
use crate::store::{Failed, Store};
use flow_text::OutOfMemory;
use std::alloc::Global;
use std::marker::Model;

/// Files in memory, of which only the paths that were added may be asked. No read fails.
#[derive(Drop)]
pub struct FirmStore {
    alloc: Global,
    files: Vec<MemoryFile>,
    most: Option<usize>,
    given: u64,
}

impl Model for FirmStore {
    ghost use Rattle.std.specs.Prelude.{◌≤◌, IfSome};
    ghost use Rattle.flow_io.specs.Firm.{FirmFiles};

    ghost Value = { FirmFiles };

    ghost view = { λ s. record { files = s.files.items; most = s.most; given = s.given } };

    ghost invariant = { λ s. IfSome s.most (λ most. 1 ≤ most) };
}

impl FirmStore {
    /// A store with no files. It takes no memory.
    pub fn new(alloc: Global) -> FirmStore
        ensures { result ≡ record { files = []; most = None; given = 0 } }
    {
        FirmStore {
            alloc,
            files: Vec::new(alloc),
            most: None,
            given: 0,
        }
    }

    /// Sets the bytes of a path, which may be asked from then on.
    #[tactic(auto, using(crate::proofs::Named::stays_added))]
    pub fn add(&mut self, path: &str, bytes: Vec<u8>) -> Result<(), OutOfMemory>
        ensures ok { OnOk result (self.new ≡ record self.old { files = record { path = path.now; bytes = bytes.items } ∷ self.old.files }) }
        ensures present { OnOk result (has_file self.new path.now ≡ true) }
        ensures others { OnOk result ((other : List ℕ) → has_file self.old other ≡ true → has_file self.new other ≡ true) }
        ensures unchanged { OnErr result (self.new ≡ self.old) }
    {
        let path = String::from_str(self.alloc, path)?;
        self.files.insert(0, MemoryFile { path, bytes })?;
        Ok(())
    }

    /// Limits each later read.
    pub fn short(&mut self, most: usize)
        requires { 1 ≤ most }
        ensures limit { self.new ≡ record self.old { most = Some most } }
        ensures paths { (path : List ℕ) → has_file self.new path ≡ has_file self.old path }
    {
        self.most = Some(most);
    }

    /// Copies a piece of a file.
    fn copied(&self, path: &str, at: usize, piece: &mut [u8]) -> usize
        requires piece { 0 < length piece.old }
        requires path { has_file self.now path.now ≡ true }
        ensures piece { IsSomeAnd (file_at self.now.files path.now) (λ bytes.
            (result ≡ read_length self.now.most (length piece.old) at bytes) × IsPieceOf bytes at result piece.new) }
        ensures rest { drop result piece.new ≡ drop result piece.old }
    {
        match bytes_of(&self.files, path) {
            Some(bytes) => copy_piece(bytes, at, self.most.unwrap_or(piece.len()), piece),
            // a path that may be asked has a file
            None => unreachable!(),
        }
    }
}

impl Store for FirmStore {
    ghost may_ask = { λ s path. has_file s path };

    ghost contents = { λ s. Some s.files };

    ghost faults = { λ s. no_faults s };

    ghost given = { λ s. s.given };

    fn read(&mut self, path: &str, at: usize, piece: &mut [u8]) -> Result<usize, Failed>
        requires piece { 0 < length piece.old }
        requires path { has_file self.old path.now ≡ true }
        ensures kept { IsStoreKept (λ s. Some s.files) (λ s path. has_file s path) (λ s. no_faults s) self.old self.new }
        ensures within { IfOk result (λ n. n ≤ length piece.old) }
        ensures told { IfOk result (λ n. IsSomeAnd (file_at self.old.files path.now) (λ bytes. IsPieceOf bytes at n piece.new)) }
        ensures given { MatchResult result (λ n. self.new.given ≡ given_after self.old.given n) (λ _. self.new.given ≡ self.old.given) }
        ensures failed { OnErr result (Rose (no_faults self.old) (no_faults self.new)) }
        ensures no_fault { OnOk result (no_faults self.new ≡ no_faults self.old) }
        ensures answers { IsOk result }
        ensures count { IfOk result (λ n. IsSomeAnd (file_at self.old.files path.now) (λ bytes. n ≡ read_length self.old.most (length piece.old) at bytes)) }
        ensures rest { IfOk result (λ n. drop n piece.new ≡ drop n piece.old) }
        ensures after { IfOk result (λ n. self.new ≡ after_firm_read self.old n) }
    {
        let n = self.copied(path, at, piece);
        self.given = self.given.saturating_add(n as u64);
        Ok(n)
    }
}
