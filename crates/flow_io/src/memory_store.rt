//! Files in memory, as tests want them.

ghost use Rattle.std.specs.Prelude.{◌≡◌, ◌≤◌, ◌<◌, ◌∷◌, [], true, Some, None, length, drop, is_none, is_err, MatchOption, MatchResult, IfOk, OnOk, OnErr, IfSome, IsSomeAnd};
ghost use Rattle.flow_io.specs.Files.{file_at, Rose, given_after, IsPieceOf, IsStoreKept};
ghost use Rattle.flow_io.specs.Memory.{MemoryFiles, read_fails, read_length, after_read};

use crate::memory_file::{MemoryFile, bytes_of, copy_piece};
use crate::store::{Failed, Store};
use flow_text::OutOfMemory;
use std::alloc::Global;
use std::marker::Model;

/// Files in memory, whose reads can be made short, and made to fail.
#[derive(Drop)]
pub struct MemoryStore {
    alloc: Global,
    files: Vec<MemoryFile>,
    most: Option<usize>,
    failing: Vec<u64>,
    calls: u64,
    faults: u64,
    given: u64,
}

impl Model for MemoryStore {
    ghost use Rattle.std.specs.Prelude.{◌≤◌, IfSome};
    ghost use Rattle.flow_io.specs.Memory.{MemoryFiles};

    ghost Value = { MemoryFiles };

    ghost view = { λ s. record { files = s.files.items; most = s.most; failing = s.failing.items; calls = s.calls; faults = s.faults; given = s.given } };

    ghost invariant = { λ s. IfSome s.most (λ most. 1 ≤ most) };
}

impl MemoryStore {
    /// A store with no files. It takes no memory.
    pub fn new(alloc: Global) -> MemoryStore
        ensures { result ≡ record { files = []; most = None; failing = []; calls = 0; faults = 0; given = 0 } }
    {
        MemoryStore {
            alloc,
            files: Vec::new(alloc),
            most: None,
            failing: Vec::new(alloc),
            calls: 0,
            faults: 0,
            given: 0,
        }
    }

    /// Sets the bytes of a path.
    pub fn add(&mut self, path: &str, bytes: Vec<u8>) -> Result<(), OutOfMemory>
        ensures ok { OnOk result (self.new ≡ record self.old { files = record { path = path.now; bytes = bytes.items } ∷ self.old.files }) }
        ensures unchanged { OnErr result (self.new ≡ self.old) }
    {
        let path = String::from_str(self.alloc, path)?;
        self.files.insert(0, MemoryFile { path, bytes })?;
        Ok(())
    }

    /// Limits each later read.
    pub fn short(&mut self, most: usize)
        requires { 1 ≤ most }
        ensures { self.new ≡ record self.old { most = Some most } }
    {
        self.most = Some(most);
    }

    /// Lets a read fail, by the number of its call, from 1.
    pub fn fail_at(&mut self, call: u64) -> Result<(), OutOfMemory>
        ensures ok { OnOk result (self.new ≡ record self.old { failing = call ∷ self.old.failing }) }
        ensures unchanged { OnErr result (self.new ≡ self.old) }
    {
        self.failing.insert(0, call)?;
        Ok(())
    }

    /// Copies a piece of a file, unless this read is to fail.
    fn copied(&self, path: &str, at: usize, piece: &mut [u8]) -> Option<usize>
        requires { 0 < length piece.old }
        ensures none { is_none result ≡ read_fails self.now path.now }
        ensures piece { IfSome result (λ n. IsSomeAnd (file_at self.now.files path.now) (λ bytes.
            (n ≡ read_length self.now.most (length piece.old) at bytes) × IsPieceOf bytes at n piece.new)) }
        ensures rest { MatchOption result (piece.new ≡ piece.old) (λ n. drop n piece.new ≡ drop n piece.old) }
    {
        if self.failing.contains(&self.calls.saturating_add(1)) {
            return None;
        }
        let bytes = bytes_of(&self.files, path)?;
        let most = self.most.unwrap_or(piece.len());
        Some(copy_piece(bytes, at, most, piece))
    }
}

impl Store for MemoryStore {
    ghost may_ask = { λ _ _. true };

    ghost contents = { λ s. Some s.files };

    ghost faults = { λ s. s.faults };

    ghost given = { λ s. s.given };

    fn read(&mut self, path: &str, at: usize, piece: &mut [u8]) -> Result<usize, Failed>
        requires { 0 < length piece.old }
        ensures kept { IsStoreKept (λ s. Some s.files) (λ _ _. true) (λ s. s.faults) self.old self.new }
        ensures within { IfOk result (λ n. n ≤ length piece.old) }
        ensures told { IfOk result (λ n. IsSomeAnd (file_at self.old.files path.now) (λ bytes. IsPieceOf bytes at n piece.new)) }
        ensures given { MatchResult result (λ n. self.new.given ≡ given_after self.old.given n) (λ _. self.new.given ≡ self.old.given) }
        ensures failed { OnErr result (Rose self.old.faults self.new.faults) }
        ensures no_fault { OnOk result (self.new.faults ≡ self.old.faults) }
        ensures fails { is_err result ≡ read_fails self.old path.now }
        ensures count { IfOk result (λ n. IsSomeAnd (file_at self.old.files path.now) (λ bytes. n ≡ read_length self.old.most (length piece.old) at bytes)) }
        ensures rest { MatchResult result (λ n. drop n piece.new ≡ drop n piece.old) (λ _. piece.new ≡ piece.old) }
        ensures after { self.new ≡ after_read self.old result }
    {
        let copied = self.copied(path, at, piece);
        self.calls = self.calls.saturating_add(1);
        match copied {
            Some(n) => {
                self.given = self.given.saturating_add(n as u64);
                Ok(n)
            }
            None => {
                self.faults = self.faults.saturating_add(1);
                Err(Failed)
            }
        }
    }
}
