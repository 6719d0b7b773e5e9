//! Bytes taken in memory, as tests want them.

ghost use Rattle.std.specs.Prelude.{◌≡◌, ◌≤◌, ◌∷◌, ◌++◌, ◌==◌, [], false, Some, None, ◌⊎◌, take, is_err, MatchOption, OnOk, OnErr, IsNone};
ghost use Rattle.flow_io.specs.Files.{Rose};
ghost use Rattle.flow_io.specs.Sinks.{AppendsFront};
ghost use Rattle.flow_io.specs.Memory.{MemoryBytes, next_keep, keep_at, after_put};

use crate::sink::Sink;
use crate::store::Failed;
use flow_text::OutOfMemory;
use std::alloc::Global;
use std::marker::Model;

/// Bytes taken in memory, by puts that can be made to fail.
#[derive(Drop)]
pub struct MemorySink {
    taken: Vec<u8>,
    failing: Vec<FailingPut>,
    calls: u64,
    faults: u64,
    shut: bool,
}

impl Model for MemorySink {
    ghost use Rattle.flow_io.specs.Memory.{MemoryBytes};

    ghost Value = { MemoryBytes };

    ghost view = { λ s. record { taken = s.taken.items; failing = s.failing.items; calls = s.calls; faults = s.faults; shut = s.shut } };
}

impl MemorySink {
    /// A sink that took nothing. It takes no memory.
    pub fn new(alloc: Global) -> MemorySink
        ensures { result ≡ record { taken = []; failing = []; calls = 0; faults = 0; shut = false } }
    {
        MemorySink {
            taken: Vec::new(alloc),
            failing: Vec::new(alloc),
            calls: 0,
            faults: 0,
            shut: false,
        }
    }

    /// Lets a put fail, by the number of its call, from 1, and keep a front of its piece.
    pub fn fail_at(&mut self, call: u64, keep: usize) -> Result<(), OutOfMemory>
        ensures ok { OnOk result (self.new ≡ record self.old { failing = record { call = call; keep = keep } ∷ self.old.failing }) }
        ensures unchanged { OnErr result (self.new ≡ self.old) }
    {
        self.failing.insert(0, FailingPut { call, keep })?;
        Ok(())
    }

    /// The bytes taken.
    pub fn taken(&self) -> &[u8]
        ensures { result.now ≡ self.now.taken }
    {
        &self.taken
    }
}

impl Sink for MemorySink {
    ghost taken = { λ s. Some s.taken };

    ghost shut = { λ s. s.shut };

    ghost faults = { λ s. s.faults };

    fn put(&mut self, piece: &[u8]) -> Result<(), Failed>
        requires { self.old.shut ≡ false }
        ensures shut { self.new.shut ≡ is_err result }
        ensures ok { OnOk result (self.new.taken ≡ self.old.taken ++ piece.now) }
        ensures err { OnErr result (AppendsFront (Some self.old.taken) (Some self.new.taken) piece.now) }
        ensures faults_stay { self.old.faults ≤ self.new.faults }
        ensures failed { OnErr result (Rose self.old.faults self.new.faults) }
        ensures listed { OnOk result (IsNone (next_keep self.old)) }
        ensures front { OnErr result (MatchOption (next_keep self.old) (self.new.taken ≡ self.old.taken)
            (λ most. (self.new.taken ≡ self.old.taken ++ take most piece.now) ⊎ (self.new.taken ≡ self.old.taken))) }
        ensures after { self.new ≡ after_put self.old self.new.taken result }
    {
        self.calls = self.calls.saturating_add(1);
        let answer = take(&mut self.taken, piece, keep_of(&self.failing, self.calls));
        if answer.is_err() {
            self.faults = self.faults.saturating_add(1);
            self.shut = true;
        }
        answer
    }
}

/// A put that fails, and how many bytes it keeps at most.
#[derive(Clone, Copy)]
struct FailingPut {
    call: u64,
    keep: usize,
}

/// How many bytes a put keeps, if it is to fail.
fn keep_of(failing: &[FailingPut], call: u64) -> Option<usize>
    ensures { result ≡ keep_at failing.now call }
{
    let put = failing.iter().find(|put| put.call == call)?;
    Some(put.keep)
}

/// Takes the piece, or a front of it and fails.
fn take(taken: &mut Vec<u8>, piece: &[u8], keep: Option<usize>) -> Result<(), Failed>
    ensures whole { OnOk result ((keep ≡ None) × (taken.new.items ≡ taken.old.items ++ piece.now)) }
    ensures front { OnErr result (MatchOption keep (taken.new.items ≡ taken.old.items)
        (λ most. (taken.new.items ≡ taken.old.items ++ take most piece.now) ⊎ (taken.new.items ≡ taken.old.items))) }
{
    match keep {
        None => taken.extend_from_slice(piece).map_err(|_| Failed),
        Some(most) => {
            let _ = taken.extend_from_slice(&piece[..most.min(piece.len())]);
            Err(Failed)
        }
    }
}
