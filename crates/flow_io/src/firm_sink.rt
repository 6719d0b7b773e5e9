//! Bytes taken in memory that was reserved before.

ghost use Rattle.std.specs.Prelude.{◌≡◌, [], true, false, is_err, IfOk, OnOk, OnErr};
ghost use Rattle.flow_io.specs.Files.{Rose};
ghost use Rattle.flow_io.specs.Sinks.{Appends, AppendsFront};
ghost use Rattle.flow_io.specs.Firm.{no_faults, taken_whole, fits, after_firm_put};

use crate::sink::Sink;
use crate::store::Failed;
use flow_text::OutOfMemory;
use std::alloc::Global;
use std::marker::Model;

/// Bytes taken in memory that was reserved before, so no put fails. A piece without room is dropped, and so is each later one.
#[derive(Drop)]
pub struct FirmSink {
    taken: Vec<u8>,
    room: usize,
    whole: bool,
}

impl Model for FirmSink {
    ghost use Rattle.std.specs.Prelude.{◌≤◌, vec_len, vec_capacity};
    ghost use Rattle.flow_io.specs.Firm.{FirmBytes};

    ghost Value = { FirmBytes };

    ghost view = { λ s. record { taken = s.taken.items; room = s.room; whole = s.whole } };

    ghost invariant = { λ s. (vec_len s.taken ≤ s.room) × (s.room ≤ vec_capacity s.taken) };
}

impl FirmSink {
    /// A sink that took nothing, with memory for so many bytes.
    pub fn with_room(alloc: Global, room: usize) -> Result<FirmSink, OutOfMemory>
        ensures { IfOk result (λ s. s ≡ record { taken = []; room = room; whole = true }) }
    {
        let taken = Vec::with_capacity(alloc, room)?;
        Ok(FirmSink {
            taken,
            room,
            whole: true,
        })
    }

    /// The bytes taken: all that were put, or those of the pieces before the first that was dropped.
    pub fn taken(&self) -> &[u8]
        ensures { result.now ≡ self.now.taken }
    {
        &self.taken
    }

    /// Whether no piece was dropped.
    pub fn is_whole(&self) -> bool
        ensures { result ≡ self.now.whole }
    {
        self.whole
    }

    /// Whether a piece is taken.
    fn fits(&self, piece: &[u8]) -> bool
        ensures { result ≡ fits self.now piece.now }
    {
        self.whole && piece.len() <= self.room - self.taken.len()
    }

    /// Takes a piece, or drops it.
    fn take(&mut self, piece: &[u8])
        ensures { self.new ≡ after_firm_put self.old piece.now }
    {
        if !self.fits(piece) {
            self.whole = false;
            return;
        }
        // within the room that was reserved it can't fail
        let _ = self.taken.extend_from_slice(piece);
    }
}

impl Sink for FirmSink {
    ghost taken = { λ s. taken_whole s };

    ghost shut = { λ _. false };

    ghost faults = { λ s. no_faults s };

    fn put(&mut self, piece: &[u8]) -> Result<(), Failed>
        ensures shut { false ≡ is_err result }
        ensures ok { OnOk result (Appends (taken_whole self.old) (taken_whole self.new) piece.now) }
        ensures err { OnErr result (AppendsFront (taken_whole self.old) (taken_whole self.new) piece.now) }
        ensures failed { OnErr result (Rose (no_faults self.old) (no_faults self.new)) }
        ensures after { self.new ≡ after_firm_put self.old piece.now }
    {
        self.take(piece);
        Ok(())
    }
}
