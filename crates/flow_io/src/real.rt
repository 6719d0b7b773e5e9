//! The system's files, and a writer such as its standard output. No contract can tell what the system gives and takes.

ghost use Rattle.std.specs.Prelude.{◌≡◌, ◌≤◌, true, false, None, length, is_err, IfOk, OnOk, OnErr};
ghost use Rattle.std.specs.Io.KnownBytes.{Appends};
ghost use Rattle.flow_io.specs.Files.{Rose};
ghost use Rattle.flow_io.specs.Sinks.{WritesFront};

use crate::sink::Sink;
use crate::store::{Failed, Store};
use std::io::{Read, Seek, SeekFrom, Write};
use std::rt::Files;
use std::{fs, io, mem};

/// The system's files. One is kept open while it is read.
#[derive(Drop)]
pub struct RealStore<'a, R: Files> {
    files: &'a R,
    open: Option<OpenFile<R::File>>,
    faults: u64,
    given: u64,
}

impl<'a, R: Files + AllocGlobal> RealStore<'a, R> {
    /// The files that a runtime opens.
    pub fn new(files: &'a R) -> RealStore<'a, R>
        ensures faults { result.faults ≡ 0 }
        ensures given { result.given ≡ 0 }
    {
        RealStore {
            files,
            open: None,
            faults: 0,
            given: 0,
        }
    }

    /// Reads once, from a place of a file on.
    fn read_at(&mut self, path: &str, at: usize, piece: &mut [u8]) -> io::Result<usize>
        ensures read { IfOk result (λ n. n ≤ length piece.old) }
        ensures faults { self.new.faults ≡ self.old.faults }
        ensures given { self.new.given ≡ self.old.given }
    {
        let mut open = match mem::take(&mut self.open) {
            Some(open) if open.path.as_str() == path => open,
            _ => OpenFile::open(self.files, path)?,
        };
        let n = open.read_at(at, piece)?;
        // at its end it is closed
        if n != 0 {
            self.open = Some(open);
        }
        Ok(n)
    }
}

impl<'a, R: Files + AllocGlobal> Store for RealStore<'a, R> {
    ghost may_ask = { λ _ _. true };

    ghost contents = { λ _. None };

    ghost faults = { λ s. s.faults };

    ghost given = { λ s. s.given };

    fn read(&mut self, path: &str, at: usize, piece: &mut [u8]) -> Result<usize, Failed> {
        match self.read_at(path, at, piece) {
            Ok(n) => {
                self.given = self.given.saturating_add(n as u64);
                Ok(n)
            }
            Err(_) => {
                self.faults = self.faults.saturating_add(1);
                Err(Failed)
            }
        }
    }
}

/// An open file with its path.
#[derive(Drop)]
struct OpenFile<F> {
    path: String,
    file: F,
}

impl<F: Read + Seek> OpenFile<F> {
    /// Opens a regular file. Anything else is refused: to open a named pipe would wait for its writer.
    fn open<R: Files<File = F> + AllocGlobal>(files: &R, path: &str) -> io::Result<OpenFile<F>> {
        if !fs::metadata(files, path)?.is_file() {
            return Err(io::Error::from(io::ErrorKind::InvalidInput));
        }
        let path_kept = String::from_str(files.alloc(), path)?;
        let file = fs::open(files, path)?;
        Ok(OpenFile {
            path: path_kept,
            file,
        })
    }

    /// Reads once, from a place on.
    fn read_at(&mut self, at: usize, piece: &mut [u8]) -> io::Result<usize>
        ensures { IfOk result (λ n. n ≤ length piece.old) }
    {
        self.file.seek(SeekFrom::Start(at as u64))?;
        self.file.read(piece)
    }
}

/// A sink over a writer, such as the standard output as `io::writer` gives it.
#[derive(Drop)]
pub struct RealSink<W> {
    out: W,
    faults: u64,
    shut: bool,
}

impl<W: Write> RealSink<W> {
    /// The sink over a writer.
    pub fn new(out: W) -> RealSink<W>
        ensures { result ≡ record { out = out; faults = 0; shut = false } }
    {
        RealSink {
            out,
            faults: 0,
            shut: false,
        }
    }
}

impl<W: Write> Sink for RealSink<W> {
    ghost taken = { λ _. None };

    ghost shut = { λ s. s.shut };

    ghost faults = { λ s. s.faults };

    fn put(&mut self, piece: &[u8]) -> Result<(), Failed>
        requires { self.old.shut ≡ false }
        ensures shut { self.new.shut ≡ is_err result }
        ensures faults_stay { self.old.faults ≤ self.new.faults }
        ensures failed { OnErr result (Rose self.old.faults self.new.faults) }
        ensures written { OnOk result (Appends (W.contents self.old.out) (W.contents self.new.out) piece.now) }
        ensures front { OnErr result (WritesFront (W.contents self.old.out) (W.contents self.new.out) piece.now) }
    {
        if write_whole(&mut self.out, piece).is_err() {
            self.faults = self.faults.saturating_add(1);
            self.shut = true;
            return Err(Failed);
        }
        Ok(())
    }
}

/// Writes a piece whole, and flushes.
fn write_whole<W: Write>(out: &mut W, piece: &[u8]) -> io::Result<()>
    ensures ok { OnOk result (Appends (W.contents out.old) (W.contents out.new) piece.now) }
    ensures err { OnErr result (WritesFront (W.contents out.old) (W.contents out.new) piece.now) }
{
    let mut rest = piece;
    while !rest.is_empty() {
        let n = out.write(rest)?;
        if n == 0 {
            return Err(io::Error::from(io::ErrorKind::WriteZero));
        }
        rest = &rest[n..];
    }
    out.flush()
}
