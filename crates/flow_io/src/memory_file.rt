//! A file in memory, and copies of it.

ghost use Rattle.std.specs.Prelude.{◌≡◌, ◌-◌, ◌++◌, length, take, drop, min, option_copied};
ghost use Rattle.flow_io.specs.Files.{file_at};

use std::marker::Model;

/// A file, which clauses see as its path and its bytes.
#[derive(Drop)]
pub(crate) struct MemoryFile {
    pub(crate) path: String,
    pub(crate) bytes: Vec<u8>,
}

impl Model for MemoryFile {
    ghost use Rattle.std.specs.Prelude.{string_bytes};
    ghost use Rattle.flow_io.specs.Files.{File};

    ghost Value = { File };

    ghost view = { λ file. record { path = string_bytes file.path; bytes = file.bytes.items } };
}

/// The bytes of a path.
pub(crate) fn bytes_of<'a>(files: &'a [MemoryFile], path: &str) -> Option<&'a [u8]>
    ensures { option_copied result ≡ file_at files.now path.now }
{
    for file in files {
        if file.path.as_str() == path {
            return Some(&file.bytes);
        }
    }
    None
}

/// Copies at most so many of the bytes from a place on into the front of a piece.
pub(crate) fn copy_piece(bytes: &[u8], at: usize, most: usize, piece: &mut [u8]) -> usize
    ensures len { result ≡ min (min (length piece.old) most) (length bytes.now - at) }
    ensures after { piece.new ≡ take result (drop at bytes.now) ++ drop result piece.old }
{
    let rest = &bytes[at.min(bytes.len())..];
    let n = piece.len().min(most).min(rest.len());
    piece[..n].copy_from_slice(&rest[..n]);
    n
}
