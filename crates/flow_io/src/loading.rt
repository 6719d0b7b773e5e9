//! A whole file.

ghost use Rattle.std.specs.Prelude.{◌≡◌, ◌+◌, ◌-◌, ◌^◌, ◌<◌, ◌≤◌, true, length, vec_len, IfOk, IfSome, IfNone, IsSomeAnd, IsErrOf, Some, MatchOption, ◌⊎◌};
ghost use Rattle.flow_io.specs.Files.{file_at, Rose, last_count, given_after, IsStoreKept};
ghost use Rattle.flow_io.specs.Loading.{TakesPiece, CountsNone};
ghost use Rattle.flow_io.specs.declared.loading.LoadFault.TheVariants as faults;

use crate::store::{Failed, Store};
use std::alloc::{AllocError, Global};
use thiserror::Error;

/// Why a file wasn't loaded.
#[derive(Clone, Copy, Debug, PartialEq, Eq, Drop, Error)]
pub enum LoadFault {
    #[error("the file could not be read")]
    ReadFault,
    #[error("the file is longer than {most} bytes")]
    TooLong { most: usize },
    #[error("out of memory")]
    OutOfMemory,
}

impl From<Failed> for LoadFault {
    ghost from_gives = { λ _ fault. fault ≡ faults.ReadFault };

    fn from(_failed: Failed) -> LoadFault {
        LoadFault::ReadFault
    }
}

impl From<AllocError> for LoadFault {
    ghost from_gives = { λ _ fault. fault ≡ faults.OutOfMemory };

    fn from(_error: AllocError) -> LoadFault {
        LoadFault::OutOfMemory
    }
}

/// Reads a whole file of at most `most` bytes.
pub fn load<F: Store>(
    alloc: Global,
    store: &mut F,
    path: &str,
    most: usize,
) -> Result<Vec<u8>, LoadFault>
    requires asked { F.may_ask store.old path.now ≡ true }
    requires limit { most < 2 ^ 64 - 1 }
    ensures kept { IsStoreKept F.contents F.may_ask F.faults store.old store.new }
    ensures whole { IfOk result (λ bytes. IfSome (F.contents store.old) (λ files. file_at files path.now ≡ Some bytes.items)) }
    ensures within { IfOk result (λ bytes. vec_len bytes ≤ most) }
    ensures read_fault { IsErrOf result LoadFault.ReadFault → Rose (F.faults store.old) (F.faults store.new) }
    ensures no_fault { CountsNone result (F.faults store.old) (F.faults store.new) }
    ensures too_long { (limit : _) → IsErrOf result (LoadFault.TooLong limit) → (limit ≡ most) × MatchOption (F.contents store.old)
        ((F.given store.old + most < F.given store.new) ⊎ (F.given store.new ≡ last_count))
        (λ files. IsSomeAnd (file_at files path.now) (λ bytes. most < length bytes)) }
    ensures fits { IfSome (F.contents store.old) (λ files. IfSome (file_at files path.now) (λ bytes. length bytes ≤ most → (limit : _) → ¬ IsErrOf result (LoadFault.TooLong limit))) }
    ensures absent { IfSome (F.contents store.old) (λ files. IfNone (file_at files path.now) (IsErrOf result LoadFault.ReadFault)) }
    ensures given { IfOk result (λ bytes. F.given store.new ≡ given_after (F.given store.old) (vec_len bytes)) }
    ensures bounded { F.given store.new ≤ F.given store.old + (most + 1) }
{
    let mut bytes = Vec::new(alloc);
    loop {
        let n = take_piece(store, path, most, &mut bytes)?;
        if n == 0 {
            return Ok(bytes);
        }
        if most < bytes.len() {
            return Err(LoadFault::TooLong { most });
        }
    }
}

/// The most bytes that one read asks for.
const PIECE: usize = 4096;

/// Reads a piece behind the bytes, at most one byte more than is allowed, and answers its length.
fn take_piece<F: Store>(
    store: &mut F,
    path: &str,
    most: usize,
    bytes: &mut Vec<u8>,
) -> Result<usize, LoadFault>
    requires asked { F.may_ask store.old path.now ≡ true }
    requires limit { most < 2 ^ 64 - 1 }
    requires room { vec_len bytes.old ≤ most }
    ensures kept { IsStoreKept F.contents F.may_ask F.faults store.old store.new }
    ensures taken { IfOk result (λ n. (vec_len bytes.new ≡ vec_len bytes.old + n) × (vec_len bytes.new ≤ most + 1)) }
    ensures told { IfOk result (λ n. TakesPiece (F.contents store.old) path.now bytes.old.items bytes.new.items n) }
    ensures given { IfOk result (λ n. F.given store.new ≡ given_after (F.given store.old) n) }
    ensures bounded { F.given store.new ≤ F.given store.old + (most + 1 - vec_len bytes.old) }
    ensures absent { IfSome (F.contents store.old) (λ files. IfNone (file_at files path.now) (IsErrOf result LoadFault.ReadFault)) }
    ensures read_fault { IsErrOf result LoadFault.ReadFault → Rose (F.faults store.old) (F.faults store.new) }
    ensures no_fault { CountsNone result (F.faults store.old) (F.faults store.new) }
    ensures in_length { (limit : _) → ¬ IsErrOf result (LoadFault.TooLong limit) }
{
    let at = bytes.len();
    let mut piece = [0; PIECE];
    let front = &mut piece[..PIECE.min(most + 1 - at)];
    let n = store.read(path, at, front)?;
    bytes.extend_from_slice(&front[..n])?;
    Ok(n)
}
