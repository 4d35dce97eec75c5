//! Why a text gives no matrices.
ghost use Rattle.std.specs.Prelude.{◌≡◌};
ghost use Rattle.fpl_matrices.specs.declared.fault.MapError.TheVariants.{NoMemory};

use std::alloc::{AllocError, AllocFailed};
use thiserror::Error;

/// Why a text gives no matrices, with the place of the first piece that fails, or the end of the bytes where a piece is missing; counted from 0.
#[derive(Clone, Copy, Debug, PartialEq, Eq, Error)]
pub enum MapError {
    /// A piece is missing, is left over, or isn't the word, name or number that stands there.
    #[error("map syntax at byte {0}")]
    Syntax(u64),
    /// A size past 32, or none at all.
    #[error("map size at byte {0}")]
    Size(u64),
    /// A number that isn't below the prime.
    #[error("not a residue at byte {0}")]
    Number(u64),
    /// A number other than 0 in a block of the other parity than its generator's.
    #[error("entry of the other parity at byte {0}")]
    Parity(u64),
    #[error("no memory")]
    NoMemory,
}

impl From<AllocError> for MapError {
    ghost from_gives = { λ _ e. e ≡ NoMemory };

    fn from(_: AllocError) -> Self {
        MapError::NoMemory
    }
}

impl<T: Drop> From<AllocFailed<T>> for MapError {
    ghost from_gives = { λ _ e. e ≡ NoMemory };

    fn from(_: AllocFailed<T>) -> Self {
        MapError::NoMemory
    }
}
