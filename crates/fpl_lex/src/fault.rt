ghost use Rattle.std.specs.Prelude.{◌≡◌};
ghost use Rattle.fpl_lex.specs.declared.fault.LexError.TheVariants.{NoMemory};

use std::alloc::AllocError;
use thiserror::Error;

/// Why a text has no tokens, with the place of the fault, counted in bytes from 0.
#[derive(Clone, Copy, Debug, PartialEq, Eq, Error)]
pub enum LexError {
    /// The byte there begins no token, blank or comment.
    #[error("no token begins at byte {0}")]
    BadByte(u64),
    /// The number that begins there passes 2^127-1.
    #[error("the number at byte {0} is too large")]
    NumberTooLarge(u64),
    /// The word that begins there has more than 32 bytes.
    #[error("the name at byte {0} is too long")]
    NameTooLong(u64),
    #[error("no memory")]
    NoMemory,
}

impl From<AllocError> for LexError {
    ghost from_gives = { λ _ e. e ≡ NoMemory };

    fn from(_: AllocError) -> Self {
        LexError::NoMemory
    }
}
