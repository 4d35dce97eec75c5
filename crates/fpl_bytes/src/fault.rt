ghost use Rattle.std.specs.Prelude.{◌≡◌};
ghost use Rattle.fpl_bytes.specs.declared.fault.ScanError.TheVariants.{NoMemory};
ghost use Rattle.fpl_bytes.specs.Reading.{fault};
ghost use Rattle.fpl_bytes.specs.Reasons.{byte_text};

use std::alloc::{AllocError, AllocFailed};
use thiserror::Error;

/// Why bytes are no checkpoint.
#[derive(Clone, Copy, Debug, PartialEq, Eq)]
pub enum ByteWhy {
    NotCheckpoint,
    HeadCut,
    UnknownVersion,
    HeadText,
    SectionWeight,
    FieldCut,
    BadTag,
    BadNumber,
    UnreadBytes,
}

impl ByteWhy {
    /// The reason in words.
    pub fn text(self) -> &'static [u8]
        ensures { result.now ≡ byte_text self }
    {
        match self {
            ByteWhy::NotCheckpoint => b"not a checkpoint",
            ByteWhy::HeadCut => b"head cut",
            ByteWhy::UnknownVersion => b"unknown version",
            ByteWhy::HeadText => b"head text",
            ByteWhy::SectionWeight => b"section weight",
            ByteWhy::FieldCut => b"field cut",
            ByteWhy::BadTag => b"bad tag",
            ByteWhy::BadNumber => b"bad number",
            ByteWhy::UnreadBytes => b"unread bytes",
        }
    }
}

/// The first reason that holds, and the place where it first holds, counted in bytes from 0.
#[derive(Clone, Copy, Debug, PartialEq, Eq, Error)]
#[error("bad byte at {place}")]
pub struct BadBytes {
    pub place: u64,
    pub why: ByteWhy,
}

/// Why bytes could not be read.
#[derive(Clone, Copy, Debug, PartialEq, Eq, Error)]
pub enum ScanError {
    #[error("{0}")]
    Bad(BadBytes),
    #[error("no memory")]
    NoMemory,
}

impl From<AllocError> for ScanError {
    ghost from_gives = { λ _ e. e ≡ NoMemory };

    fn from(_: AllocError) -> Self {
        ScanError::NoMemory
    }
}

impl<T: Drop> From<AllocFailed<T>> for ScanError {
    ghost from_gives = { λ _ e. e ≡ NoMemory };

    fn from(_: AllocFailed<T>) -> Self {
        ScanError::NoMemory
    }
}

/// The refusal of the field with which `left` begins, where the bytes end at place `end`.
pub fn bad_bytes(end: usize, left: &[u8], why: ByteWhy) -> ScanError
    ensures { result ≡ ScanError.Bad (fault end left.now why) }
{
    ScanError::Bad(BadBytes {
        place: end.saturating_sub(left.len()) as u64,
        why,
    })
}
