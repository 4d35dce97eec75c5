//! Why a text is no presentation, and in which words.
ghost use Rattle.std.specs.Prelude.{◌≡◌};
ghost use Rattle.fpl_reader.specs.declared.fault.ReaderError.TheVariants.{NoMemory};
ghost use Rattle.fpl_reader.specs.Reasons.{reason_text};

use std::alloc::AllocError;
use thiserror::Error;

/// Why a text is no presentation.
#[derive(Clone, Copy, Debug, PartialEq, Eq)]
pub enum Reason {
    BadByte,
    NumberTooLarge,
    NameTooLong,
    TooDeep,
    /// The tokens before this one, counted from 1, begin some sentence, and with it they begin none. The end counts as a last token.
    Syntax(u64),
    NoField,
    FieldTwice,
    BadPrime,
    NameTwice,
    BadWeight,
    TooManyGenerators,
    UnknownName,
    ZeroDenominator,
    MixedWeight,
    MixedParity,
}

impl Reason {
    /// The reason in words.
    pub fn text(self) -> &'static [u8]
        ensures { result.now ≡ reason_text self }
    {
        match self {
            Reason::BadByte => b"bad byte",
            Reason::NumberTooLarge => b"number too large",
            Reason::NameTooLong => b"name too long",
            Reason::TooDeep => b"nesting too deep",
            Reason::Syntax(_) => b"syntax",
            Reason::NoField => b"no field",
            Reason::FieldTwice => b"field twice",
            Reason::BadPrime => b"prime not in the list",
            Reason::NameTwice => b"name twice",
            Reason::BadWeight => b"weight outside 1 to 1000",
            Reason::TooManyGenerators => b"more than 64 generators",
            Reason::UnknownName => b"unknown name",
            Reason::ZeroDenominator => b"zero denominator",
            Reason::MixedWeight => b"mixed weight",
            Reason::MixedParity => b"mixed parity",
        }
    }
}

#[derive(Clone, Copy, Debug, PartialEq, Eq, Error)]
pub enum ReaderError {
    /// The first reason, in the order of `Reason`, and the place where it first holds, counted in bytes from 0.
    #[error("refused at byte {place}")]
    Refused { place: u64, reason: Reason },
    #[error("no memory")]
    NoMemory,
}

impl From<AllocError> for ReaderError {
    ghost from_gives = { λ _ e. e ≡ NoMemory };

    fn from(_: AllocError) -> Self {
        ReaderError::NoMemory
    }
}
