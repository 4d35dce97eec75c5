//! What a run has come to, after its text was written.
ghost use Rattle.std.specs.Prelude.{◌≡◌};
ghost use Rattle.fpl_reply.specs.Outcome.{refusal_text, reply_of};
ghost use Rattle.fpl_reply.specs.Reply.{status_of};

use crate::status::Status;
use crate::view_fault::ViewFault;
use fpl_bytes::BadBytes;
use fpl_check::{Spot, Why};
use fpl_numbers::{Num, Op};
use fpl_reader::Reason;

/// Why an input is refused.
#[derive(Clone, Copy, Debug, PartialEq, Eq)]
pub enum Refusal {
    TooLong,
    Unread(Reason),
    /// There is no line that separates a presentation from its matrices.
    NoMatrices,
    /// A piece of the matrices is missing, is left over, or isn't what stands there.
    MapSyntax,
    /// The matrices have no rows, or too many.
    MapSize,
    /// A number of a matrix isn't below the prime.
    MapNumber,
    /// A number other than 0 stands in a block of the other parity than its generator's.
    MapParity,
}

/// What words and an input have come to.
#[derive(Drop)]
pub enum Outcome {
    /// The view's text was written.
    Done,
    Usage,
    Refused { place: u64, why: Refusal },
    /// The view of this name works over primes alone.
    Unsupported(&'static [u8]),
    BadBytes(BadBytes),
    BadSection { weight: u32, spot: Spot, why: Why },
    Limit { weight: u32, count: u64 },
    Overflow { weight: u32, op: Op, a: Num, b: Num },
    InView(ViewFault),
    NoMemory,
    ReadFault,
    WriteFault,
}

impl Refusal {
    pub fn text(self) -> &'static [u8]
        ensures { result.now ≡ refusal_text self }
    {
        match self {
            Refusal::TooLong => b"input too long",
            Refusal::Unread(reason) => reason.text(),
            Refusal::NoMatrices => b"no matrices",
            Refusal::MapSyntax => b"map syntax",
            Refusal::MapSize => b"map size",
            Refusal::MapNumber => b"not a residue",
            Refusal::MapParity => b"entry of the other parity",
        }
    }
}

impl Outcome {
    pub fn status(&self) -> Status
        ensures { result ≡ status_of (reply_of self.now) }
    {
        match self {
            Outcome::Done => Status::Done,
            Outcome::Usage => Status::Usage,
            Outcome::Refused { .. } => Status::Refused,
            Outcome::Unsupported(_) => Status::Unsupported,
            Outcome::BadBytes(_) | Outcome::BadSection { .. } => Status::BadCheckpoint,
            Outcome::Limit { .. } => Status::Limit,
            Outcome::Overflow { .. } => Status::Overflow,
            Outcome::InView(fault) => fault.status(),
            Outcome::NoMemory => Status::NoMemory,
            Outcome::ReadFault => Status::ReadFault,
            Outcome::WriteFault => Status::WriteFault,
        }
    }
}
