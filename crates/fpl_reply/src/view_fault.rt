//! What fails in making the text of a view.
ghost use Rattle.std.specs.Prelude.{◌≡◌};
ghost use Rattle.fpl_reply.specs.Reply.{view_fault_status};

use crate::status::Status;
use fpl_numbers::Unfit;

/// What fails in making the text of a view, once its table is there.
#[derive(Clone, Copy, Debug, PartialEq, Eq)]
pub enum ViewFault {
    /// An operation that doesn't fit.
    Overflow(Unfit),
    /// The words of the weights 1 to `weight` number `count`, which is more than was allowed.
    TooManyWords { weight: u32, count: u64 },
}

impl ViewFault {
    pub fn status(self) -> Status
        ensures { result ≡ view_fault_status self }
    {
        match self {
            ViewFault::Overflow(_) => Status::Overflow,
            ViewFault::TooManyWords { .. } => Status::Limit,
        }
    }
}
