use fpl_bytes::BadBytes;
use fpl_check::{Spot, Why};
use fpl_numbers::{Num, Op};

/// Why a run goes no further.
#[derive(Clone, Copy, Debug, PartialEq, Eq)]
pub enum Stop {
    /// The symbols of the weights 1 to `weight` number `count`, which is more than was allowed.
    TooMany { weight: u32, count: u64 },
    /// The bytes of a stored section are no section of the next weight.
    BadBytes(BadBytes),
    /// The stored section of `weight` fails a test.
    BadSection { weight: u32, spot: Spot, why: Why },
    /// An operation of `weight` that does not fit, with its operands in their order.
    Overflow { weight: u32, op: Op, a: Num, b: Num },
    /// No further section is stored, and nothing is to be computed.
    Ended,
    NoMemory,
}
