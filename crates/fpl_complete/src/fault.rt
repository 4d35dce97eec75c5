use fpl_check::{Spot, Why};
use fpl_numbers::{Num, Op};

/// Why a table was not raised.
#[derive(Clone, Copy, Debug, PartialEq, Eq)]
pub enum RaiseFault {
    /// The symbols of the weights 1 to `weight` number `count`, which is more than was allowed.
    Limit { weight: u32, count: u64 },
    /// An operation in computing `weight` that does not fit, with its operands in their order.
    Overflow { weight: u32, op: Op, a: Num, b: Num },
    NoMemory,
}

/// Why a section was not adopted.
#[derive(Clone, Copy, Debug, PartialEq, Eq)]
pub enum AdoptFault {
    Raise(RaiseFault),
    /// Where the section of `weight` is wrong, and what is wrong there.
    Bad { weight: u32, spot: Spot, why: Why },
}
