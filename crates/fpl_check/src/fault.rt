use fpl_log::Origin;
use fpl_scalar::{Num, Unfit};

/// Where a section is wrong. Steps and closed rows count from 1.
#[derive(Clone, Copy, Debug, PartialEq, Eq)]
pub enum Spot {
    Step(u64),
    Whole,
    Closed(u32),
    Origin(Origin),
}

/// What is wrong there. Steps and symbols count from 1.
#[derive(Clone, Copy, Debug, PartialEq, Eq)]
pub enum Why {
    /// The origin of a step is none of the section's weight.
    BadOrigin,
    /// A step cites this step, which is no earlier step of the sort that it may cite.
    BadCite(u64),
    /// A row that must be zero isn't: its greatest symbol, and the number there.
    Remainder {
        symbol: u32,
        number: Num,
    },
    /// The numbers of Close steps and of closed rows differ.
    Count {
        closes: u64,
        rows: u64,
    },
    /// The section tells another number of origins than its weight has.
    OriginCount {
        stored: u64,
        found: u64,
    },
    /// The coefficients of a closed row don't tell a row: their symbols must ascend and be of the
    /// weight, and no number is 0.
    RowForm,
    /// A closed row isn't the conclusion of its Close step: the least symbol at which they differ.
    Differs {
        symbol: u32,
        stored: Num,
        concluded: Num,
    },
    /// The closed rows aren't closed. Symbol 0 where the row is zero; its greatest symbol where
    /// its number there isn't 1, or that symbol isn't greater than that of the row before; else
    /// the least symbol at which another row has its greatest.
    NotClosed {
        symbol: u32,
    },
}

/// Why a section was not accepted.
#[derive(Clone, Copy, Debug, PartialEq, Eq)]
pub enum CheckFault {
    /// The first test that fails.
    Bad { spot: Spot, why: Why },
    /// The first operation that does not fit, before any test fails.
    Unfit(Unfit),
    NoMemory,
}
