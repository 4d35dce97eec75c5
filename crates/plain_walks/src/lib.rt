//! Laws of walks through the weights of a presentation: what they give, and why they stop, over the standard table.
//!
//! Each function does nothing: what it ensures are laws.
#![tactic(auto)]

ghost use Rattle.plain_walks.specs.Laws.{FitsGoesOn, OneTable, OneText, OverflowStops, PrimesFit, PrimesStop, StandardIsWithin, StopsMean, StopsThere, TooManyStops, WalksAreStandard, WalksGiveOneText, WithinNeverPasses};

/// The table of a walk is the standard table of the presentation through the weight that the walk
/// came to, whatever is stored and whoever made that.
pub fn walks_are_standard()
    ensures { WalksAreStandard }
{}

/// What a stop says, and that a walk stops where it is so.
pub fn stops()
    ensures mean { StopsMean }
    ensures there { StopsThere }
    ensures too_many { TooManyStops }
    ensures overflow { OverflowStops }
    ensures within { WithinNeverPasses }
    ensures shown { StandardIsWithin }
    ensures fit { FitsGoesOn }
{}

/// Over a prime every operation fits, in computing and in checking what is stored.
pub fn primes_fit()
    ensures fit { PrimesFit }
    ensures stop { PrimesStop }
{}

/// A presentation has one table through a limit, and one text of it.
pub fn one_text()
    ensures table { OneTable }
    ensures walks { WalksGiveOneText }
    ensures text { OneText }
{}
