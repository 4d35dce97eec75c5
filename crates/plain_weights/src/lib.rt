//! Completion of a weight: the plain run, and the theorem that it gives the standard table's next weight.
//!
//! Each function does nothing: what it ensures are laws.
#![tactic(auto)]

ghost use Rattle.plain_weights.specs.Laws.{AlwaysFits, CountsStay, NextHolds, NextIsRaised, NextIsTable, OriginsAreCounted, StepsAreInOrder};
ghost use Rattle.plain_weights.specs.Lean.{ClosesSlimmed, LateAddNothing};
ghost use Rattle.plain_weights.specs.Section.{ComputesOne, ComputesOverPrimes};

/// From a table that is built for a sound presentation, the rows of a weight's origins, gathered
/// and closed, give the standard table through one weight more. Over a prime nothing is refused.
pub fn completion()
    ensures next { NextHolds }
    ensures raised { NextIsRaised }
    ensures table { NextIsTable }
    ensures fits { AlwaysFits }
    ensures counts { CountsStay }
{}

/// The steps that a weight's run records are in order, and there is one Insert step for each origin.
/// To record nothing of dependent origins gives the same rows, and what is left of the full record.
/// Over a prime other than 3 the triples behind the last generator add nothing to it.
pub fn recording()
    ensures order { StepsAreInOrder }
    ensures origins { OriginsAreCounted }
    ensures lean { ClosesSlimmed }
    ensures late { LateAddNothing }
{}

/// Computing a weight of a presentation gives one thing, and over a prime its section.
pub fn computing()
    ensures one { ComputesOne }
    ensures primes { ComputesOverPrimes }
{}
