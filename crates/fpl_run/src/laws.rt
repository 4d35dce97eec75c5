//! What the replies obey.
//!
//! Each function does nothing: what it ensures are laws.
ghost use Rattle.fpl_run.specs.Laws.{OneReply, OneText, WalksAreStandard, PrimesFit, StopsMean, LimitComes, FaultsCome, OwnCheckpoints, CheckpointsAreOwn, WithinLimits, FractionsUnsupported};

/// Words and the bytes of an input have at most one reply: so the status, the text and the line of a run are
/// exactly those that they have, but for want of memory and faults. Where proofs are asked for, any will do.
pub fn one_reply()
    ensures { OneReply }
{}

/// The text of the table is a function of the presentation and the limit, whoever made the checkpoint that was
/// read.
pub fn one_text()
    ensures { OneText }
{}

/// The table of a walk is the standard table of the presentation that was read. Over a prime every operation fits.
pub fn walks_are_standard()
    ensures standard { WalksAreStandard }
    ensures fit { PrimesFit }
{}

/// What a fault says over the standard table, and that the reply says so there.
pub fn stops()
    ensures mean { StopsMean }
    ensures limit { LimitComes }
    ensures faults { FaultsCome }
{}

/// A checkpoint that a run wrote for a presentation, whole or cut after its head, or its like in version 1, has the
/// reply of that presentation, and passes a check. What the view checkpoint writes for a text is such a checkpoint.
pub fn own_checkpoints()
    ensures own { OwnCheckpoints }
    ensures written { CheckpointsAreOwn }
{}

/// Where the symbols stay within the entries, and over fractions every operation fits, the reply is a text. A view that
/// works over primes alone is unsupported over fractions.
pub fn within_limits()
    ensures within { WithinLimits }
    ensures unsupported { FractionsUnsupported }
{}
