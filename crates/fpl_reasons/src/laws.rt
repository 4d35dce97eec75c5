//! What a text of the view `why` shows.
//!
//! The function does nothing: what it ensures is a law.
ghost use Rattle.fpl_reasons.specs.Why.{WhyTextsShow};

/// Where a text says that a query's sides differ, they aren't derivably equal; where it gives a proof, the sides of each
/// line are derivably equal, and those of the query.
pub fn whys_show()
    ensures { WhyTextsShow }
{}
