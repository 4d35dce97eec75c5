//! What proofs from the axioms mean that the check accepts.
//!
//! The function does nothing: what it ensures is a law.
#![tactic(auto)]

ghost use Rattle.plain_derivations.specs.Derivations.{AcceptedLinesDerive};

/// Over a sound presentation the two sides of each line of a proof that the check accepts are derivably equal.
pub fn accepted_proofs()
    ensures { AcceptedLinesDerive }
{}
