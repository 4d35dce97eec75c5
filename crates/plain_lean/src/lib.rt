//! Recording the steps of pivots alone gives what is left of the full record without the steps of
//! dependent rows.
#![tactic(auto)]

ghost use Rattle.fpl_numbers.specs.declared.number.Kind.{Kind};
ghost use Rattle.plain_lean.specs.Lean.{StartsLean, InsertsLean, ClosesLean, SameRows};

/// A lean record stays lean while rows are put in and closed, and its rows are those of the full
/// one; both find the same leads, and fail by the same operation.
pub fn laws()
    ensures start { StartsLean }
    ensures insert { (k : Kind) → InsertsLean k }
    ensures close { (k : Kind) → ClosesLean k }
    ensures rows { SameRows }
{}
