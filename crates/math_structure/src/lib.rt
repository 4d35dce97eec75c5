//! Subspaces of a table: its centre, its lower central series and its ideals, as definitions, and how rows find them.
//!
//! Each function does nothing: what it ensures is a law.
#![tactic(auto)]

ghost use Rattle.fpl_numbers.specs.declared.number.Kind.{Kind};
ghost use Rattle.fpl_numbers.specs.Kinds.{field_of};
ghost use Rattle.math_structure.specs.Laws.{CentralIsAll, CentreIsKernel, ClosedByUnits, IdealByRounds, IdealIsClosed, IdealIsLeast, RoundsStayWithin, RoundsStop, SeriesEnds, TermByRows, TermsFall, WeightsStay};

/// The centre: it is a kernel, and its vectors have bracket 0 with all.
pub fn centres()
    ensures kernel { (k : Kind) → CentreIsKernel (field_of k) }
    ensures all { (k : Kind) → CentralIsAll (field_of k) }
{}

/// The lower central series: by rows, falling, and 0 in the end.
pub fn lower_central_series()
    ensures rows { (k : Kind) → TermByRows (field_of k) }
    ensures falls { (k : Kind) → TermsFall (field_of k) }
    ensures ends { (k : Kind) → SeriesEnds (field_of k) }
    ensures within { (k : Kind) → WeightsStay (field_of k) }
{}

/// Ideals: the least subspace closed under bracket, and rounds of brackets that find it.
pub fn ideals()
    ensures ideal { (k : Kind) → IdealIsClosed (field_of k) }
    ensures least { (k : Kind) → IdealIsLeast (field_of k) }
    ensures closed { (k : Kind) → ClosedByUnits (field_of k) }
    ensures rounds { (k : Kind) → IdealByRounds (field_of k) }
    ensures within { (k : Kind) → RoundsStayWithin (field_of k) }
    ensures stop { (k : Kind) → RoundsStop (field_of k) }
{}
