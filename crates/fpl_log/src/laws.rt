ghost use Rattle.fpl_numbers.specs.declared.number.Kind.{Kind};
ghost use Rattle.fpl_log.specs.Laws.{ConclusionsUnfold, ConclusionsStay};

/// The conclusion of each step is the value of its unfolding. Where the steps are left out that
/// conclude 0 by their scale, the others conclude what they concluded before.
pub fn conclusions()
    ensures unfold { (k : Kind) → ConclusionsUnfold k }
    ensures stay { (k : Kind) → ConclusionsStay k }
{}
