//! Proofs from the axioms, line by line: their rules, and that each line is derivable.
//!
//! Each function does nothing: what it ensures is a law.
#![tactic(auto)]

ghost use Rattle.fpl_numbers.specs.declared.number.Kind.{Kind};
ghost use Rattle.fpl_numbers.specs.Kinds.{field_of};
ghost use Rattle.math_proofs.specs.Rules.{LinesDerive};
ghost use Rattle.math_proofs.specs.Shown.{ShownIsHad};
ghost use Rattle.math_proofs.specs.Renumbering.{RenumberedStays};

/// Each line of a proof over P is derivable.
pub fn proofs_derive()
    ensures { (k : Kind) → LinesDerive (field_of k) }
{}

/// One pass over an expression shows which parities it has.
pub fn one_pass_shows_parities()
    ensures { (k : Kind) → ShownIsHad (field_of k) }
{}

/// Lines may be renumbered where each line that is cited keeps its sides.
pub fn lines_may_be_renumbered()
    ensures { (k : Kind) → RenumberedStays (field_of k) }
{}
