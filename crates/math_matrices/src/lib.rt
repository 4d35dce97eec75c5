//! Supermatrices, and that what is derivable holds for them where the relations do.
//!
//! Each function does nothing: what it ensures is a law.
#![tactic(auto)]

ghost use Rattle.fpl_numbers.specs.declared.number.Kind.{Kind};
ghost use Rattle.fpl_numbers.specs.Kinds.{field_of};
ghost use Rattle.math_matrices.specs.Matrices.{BracketIsCommutator, BracketIsSuper, MatricesRespect};
ghost use Rattle.math_matrices.specs.Ranks.{BasisSpansWeight};

/// Matrices that respect the relations of P give one matrix to what is derivably equal, with no bound on weight.
pub fn matrices_respect()
    ensures { (k : Kind) → MatricesRespect (field_of k) }
{}

/// The bracket of matrices: the super commutator, which is a super Lie bracket.
pub fn bracket_of_matrices()
    ensures commutator { (k : Kind) → BracketIsCommutator (field_of k) }
    ensures laws { (k : Kind) → BracketIsSuper (field_of k) }
{}

/// Where matrices respect P, those of a standard table's basis elements of a weight span what those of all expressions of that weight span.
pub fn ranks_of_weights()
    ensures { (k : Kind) → BasisSpansWeight (field_of k) }
{}
