//! Small presentations, and what is derivable over them: the answers show what the definitions mean.
//!
//! Each function does nothing: what it ensures is a law.
#![tactic(auto)]

ghost use Rattle.fpl_numbers.specs.declared.number.Kind.{Kind};
ghost use Rattle.fpl_numbers.specs.Kinds.{field_of};
ghost use Rattle.math_examples.specs.Examples.{OddPairExchanges, OddPairHasSign, OddPairIsFree, OneIsLeft, WeightHasBoth};

/// A relation identifies: of two generators x and y with y = 2x, x alone is left in the standard table, through each weight, and y is 2x there.
pub fn relation_identifies()
    ensures { (k : Kind) → OneIsLeft (field_of k) }
{}

/// Generators of two weights: a weight with a generator of it and with a square, of different parities, has both in the standard table.
pub fn weight_with_both_parities()
    ensures { (k : Kind) → WeightHasBoth (field_of k) }
{}

/// Two odd generators: their bracket is symmetric, and not 0.
pub fn two_odd_generators()
    ensures exchanges { (k : Kind) → OddPairExchanges (field_of k) }
    ensures free { (k : Kind) → OddPairIsFree (field_of k) }
    ensures sign { (k : Kind) → OddPairHasSign (field_of k) }
{}
