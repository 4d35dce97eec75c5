//! Ordered words over the basis of a table, and the enveloping superalgebra in them.
//!
//! Each function does nothing: what it ensures is a law.
#![tactic(auto)]

ghost use Rattle.fpl_numbers.specs.declared.number.Kind.{Kind};
ghost use Rattle.fpl_numbers.specs.Kinds.{field_of};
ghost use Rattle.math_words.specs.Laws.{ActionIsStraight, CoefficientsDecide, OneStraightForm, OrderedWordsAreFree, TableIsWithin};

/// Straight forms: two polys have one straight form exactly where they are equal, and it is what the action of the letters gives.
pub fn straight_forms()
    ensures one { (k : Kind) → OneStraightForm (field_of k) }
    ensures action { (k : Kind) → ActionIsStraight (field_of k) }
{}

/// Ordered words are independent, so that the table lies in its enveloping superalgebra unchanged.
pub fn ordered_words()
    ensures free { (k : Kind) → OrderedWordsAreFree (field_of k) }
    ensures table { (k : Kind) → TableIsWithin (field_of k) }
{}

/// A poly is told by its coefficients.
pub fn coefficients_decide()
    ensures { (k : Kind) → CoefficientsDecide (field_of k) }
{}
