//! Ordered words and straight forms on plain lists: the words of a weight, their number, straight forms and products, and that they are those of the
//! enveloping superalgebra.
//!
//! Each function does nothing: what it ensures is a law.
#![tactic(auto)]

ghost use Rattle.fpl_numbers.specs.declared.number.Kind.{Kind};
ghost use Rattle.fpl_numbers.specs.Kinds.{field_of};
ghost use Rattle.plain_envelope.specs.Laws.{LimitIsFirst, OneStraightened, ProductOfValues, StraightenedIsStraight, WordsAreListed};
ghost use Rattle.plain_envelope.specs.ProductLaws.{ProductsAreListed};

/// The listed words are the ordered words, and their limit is the least weight through which there are more.
pub fn words_are_listed()
    ensures words { (k : Kind) → WordsAreListed (field_of k) }
    ensures limit { (k : Kind) → LimitIsFirst (field_of k) }
{}

/// What is computed for a poly is its straight form, and it is one for equal polys.
pub fn straightened_is_straight()
    ensures straight { (k : Kind) → StraightenedIsStraight (field_of k) }
    ensures one { (k : Kind) → OneStraightened (field_of k) }
{}

/// The product of two polys, word by word, is the product of what they stand for.
pub fn product_of_values()
    ensures { (k : Kind) → ProductOfValues (field_of k) }
{}

/// The listed products are those of a basis element and an ordered word that aren't ordered together, each with its straight form.
pub fn products_are_listed()
    ensures { (k : Kind) → ProductsAreListed (field_of k) }
{}
