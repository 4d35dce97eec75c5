//! Cohomology of a table with values in the field, in low degrees: super alternating forms, their coboundaries, and lists that represent H1 and H2.
//!
//! Each function does nothing: what it ensures is a law.
#![tactic(auto)]

ghost use Rattle.fpl_numbers.specs.declared.number.Kind.{Kind};
ghost use Rattle.fpl_numbers.specs.Kinds.{field_of};
ghost use Rattle.math_cohomology.specs.Laws.{CoboundariesClose, CoboundaryIsForm2, CoboundaryIsForm3, CoboundaryTwice, SortedSuffice2, SortedSuffice3};
ghost use Rattle.math_cohomology.specs.Tuples.{CoboundariesAreSpan, CocyclesAreKernel1, CocyclesAreKernel2, LowRepresents1, LowRepresents2};

/// Forms: the coboundary of a coboundary is 0, coboundaries are forms, and sorted tuples suffice.
pub fn forms()
    ensures twice { (k : Kind) → CoboundaryTwice (field_of k) }
    ensures two { (k : Kind) → CoboundaryIsForm2 (field_of k) }
    ensures three { (k : Kind) → CoboundaryIsForm3 (field_of k) }
    ensures close { (k : Kind) → CoboundariesClose (field_of k) }
    ensures pairs { (k : Kind) → SortedSuffice2 (field_of k) }
    ensures triples { (k : Kind) → SortedSuffice3 (field_of k) }
{}

/// Cohomology by rows: cocycles are kernels, coboundaries are spans, and which closed rows represent H1 and H2 of a weight.
pub fn cohomology()
    ensures cocycles1 { (k : Kind) → CocyclesAreKernel1 (field_of k) }
    ensures cocycles2 { (k : Kind) → CocyclesAreKernel2 (field_of k) }
    ensures coboundaries { (k : Kind) → CoboundariesAreSpan (field_of k) }
    ensures one { (k : Kind) → LowRepresents1 (field_of k) }
    ensures two { (k : Kind) → LowRepresents2 (field_of k) }
{}
