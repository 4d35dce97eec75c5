//! The generators of a table are enough: for its centre, its lower central series and its ideals.
//!
//! Each function does nothing: what it ensures is a law.
#![tactic(auto)]

ghost use Rattle.fpl_numbers.specs.declared.number.Kind.{Kind};
ghost use Rattle.fpl_numbers.specs.Kinds.{field_of};
ghost use Rattle.math_generators.specs.Triples.{LateTriplesFollow};
ghost use Rattle.math_generators.specs.Laws.{AllFromGenerators, BuiltIsGenerated, CentreByGenerators, CentreIsKernelOf, ClosedByGenerators, GeneratorRoundsStay, GeneratorRoundsStop, IdealByGeneratorRounds, IdealByGenerators, TermByGeneratorRows, TermByGenerators};

/// The generators: each other basis element of a built table is the bracket of two before it, and brackets with them give all vectors of the table.
pub fn generators_generate()
    ensures built { (k : Kind) → BuiltIsGenerated (field_of k) }
    ensures all { (k : Kind) → AllFromGenerators (field_of k) }
{}

/// Brackets with the generators suffice for the centre, the lower central series and ideals.
pub fn generators_suffice()
    ensures centre { (k : Kind) → CentreByGenerators (field_of k) }
    ensures terms { (k : Kind) → TermByGenerators (field_of k) }
    ensures ideal { (k : Kind) → IdealByGenerators (field_of k) }
{}

/// The same over rows: the rows of the centre, of the next term, and of the rounds of brackets that find an ideal.
pub fn generator_rows_suffice()
    ensures kernel { (k : Kind) → CentreIsKernelOf (field_of k) }
    ensures terms { (k : Kind) → TermByGeneratorRows (field_of k) }
    ensures closed { (k : Kind) → ClosedByGenerators (field_of k) }
    ensures rounds { (k : Kind) → IdealByGeneratorRounds (field_of k) }
    ensures stay { (k : Kind) → GeneratorRoundsStay (field_of k) }
    ensures stop { (k : Kind) → GeneratorRoundsStop (field_of k) }
{}

/// Triples of basis elements behind the last generator give no source row that the others don't.
pub fn generators_give_the_rows()
    ensures { (k : Kind) → LateTriplesFollow (field_of k) }
{}
