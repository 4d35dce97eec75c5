//! The theorems of the mathematics, for every kind of field: each stands in the contract of a function with an empty body.
#![tactic(auto)]

ghost use Rattle.fpl_numbers.specs.declared.number.Kind.{Kind};
ghost use Rattle.fpl_numbers.specs.Kinds.{field_of};
ghost use Rattle.math_theorems.specs.Linear.{ClosesReduced, FreeRowsSolve, KernelOfRows, OneClosedList, OneReduced, PutSpansMore, ReducedIsClosed, ReducesToZero, SomeClosedList, SpansAreOne, SweepsInSpan, SweepsPivots, SweepsToZero};
ghost use Rattle.math_theorems.specs.Values.{CubesInParts, CubesModuloThree, DerivesOverP, EvenSquaresAreZero, ExchangeInParts, JacobiInParts, OddCubesAreZero, OrderedTriplesSuffice, ParityAsWritten, ParityIsTested, SquaresInParts, ValuesInParts, ValuesRespectDerivation, VoidIsZero, WeightBoundsTop};
ghost use Rattle.math_theorems.specs.Examples.{OddSquareIsFree, PairIsFree, ZeroBracketsFail};
ghost use Rattle.math_theorems.specs.Standard.{AgreeingIsBuilt, BuiltIsStandard, BuiltObeys, ClosedRowsAreZero, ClosedRowsBuild, Headline, ImagesPastAreZero, LowerIsBuilt, OneStandard, RowsAreZero, SomeStandard, StandardIsBuilt, StandardIsSound};

/// Closed lists: what finitely many rows span has exactly one, and sweeping by it leaves 0 exactly in the span.
pub fn closed_lists()
    ensures spans { (k : Kind) → SpansAreOne (field_of k) }
    ensures zero { (k : Kind) → SweepsToZero (field_of k) }
    ensures rest { (k : Kind) → SweepsInSpan (field_of k) }
    ensures pivots { (k : Kind) → SweepsPivots (field_of k) }
    ensures some { (k : Kind) → SomeClosedList (field_of k) }
    ensures one { (k : Kind) → OneClosedList (field_of k) }
{}

/// Echelons: reducing, putting a row in, closing, and the one reduced form of a span.
pub fn echelons()
    ensures zero { (k : Kind) → ReducesToZero (field_of k) }
    ensures put { (k : Kind) → PutSpansMore (field_of k) }
    ensures close { (k : Kind) → ClosesReduced (field_of k) }
    ensures one { (k : Kind) → OneReduced (field_of k) }
    ensures list { (k : Kind) → ReducedIsClosed (field_of k) }
{}

/// Kernels: the solutions of a reduced echelon, and of any rows with its span.
pub fn kernels()
    ensures solutions { (k : Kind) → FreeRowsSolve (field_of k) }
    ensures rows { (k : Kind) → KernelOfRows (field_of k) }
{}

/// Derivability and values: a table that obeys the law gives one value to what is derivably equal, in the part of its parity, and ordered triples suffice
/// for the Jacobi identity.
pub fn values()
    ensures over { (k : Kind) → DerivesOverP (field_of k) }
    ensures one_value { (k : Kind) → ValuesRespectDerivation (field_of k) }
    ensures parts { (k : Kind) → ValuesInParts (field_of k) }
    ensures void { (k : Kind) → VoidIsZero (field_of k) }
    ensures triples { (k : Kind) → OrderedTriplesSuffice (field_of k) }
    ensures cubes { (k : Kind) → CubesModuloThree k }
{}

/// The axioms for all vectors with a parity, in each characteristic: it is enough that the law holds at basis elements.
pub fn vectors()
    ensures exchange { (k : Kind) → ExchangeInParts (field_of k) }
    ensures jacobi { (k : Kind) → JacobiInParts (field_of k) }
    ensures squares { (k : Kind) → SquaresInParts (field_of k) }
    ensures cubes { (k : Kind) → CubesInParts (field_of k) }
{}

/// Squares of even expressions and cubes of odd ones are derivably 0, in each characteristic.
pub fn squares_and_cubes()
    ensures squares { (k : Kind) → EvenSquaresAreZero (field_of k) }
    ensures cubes { (k : Kind) → OddCubesAreZero (field_of k) }
{}

/// Weights and parities as written: they bound the greatest written weight, and are parities that the expression has; a test for these.
pub fn degrees()
    ensures weight { (k : Kind) → WeightBoundsTop (field_of k) }
    ensures parity { (k : Kind) → ParityAsWritten (field_of k) }
    ensures test { (k : Kind) → ParityIsTested (field_of k) }
{}

/// Built tables: they obey the law, and give equal values exactly where derivably equal.
pub fn built_tables()
    ensures law { (k : Kind) → BuiltObeys (field_of k) }
    ensures headline { (k : Kind) → Headline (field_of k) }
    ensures past { (k : Kind) → ImagesPastAreZero (field_of k) }
    ensures next { (k : Kind) → ClosedRowsBuild (field_of k) }
    ensures lower { (k : Kind) → LowerIsBuilt (field_of k) }
    ensures agreeing { (k : Kind) → AgreeingIsBuilt (field_of k) }
{}

/// The standard table: the built tables are those that meet its definition, there is exactly one through each weight, and what it says is derivable.
pub fn standard_table()
    ensures built { (k : Kind) → BuiltIsStandard (field_of k) }
    ensures back { (k : Kind) → StandardIsBuilt (field_of k) }
    ensures some { (k : Kind) → SomeStandard (field_of k) }
    ensures one { (k : Kind) → OneStandard (field_of k) }
    ensures sound { (k : Kind) → StandardIsSound (field_of k) }
{}

/// Rows: over the symbols of a weight, what is derivably 0 is exactly what the source rows span, and what closed rows of them span.
pub fn rows()
    ensures sources { (k : Kind) → RowsAreZero (field_of k) }
    ensures closed { (k : Kind) → ClosedRowsAreZero (field_of k) }
{}

/// Small presentations, whose answers show that the definitions mean something: of two even generators the bracket isn't 0; of an odd generator the square
/// isn't 0; and a table with every bracket 0 isn't the standard one.
pub fn small_presentations()
    ensures pair { (k : Kind) → PairIsFree (field_of k) }
    ensures odd_square { (k : Kind) → OddSquareIsFree (field_of k) }
    ensures zero_table { (k : Kind) → ZeroBracketsFail (field_of k) }
{}
