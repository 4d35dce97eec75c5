//! The plain run stands for the mathematics: what it gives for rows, brackets, values and source rows is what the table over its field has.
#![tactic(auto)]

ghost use Rattle.std.specs.Prelude.{ℕ};
ghost use Rattle.fpl_numbers.specs.Numbers.{IsField};
ghost use Rattle.fpl_numbers.specs.declared.number.Kind.{Kind};
ghost use Rattle.fpl_model.specs.declared.presentation.Presentation.{Presentation};
ghost use Rattle.fpl_table.specs.Plain.{PlainTable};
ghost use Rattle.plain_sources.specs.RowLaws.{AddAtStands, AddRowStands, AxpyStands, NegativesStand, ScaleStands, UnitMultiples, ZeroRowStands};
ghost use Rattle.plain_sources.specs.TableLaws.{BracketStands, OriginRowsStand, OriginsAreSources, RowsOfShape, SourcesAreOrigins, ValueStands, WeightsOfBuilt, WeightsOfLaw, WeightsOfTable};
ghost use Rattle.plain_sources.specs.Late.{LateComeLast, LateFollow};
ghost use Rattle.plain_sources.specs.PrimeLaws.{AddAtFits, AddRowFits, AxpyFits, BracketFits, OriginRowFits, ScaleFits, ValueFits};

/// Rows of numbers: where the operations on them fit, they are those on vectors.
pub fn plain_rows()
    ensures zero { (k : Kind) → IsField k → ZeroRowStands k }
    ensures at { (k : Kind) → IsField k → AddAtStands k }
    ensures units { (k : Kind) → IsField k → UnitMultiples k }
    ensures sum { (k : Kind) → IsField k → AddRowStands k }
    ensures axpy { (k : Kind) → IsField k → AxpyStands k }
    ensures multiple { (k : Kind) → IsField k → ScaleStands k }
    ensures negatives { (k : Kind) → IsField k → NegativesStand k }
{}

/// What tables in plain numbers meet: rows have their lengths, and weights are right.
pub fn plain_tables()
    ensures rows { (T : PlainTable) → RowsOfShape T }
    ensures law { (p : Presentation) → WeightsOfLaw p }
    ensures built { (p : Presentation) → WeightsOfBuilt p }
    ensures standard { (p : Presentation) → WeightsOfTable p }
{}

/// Brackets and values: where the plain run fits, it gives those of the table over the field.
pub fn plain_values()
    ensures bracket { (p : Presentation) → BracketStands p }
    ensures value { (p : Presentation) → ValueStands p }
{}

/// Source rows: the rows of the origins of a weight are exactly its source rows.
pub fn source_rows()
    ensures rows { (p : Presentation) → OriginRowsStand p }
    ensures sources { (p : Presentation) → OriginsAreSources p }
    ensures origins { (p : Presentation) → SourcesAreOrigins p }
{}

/// Triples behind the last generator come last, and over a prime other than 3 their rows follow from those before.
pub fn late_triples()
    ensures last { (p : Presentation) → LateComeLast p }
    ensures follow { (p : Presentation) → LateFollow p }
{}

/// Over a prime nothing is refused.
pub fn prime_fields()
    ensures at { (p : ℕ) → AddAtFits p }
    ensures sum { (p : ℕ) → AddRowFits p }
    ensures axpy { (p : ℕ) → AxpyFits p }
    ensures multiple { (p : ℕ) → ScaleFits p }
    ensures bracket { (p : ℕ) → BracketFits p }
    ensures value { (p : ℕ) → ValueFits p }
    ensures origin { (p : ℕ) → OriginRowFits p }
{}
