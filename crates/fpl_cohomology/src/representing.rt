//! What represents H1 and H2 of a weight.
ghost use Rattle.std.specs.Prelude.{◌≡◌, ◌≤◌, length, map, IfOk};
ghost use Rattle.fpl_model.specs.declared.presentation.Presentation.{Presentation};
ghost use Rattle.fpl_model.specs.Meaning.{presentation_in};
ghost use Rattle.fpl_model.specs.Sound.{IsSound};
ghost use Rattle.fpl_numbers.specs.Kinds.{field_of};
ghost use Rattle.fpl_numbers.specs.Results.{GivesBy};
ghost use Rattle.math_algebra.specs.Table.{ObeysLaw};
ghost use Rattle.fpl_table.specs.Plain.{table_in};
ghost use Rattle.plain_sources.specs.Premises.{IsTableFor};
ghost use Rattle.plain_spans.specs.Plain.{kernel_of};
ghost use Rattle.plain_cohomology.specs.Plain.{pairs, triples, triple_row, h1_of, cocycles_of, coboundaries_of, low_of};
ghost use Rattle.plain_cohomology.specs.Means.{RepresentsLow};
ghost use Rattle.fpl_cohomology.specs.Rows.{AreTuplesOf, low_as};

use crate::chosen::chosen;
use crate::put::{form_all, put_brackets, put_coboundaries, put_triples};
use crate::represented::Low;
use crate::tuples::Tuples;
use fpl_echelon::{Span, kernel_of_span};
use fpl_rows::Rows;
use fpl_scalar::{Fault, Field};
use fpl_steps::Steps;
use fpl_table::Table;
use std::alloc::Global;
use std::sync::ledger::Ledger;

/// Closed rows of the 1-cocycles. A 1-form has no coboundary below it.
fn first<F: Field, L: Ledger>(
    alloc: Global,
    table: &Table<F>,
    tuples: &Tuples,
    steps: &mut Steps<L>,
) -> Result<Rows<F>, Fault>
    requires { AreTuplesOf table.now tuples.now }
    ensures value { GivesBy (λ rows. rows) result (h1_of table.now tuples.now.weight) }
    ensures rises { steps.old ≤ steps.new }
{
    let mut span = Span::start(alloc, *table.field(), tuples.singles.len() as u32)?;
    put_brackets(alloc, table, tuples, &mut span, steps)?;
    kernel_of_span(alloc, *table.field(), span, steps)
}

/// Closed rows of what each row of a triple takes to 0. The rows are put in one by one, and none
/// is kept.
fn kernel_of_triples<F: Field, L: Ledger>(
    alloc: Global,
    table: &Table<F>,
    tuples: &Tuples,
    steps: &mut Steps<L>,
) -> Result<Rows<F>, Fault>
    requires { AreTuplesOf table.now tuples.now }
    ensures value { GivesBy (λ rows. rows) result (kernel_of table.now.kind (length (pairs table.now tuples.now.weight))
        (map (triple_row table.now tuples.now.weight) (triples table.now tuples.now.weight))) }
    ensures rises { steps.old ≤ steps.new }
{
    let mut span = Span::start(alloc, *table.field(), tuples.pairs.len())?;
    put_triples(alloc, table, tuples, &mut span, steps)?;
    kernel_of_span(alloc, *table.field(), span, steps)
}

/// Closed rows of the 2-cocycles.
fn cocycles<F: Field, L: Ledger>(
    alloc: Global,
    table: &Table<F>,
    tuples: &Tuples,
    steps: &mut Steps<L>,
) -> Result<Rows<F>, Fault>
    requires { AreTuplesOf table.now tuples.now }
    ensures value { GivesBy (λ rows. rows) result (cocycles_of table.now tuples.now.weight) }
    ensures rises { steps.old ≤ steps.new }
{
    form_all(alloc, table, tuples)?;
    kernel_of_triples(alloc, table, tuples, steps)
}

/// Closed rows of the coboundaries of 1-forms.
fn coboundaries<F: Field, L: Ledger>(
    alloc: Global,
    table: &Table<F>,
    tuples: &Tuples,
    steps: &mut Steps<L>,
) -> Result<Rows<F>, Fault>
    requires { AreTuplesOf table.now tuples.now }
    ensures value { GivesBy (λ rows. rows) result (coboundaries_of table.now tuples.now.weight) }
    ensures rises { steps.old ≤ steps.new }
{
    let mut span = Span::start(alloc, *table.field(), tuples.pairs.len())?;
    put_coboundaries(alloc, table, tuples, &mut span, steps)?;
    span.close()
}

/// What represents H1 and H2 in weight `w`, from 1 to the table's weight: closed 1-cocycles, and
/// those closed 2-cocycles whose pivot is no pivot of the closed coboundaries. Each cocycle is a
/// combination of them plus a coboundary, in one way only.
/// `Unfit` is the first operation that does not fit: H1 comes before H2, the cocycles before the
/// coboundaries, and all rows of triples are formed before one is put in.
pub fn low<F: Field, L: Ledger>(
    alloc: Global,
    table: &Table<F>,
    w: u32,
    steps: &mut Steps<L>,
) -> Result<Low<F>, Fault>
    requires { (1 ≤ w) × (w ≤ table.now.weight) }
    ensures value { GivesBy (λ low. low_as low.h1 low.h2) result (low_of table.now w) }
    ensures weight { IfOk result (λ low. low.weight ≡ w) }
    ensures means { (p : Presentation) → IsSound p → IsTableFor p table.now → ObeysLaw (field_of p.field) (presentation_in p) (table_in p.field table.now) →
        IfOk result (λ low. RepresentsLow p.field table.now w (low_as low.h1 low.h2)) }
    ensures rises { steps.old ≤ steps.new }
{
    let tuples = Tuples::of(alloc, table, w)?;
    let h1 = first(alloc, table, &tuples, steps)?;
    let cocycles = cocycles(alloc, table, &tuples, steps)?;
    let coboundaries = coboundaries(alloc, table, &tuples, steps)?;
    let h2 = chosen(alloc, &cocycles, &coboundaries)?;
    Ok(Low { weight: w, h1, h2 })
}
