//! Rows of forms that are put into an elimination one by one.
ghost use Rattle.std.specs.Prelude.{◌≡◌, ◌≤◌, length, map, Ok, OnOk, IsErrOf};
ghost use Rattle.fpl_numbers.specs.Results.{Gives, IsFault};
ghost use Rattle.plain_spans.specs.Plain.{put_rows};
ghost use Rattle.plain_spans.specs.Means.{AreAllFormed};
ghost use Rattle.plain_cohomology.specs.Plain.{singles, pairs, triples, bracket_row, coboundary_row, triple_row, all_of};
ghost use Rattle.fpl_cohomology.specs.Rows.{AreTuplesOf};

use crate::rows::{bracket_row, coboundary_row, triple_row};
use crate::tuples::Tuples;
use fpl_echelon::Span;
use fpl_scalar::{Fault, Field, Kind};
use fpl_steps::Steps;
use fpl_table::Table;
use std::alloc::Global;
use std::sync::ledger::Ledger;

/// Puts in the bracket row of each pair.
pub(crate) fn put_brackets<F: Field, L: Ledger>(
    alloc: Global,
    table: &Table<F>,
    tuples: &Tuples,
    span: &mut Span<F>,
    steps: &mut Steps<L>,
) -> Result<(), Fault>
    requires tuples { AreTuplesOf table.now tuples.now }
    requires kind { span.old.kind ≡ table.now.kind }
    requires size { span.old.size ≡ length (singles table.now tuples.now.weight) }
    ensures value { Gives result span.new (put_rows (map (λ x. Ok (bracket_row table.now tuples.now.weight x)) (pairs table.now tuples.now.weight)) span.old) }
    ensures kind { span.new.kind ≡ span.old.kind }
    ensures size { span.new.size ≡ span.old.size }
    ensures rises { steps.old ≤ steps.new }
{
    for s in 0..tuples.pairs.len() {
        let row = bracket_row(alloc, table, tuples, tuples.pairs.get(s))?;
        match span.put(&row, steps) {
            Ok(()) => {}
            Err(fault) => return Err(fault),
        }
    }
    Ok(())
}

/// Puts in the coboundary of the form that is 1 at each of the places, from 0.
pub(crate) fn put_coboundaries<F: Field, L: Ledger>(
    alloc: Global,
    table: &Table<F>,
    tuples: &Tuples,
    span: &mut Span<F>,
    steps: &mut Steps<L>,
) -> Result<(), Fault>
    requires tuples { AreTuplesOf table.now tuples.now }
    requires kind { span.old.kind ≡ table.now.kind }
    requires size { span.old.size ≡ length (pairs table.now tuples.now.weight) }
    ensures value { Gives result span.new
        (put_rows (map (λ e. Ok (coboundary_row table.now tuples.now.weight e)) (singles table.now tuples.now.weight)) span.old) }
    ensures kind { span.new.kind ≡ span.old.kind }
    ensures size { span.new.size ≡ span.old.size }
    ensures rises { steps.old ≤ steps.new }
{
    for k in 0..tuples.singles.len() {
        let row = coboundary_row(alloc, table, tuples, tuples.singles[k])?;
        match span.put(&row, steps) {
            Ok(()) => {}
            Err(fault) => return Err(fault),
        }
    }
    Ok(())
}

/// Forms the row of each triple over fractions, so that the first sum that does not fit is found
/// before a row is put in. Over a prime each sum fits.
pub(crate) fn form_all<F: Field>(
    alloc: Global,
    table: &Table<F>,
    tuples: &Tuples,
) -> Result<(), Fault>
    requires tuples { AreTuplesOf table.now tuples.now }
    ensures formed { OnOk result (AreAllFormed (map (triple_row table.now tuples.now.weight) (triples table.now tuples.now.weight))) }
    ensures fault { (fault : Fault) → IsErrOf result fault →
        IsFault fault (all_of (map (triple_row table.now tuples.now.weight) (triples table.now tuples.now.weight))) }
{
    match table.field().kind() {
        Kind::Prime(_) => return Ok(()),
        Kind::Rational => {}
    }
    for k in 0..tuples.triples.len() {
        match triple_row(alloc, table, tuples, tuples.triples[k]) {
            Ok(_) => {}
            Err(fault) => return Err(fault),
        }
    }
    Ok(())
}

/// Puts in the row of each triple.
pub(crate) fn put_triples<F: Field, L: Ledger>(
    alloc: Global,
    table: &Table<F>,
    tuples: &Tuples,
    span: &mut Span<F>,
    steps: &mut Steps<L>,
) -> Result<(), Fault>
    requires tuples { AreTuplesOf table.now tuples.now }
    requires kind { span.old.kind ≡ table.now.kind }
    requires size { span.old.size ≡ length (pairs table.now tuples.now.weight) }
    ensures value { Gives result span.new (put_rows (map (triple_row table.now tuples.now.weight) (triples table.now tuples.now.weight)) span.old) }
    ensures kind { span.new.kind ≡ span.old.kind }
    ensures size { span.new.size ≡ span.old.size }
    ensures rises { steps.old ≤ steps.new }
{
    for k in 0..tuples.triples.len() {
        match triple_row(alloc, table, tuples, tuples.triples[k]) {
            Ok(row) => match span.put(&row, steps) {
                Ok(()) => {}
                Err(fault) => return Err(fault),
            },
            Err(fault) => return Err(fault),
        }
    }
    Ok(())
}
