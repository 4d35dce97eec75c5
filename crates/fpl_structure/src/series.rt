//! The lower central series.
ghost use Rattle.std.specs.Prelude.{◌≡◌, ◌≤◌, List, length, All, IfOk};
ghost use Rattle.fpl_numbers.specs.declared.number.Num.{Num};
ghost use Rattle.fpl_numbers.specs.Results.{GivesBy};
ghost use Rattle.fpl_rows.specs.Meaning.{AreRows};
ghost use Rattle.fpl_model.specs.declared.presentation.Presentation.{Presentation};
ghost use Rattle.plain_tables.specs.Holds.{Holds};
ghost use Rattle.plain_structure.specs.Plain.{units_to, next_term, lower_central_of};
ghost use Rattle.plain_structure.specs.Means.{AreTerms};

use crate::acting::unit;
use crate::brackets::put_bracket_rows;
use crate::spaces::Spaces;
use fpl_echelon::Span;
use fpl_rows::Rows;
use fpl_scalar::{Fault, Field};
use fpl_steps::Steps;
use fpl_table::Table;
use std::alloc::{AllocError, Global};
use std::sync::ledger::Ledger;

/// 1 at each position in turn.
fn units<F: Field>(alloc: Global, table: &Table<F>) -> Result<Rows<F>, AllocError>
    ensures value { IfOk result (λ rows. rows ≡ units_to (length table.now.basis) (length table.now.basis)) }
    ensures rows { IfOk result (λ rows. AreRows table.now.kind (length table.now.basis) rows) }
{
    let mut rows = Rows::new(alloc);
    for i in 0..table.basis_len() {
        rows.push(unit(alloc, table, i + 1)?)?;
    }
    Ok(rows)
}

/// What the brackets with the rows span, closed.
fn next_term<F: Field, L: Ledger>(
    alloc: Global,
    table: &Table<F>,
    rows: &Rows<F>,
    steps: &mut Steps<L>,
) -> Result<Rows<F>, Fault>
    requires rows { AreRows table.now.kind (length table.now.basis) rows.now }
    ensures value { GivesBy (λ (next : List (List Num)). next) result (next_term table.now rows.now) }
    ensures rows { IfOk result (λ next. AreRows table.now.kind (length table.now.basis) next) }
    ensures rises { steps.old ≤ steps.new }
{
    let mut span = Span::start(alloc, *table.field(), table.basis_len())?;
    match put_bracket_rows(alloc, table, rows, &mut span, steps) {
        Ok(()) => span.close(),
        Err(fault) => Err(fault),
    }
}

/// The terms of the lower central series, each by its closed rows: the whole table, then what the
/// brackets of the table with the term before span, to the first that is 0, which stands last.
///
/// `Unfit` is the first operation that does not fit; over a prime there is none.
pub fn lower_central<F: Field, L: Ledger>(
    alloc: Global,
    table: &Table<F>,
    steps: &mut Steps<L>,
) -> Result<Spaces<F>, Fault>
    ensures value { GivesBy (λ (terms : List (List (List Num))). terms) result (lower_central_of table.now) }
    ensures rows { IfOk result (λ terms. All (AreRows table.now.kind (length table.now.basis)) terms) }
    ensures means { (p : Presentation) → Holds p table.now → IfOk result (λ terms. AreTerms p.field table.now 0 terms) }
    ensures rises { steps.old ≤ steps.new }
{
    let mut terms = Spaces::new(alloc);
    let mut rows = units(alloc, table)?;
    for _ in 0..table.weight() {
        if rows.len() == 0 {
            terms.push(rows)?;
            return Ok(terms);
        }
        match next_term(alloc, table, &rows, steps) {
            Ok(next) => {
                terms.push(rows)?;
                rows = next;
            }
            Err(fault) => return Err(fault),
        }
    }
    terms.push(rows)?;
    Ok(terms)
}
