//! Ideals.
ghost use Rattle.std.specs.Prelude.{◌≡◌, ◌≤◌, ◌<◌, ◌^◌, List, length, map, All, IfOk};
ghost use Rattle.math_linear.specs.Span.{IsRowOf as IsAmong};
ghost use Rattle.math_structure.specs.Structure.{InIdeal};
ghost use Rattle.fpl_numbers.specs.declared.number.Num.{Num};
ghost use Rattle.fpl_numbers.specs.Kinds.{field_of};
ghost use Rattle.fpl_numbers.specs.Results.{GivesBy};
ghost use Rattle.fpl_rows.specs.Meaning.{AreRows};
ghost use Rattle.fpl_model.specs.declared.presentation.Presentation.{Presentation};
ghost use Rattle.fpl_model.specs.Meaning.{plain};
ghost use Rattle.fpl_model.specs.Sound.{IsTerm, IsWithin, HaveWeights, count_tree};
ghost use Rattle.fpl_table.specs.Plain.{table_in};
ghost use Rattle.fpl_table.specs.Shape.{Agrees};
ghost use Rattle.fpl_table.specs.Value.{value_of};
ghost use Rattle.plain_spans.specs.Plain.{span_of};
ghost use Rattle.plain_tables.specs.Holds.{Holds};
ghost use Rattle.plain_structure.specs.Plain.{round_of, ideal_of};
ghost use Rattle.plain_structure.specs.Means.{AreRowsOf, start_in};

use crate::brackets::put_bracket_rows;
use fpl_echelon::Span;
use fpl_model::{Exprs, Presentation};
use fpl_rows::Rows;
use fpl_scalar::{Fault, Field};
use fpl_steps::Steps;
use fpl_table::Table;
use std::alloc::Global;
use std::sync::ledger::Ledger;

/// What the values of the elements span, closed.
fn spanned<F: Field, L: Ledger>(
    alloc: Global,
    table: &Table<F>,
    p: &Presentation,
    elements: &Exprs,
    steps: &mut Steps<L>,
) -> Result<Rows<F>, Fault>
    requires agrees { Agrees table.now p.now }
    requires weights { HaveWeights p.now.generators }
    requires terms { All (λ e. IsTerm p.now.field (length p.now.generators) (plain e)) elements.now }
    requires few { All (λ e. count_tree (plain e) < 2 ^ 40) elements.now }
    ensures value { GivesBy (λ (rows : List (List Num)). rows) result (span_of table.now.kind (length table.now.basis)
        (map (value_of table.now) (map plain elements.now))) }
    ensures rows { IfOk result (λ rows. AreRows table.now.kind (length table.now.basis) rows) }
    ensures rises { steps.old ≤ steps.new }
{
    let mut span = Span::start(alloc, *table.field(), table.basis_len())?;
    for element in elements.as_slice() {
        let row = match table.value(alloc, p, element) {
            Ok(row) => row,
            Err(fault) => return Err(fault),
        };
        match span.put(&row, steps) {
            Ok(()) => {}
            Err(fault) => return Err(fault),
        }
    }
    span.close()
}

/// What the rows and the brackets with them span, closed.
fn round<F: Field, L: Ledger>(
    alloc: Global,
    table: &Table<F>,
    rows: &Rows<F>,
    steps: &mut Steps<L>,
) -> Result<Rows<F>, Fault>
    requires rows { AreRows table.now.kind (length table.now.basis) rows.now }
    ensures value { GivesBy (λ (next : List (List Num)). next) result (round_of table.now rows.now) }
    ensures rows { IfOk result (λ next. AreRows table.now.kind (length table.now.basis) next) }
    ensures rises { steps.old ≤ steps.new }
{
    let mut span = Span::start(alloc, *table.field(), table.basis_len())?;
    match span.put_all(rows, steps) {
        Ok(()) => {}
        Err(fault) => return Err(fault),
    }
    match put_bracket_rows(alloc, table, rows, &mut span, steps) {
        Ok(()) => span.close(),
        Err(fault) => Err(fault),
    }
}

/// The closed rows of the ideal that the elements generate: the least subspace that holds their
/// values and is closed under bracket with the table.
///
/// `Unfit` is the first operation that does not fit; over a prime there is none.
pub fn ideal<F: Field, L: Ledger>(
    alloc: Global,
    table: &Table<F>,
    p: &Presentation,
    elements: &Exprs,
    steps: &mut Steps<L>,
) -> Result<Rows<F>, Fault>
    requires agrees { Agrees table.now p.now }
    requires weights { HaveWeights p.now.generators }
    requires terms { All (λ e. IsTerm p.now.field (length p.now.generators) (plain e)) elements.now }
    requires few { All (λ e. count_tree (plain e) < 2 ^ 40) elements.now }
    ensures value { GivesBy (λ (rows : List (List Num)). rows) result (ideal_of table.now (map plain elements.now)) }
    ensures rows { IfOk result (λ rows. AreRows table.now.kind (length table.now.basis) rows) }
    ensures means { Holds p.now table.now → All (IsWithin p.now.field (length p.now.generators)) (map plain elements.now) →
        IfOk result (λ rows. AreRowsOf p.now.field table.now rows (InIdeal (field_of p.now.field) (table_in p.now.field table.now)
        (IsAmong (field_of p.now.field) (length (map plain elements.now)) (start_in p.now.field table.now (map plain elements.now))))) }
    ensures rises { steps.old ≤ steps.new }
{
    let mut rows = match spanned(alloc, table, p, elements, steps) {
        Ok(rows) => rows,
        Err(fault) => return Err(fault),
    };
    for _ in 0..u64::from(table.basis_len()) + 1 {
        match round(alloc, table, &rows, steps) {
            Ok(next) => {
                if next.len() == rows.len() {
                    return Ok(next);
                }
                rows = next;
            }
            Err(fault) => return Err(fault),
        }
    }
    Ok(rows)
}
