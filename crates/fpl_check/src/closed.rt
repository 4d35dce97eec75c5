ghost use Rattle.std.specs.Prelude.{◌≡◌, ◌+◌, ◌<◌, ◌^◌, ◌++◌, ◌∷◌, [], true, if◌then◌else◌, length, All, IfOk, OnOk, map, option_map, slice_get, Ok};
ghost use Rattle.fpl_rows.specs.Meaning.{AreRows, IsClosedList};
ghost use Rattle.fpl_table.specs.Plain.{symbols_in};
ghost use Rattle.fpl_check.specs.Refusal.{GivesCheck, passing};
ghost use Rattle.fpl_check.specs.Premises.{IsSectionFor, AreCoefficientsOf};
ghost use Rattle.fpl_check.specs.ClosedRows.{close_count, test_closes, is_formed, stored_row, close_rows, test_at, test_conclusions, test_leads, test_apart};
ghost use Rattle.fpl_check.specs.Steps.{is_close};
ghost use Rattle.fpl_check.specs.Check.{rows_stored, test_closed};

use crate::leads::{test_apart, test_leads};
use crate::stored::{test_forms, test_same};
use crate::{CheckFault, Spot, Why};
use fpl_log::{ClosedList, Section, Step, StepList};
use fpl_rows::{Row, Rows};
use fpl_scalar::Field;
use fpl_table::Table;
use std::alloc::{AllocError, Global};

fn count_closes(steps: &StepList) -> u64
    ensures value { result ≡ close_count steps.now }
    ensures range { close_count steps.now < 2 ^ 63 }
{
    let mut closes = 0;
    for i in 0..steps.len() {
        if is_close(steps, i) {
            closes += 1;
        }
    }
    closes
}

/// Tests that there are as many Close steps as closed rows.
fn test_closes(section: &Section) -> Result<(), CheckFault>
    ensures { GivesCheck (λ done. done) result (test_closes section.now) }
{
    let closes = count_closes(&section.steps);
    let rows = section.closed.len() as u64;
    if closes == rows {
        return Ok(());
    }
    Err(CheckFault::Bad {
        spot: Spot::Whole,
        why: Why::Count { closes, rows },
    })
}

fn is_close(steps: &StepList, i: usize) -> bool
    ensures { result ≡ is_close (slice_get steps.now i) }
{
    match steps.get(i) {
        None => false,
        Some(Step::Insert { .. }) => false,
        Some(Step::Close { .. }) => true,
    }
}

/// Puts the conclusion of step `i`, counted from 0, last, if that is a Close step.
fn keep_close<F: Field>(
    rows: &mut Rows<F>,
    steps: &StepList,
    i: usize,
    conclusion: Row<F>,
) -> Result<(), AllocError>
    ensures { OnOk result (rows.new ≡ (if is_close (slice_get steps.now i) then rows.old ++ conclusion ∷ [] else rows.old)) }
{
    if is_close(steps, i) {
        rows.push(conclusion)?;
    }
    Ok(())
}

/// The conclusions of the Close steps, in order. The others are dropped.
fn close_rows<F: Field>(
    alloc: Global,
    steps: &StepList,
    conclusions: Vec<Row<F>>,
) -> Result<Rows<F>, AllocError>
    ensures { IfOk result (λ rows. rows ≡ close_rows steps.now conclusions.items) }
{
    let mut rows = Rows::new(alloc);
    let mut i = 0;
    for conclusion in conclusions {
        keep_close(&mut rows, steps, i, conclusion)?;
        i += 1;
    }
    Ok(rows)
}

/// Tests that closed row `k`, counted from 0, is a conclusion, where there are both.
fn test_conclusion<F: Field>(
    field: &F,
    n: u32,
    closed: &ClosedList,
    conclusions: &Rows<F>,
    k: usize,
) -> Result<(), CheckFault>
    requires few { length closed.now < 2 ^ 32 }
    requires formed { All (λ row. is_formed n 0 row ≡ true) closed.now }
    requires coefficients { All (AreCoefficientsOf (F.kind_of field.now)) closed.now }
    requires conclusions { AreRows (F.kind_of field.now) n conclusions.now }
    ensures { GivesCheck (λ done. done) result (test_at (k + 1) (option_map (stored_row n) (slice_get closed.now k)) (slice_get conclusions.now k)) }
{
    match (closed.get(k), conclusions.get(k)) {
        (Some(stored), Some(concluded)) => test_same(field, n, k as u32 + 1, stored, concluded),
        _ => Ok(()),
    }
}

/// Tests that each closed row is the conclusion of its Close step.
fn test_conclusions<F: Field>(
    field: &F,
    n: u32,
    closed: &ClosedList,
    conclusions: &Rows<F>,
) -> Result<(), CheckFault>
    requires few { length closed.now < 2 ^ 32 }
    requires formed { All (λ row. is_formed n 0 row ≡ true) closed.now }
    requires coefficients { All (AreCoefficientsOf (F.kind_of field.now)) closed.now }
    requires conclusions { AreRows (F.kind_of field.now) n conclusions.now }
    ensures { GivesCheck (λ done. done) result (test_conclusions 1 (map (stored_row n) closed.now) conclusions.now) }
{
    for k in 0..closed.len() {
        match test_conclusion(field, n, closed, conclusions, k) {
            Ok(()) => {}
            Err(fault) => return Err(fault),
        }
    }
    Ok(())
}

/// Tests that the rows are closed.
fn test_rows<F: Field>(alloc: Global, field: &F, n: u32, rows: &Rows<F>) -> Result<(), CheckFault>
    requires rows { AreRows (F.kind_of field.now) n rows.now }
    requires few { length rows.now < 2 ^ 32 }
    ensures value { GivesCheck (λ done. done) result (passing (test_leads 1 0 rows.now) (test_apart 1 rows.now rows.now)) }
    ensures closed { IfOk result (λ done. IsClosedList (F.kind_of field.now) n rows.now) }
{
    match test_leads(field, n, rows) {
        Ok(()) => test_apart(alloc, field, n, rows),
        Err(fault) => Err(fault),
    }
}

/// Tests the closed rows against the conclusions of all steps, and gives them as rows over the
/// weight's symbols: those that pass are the conclusions of the Close steps.
pub fn closed_rows<F: Field>(
    alloc: Global,
    table: &Table<F>,
    n: u32,
    section: &Section,
    conclusions: Rows<F>,
) -> Result<Rows<F>, CheckFault>
    requires symbols { n ≡ length (symbols_in table.now) }
    requires section { IsSectionFor table.now section.now }
    requires conclusions { AreRows table.now.kind (length (symbols_in table.now)) conclusions }
    requires whole { length conclusions ≡ length section.now.steps }
    ensures value { GivesCheck (λ rows. rows) result (passing (test_closed table.now section.now conclusions) (Ok (rows_stored table.now section.now))) }
    ensures closed { IfOk result (λ rows. IsClosedList table.now.kind (length (symbols_in table.now)) rows) }
{
    let field = table.field();
    match test_closes(section) {
        Ok(()) => {}
        Err(fault) => return Err(fault),
    }
    match test_forms(n, &section.closed) {
        Ok(()) => {}
        Err(fault) => return Err(fault),
    }
    let rows = match close_rows(alloc, &section.steps, conclusions.into_vec()) {
        Ok(rows) => rows,
        Err(_) => return Err(CheckFault::NoMemory),
    };
    match test_conclusions(field, n, &section.closed, &rows) {
        Ok(()) => {}
        Err(fault) => return Err(fault),
    }
    match test_rows(alloc, field, n, &rows) {
        Ok(()) => Ok(rows),
        Err(fault) => Err(fault),
    }
}
