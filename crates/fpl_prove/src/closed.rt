//! The closed rows of a section, as rows and as what is 0.
ghost use Rattle.std.specs.Prelude.{◌≡◌, ◌++◌, ◌∷◌, [], length, map, All, IfOk, OnOk, slice_get, if◌then◌else◌};
ghost use Rattle.fpl_numbers.specs.Numbers.{residue};
ghost use Rattle.fpl_rows.specs.Meaning.{pivot_of};
ghost use Rattle.fpl_check.specs.Steps.{is_close};
ghost use Rattle.fpl_check.specs.ClosedRows.{stored_in, stored_row};
ghost use Rattle.fpl_check.specs.Premises.{AreCoefficientsOf};
ghost use Rattle.fpl_prove.specs.Learning.{close_facts, IsWithinRow};

use fpl_forms::Fact;
use fpl_log::{ClosedList, ClosedRow, Step, StepList};
use fpl_rows::{Row, Rows};
use fpl_scalar::{Field, Residue};
use std::alloc::{AllocError, Global};

fn is_close(steps: &StepList, i: usize) -> bool
    ensures { result ≡ is_close (slice_get steps.now i) }
{
    match steps.get(i) {
        None => false,
        Some(Step::Insert { .. }) => false,
        Some(Step::Close { .. }) => true,
    }
}

/// Puts the fact of step `i`, counted from 0, last, if that is a Close step.
fn keep_close(
    facts: &mut Vec<Fact>,
    steps: &StepList,
    i: usize,
    fact: Fact,
) -> Result<(), AllocError>
    ensures { OnOk result (facts.new.items ≡ (if is_close (slice_get steps.now i) then facts.old.items ++ fact ∷ [] else facts.old.items)) }
{
    if is_close(steps, i) {
        facts.push(fact)?;
    }
    Ok(())
}

/// The facts of the Close steps, in order, of one for each step. The others are dropped.
pub(crate) fn close_zeros(
    alloc: Global,
    steps: &StepList,
    zeros: Vec<Fact>,
) -> Result<Vec<Fact>, AllocError>
    ensures { IfOk result (λ fs. fs.items ≡ close_facts steps.now zeros.items) }
{
    let mut facts = Vec::new(alloc);
    let mut i = 0;
    for zero in zeros {
        keep_close(&mut facts, steps, i, zero)?;
        i += 1;
    }
    Ok(facts)
}

/// Puts the numbers of coefficients at the places of their symbols.
fn put_numbers(field: &Residue, row: &ClosedRow, numbers: &mut [u32])
    requires within { All (IsWithinRow (length numbers.old)) row.now }
    requires elements { AreCoefficientsOf (⟦<Residue as Field>⟧.kind_of field.now) row.now }
    ensures { map residue numbers.new ≡ stored_in (map residue numbers.old) row.now }
{
    for i in 0..row.len() {
        match row.get(i) {
            None => {}
            Some(c) => numbers[c.symbol as usize - 1] = field.of(&c.number),
        }
    }
}

/// The row over `n` symbols that coefficients tell.
fn stored_row(
    alloc: Global,
    field: &Residue,
    n: u32,
    row: &ClosedRow,
) -> Result<Row<Residue>, AllocError>
    requires within { All (IsWithinRow n) row.now }
    requires elements { AreCoefficientsOf (⟦<Residue as Field>⟧.kind_of field.now) row.now }
    ensures { IfOk result (λ r. r ≡ stored_row n row.now) }
{
    let mut numbers = Vec::new(alloc);
    numbers.resize(n as usize, 0)?;
    put_numbers(field, row, &mut numbers);
    Ok(Row::from_vec(field, numbers))
}

/// The rows over `n` symbols that a closed list tells.
pub(crate) fn stored_rows(
    alloc: Global,
    field: &Residue,
    n: u32,
    closed: &ClosedList,
) -> Result<Rows<Residue>, AllocError>
    requires within { All (All (IsWithinRow n)) closed.now }
    requires elements { All (AreCoefficientsOf (⟦<Residue as Field>⟧.kind_of field.now)) closed.now }
    ensures { IfOk result (λ rows. rows ≡ map (stored_row n) closed.now) }
{
    let mut rows = Rows::new(alloc);
    for k in 0..closed.len() {
        match closed.get(k) {
            None => {}
            Some(row) => {
                let stored = stored_row(alloc, field, n, row)?;
                rows.push(stored)?;
            }
        }
    }
    Ok(rows)
}

/// The place, from 0, of the greatest position of a row that is not 0.
fn pivot(row: &Row<Residue>) -> u32
    ensures { result ≡ pivot_of row.now }
{
    row.lead().unwrap_or(1).saturating_sub(1)
}

/// The same of each of some rows.
pub(crate) fn leads_of(alloc: Global, rows: &Rows<Residue>) -> Result<Vec<u32>, AllocError>
    ensures { IfOk result (λ leads. leads.items ≡ map pivot_of rows.now) }
{
    let mut leads = Vec::new(alloc);
    for k in 0..rows.len() {
        match rows.get(k) {
            None => {}
            Some(row) => leads.push(pivot(row))?,
        }
    }
    Ok(leads)
}
