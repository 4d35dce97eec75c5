ghost use Rattle.std.specs.Prelude.{◌≡◌, ◌+◌, ◌<◌, ◌^◌, ℕ, true, false, length, slice_index_or, IfOk};
ghost use Rattle.fpl_numbers.specs.Numbers.{is_nought, residue};
ghost use Rattle.fpl_rows.specs.Meaning.{AreRows, IsRowOf};
ghost use Rattle.fpl_check.specs.Refusal.{GivesCheck};
ghost use Rattle.fpl_check.specs.ClosedRows.{lead_or_none, test_lead_at, test_leads, test_crossing, test_apart};
ghost use Rattle.fpl_check.specs.Leads.{marked, is_clear, IsMarking};
ghost use Rattle.fpl_rows.specs.Positions.{lead_of};

use crate::marking::unmarked;
use crate::{CheckFault, Spot, Why};
use fpl_rows::{Row, Rows};
use fpl_scalar::Field;
use std::alloc::{AllocError, Global};

/// Tests that row `k` has 1 at its greatest symbol, which comes after `before`; and gives that symbol.
fn test_lead<F: Field>(field: &F, k: u32, before: u32, row: &Row<F>) -> Result<u32, CheckFault>
    requires { IsRowOf (F.kind_of field.now) (length row.now) row.now }
    ensures value { GivesCheck (λ lead. tt) result (test_lead_at k before row.now (lead_of row.now)) }
    ensures lead { IfOk result (λ lead. lead ≡ lead_or_none row.now) }
{
    let lead = match row.lead() {
        None => {
            return Err(CheckFault::Bad {
                spot: Spot::Closed(k),
                why: Why::NotClosed { symbol: 0 },
            });
        }
        Some(lead) => lead,
    };
    if field.same(row.at(lead), field.one()) && before < lead {
        return Ok(lead);
    }
    Err(CheckFault::Bad {
        spot: Spot::Closed(k),
        why: Why::NotClosed { symbol: lead },
    })
}

/// Tests that each row has 1 at its greatest symbol, and that these ascend.
pub fn test_leads<F: Field>(field: &F, n: u32, rows: &Rows<F>) -> Result<(), CheckFault>
    requires rows { AreRows (F.kind_of field.now) n rows.now }
    requires few { length rows.now < 2 ^ 32 }
    ensures { GivesCheck (λ done. done) result (test_leads 1 0 rows.now) }
{
    let mut before = 0;
    for k in 0..rows.len() {
        match rows.get(k) {
            None => {}
            Some(row) => match test_lead(field, k as u32 + 1, before, row) {
                Ok(lead) => before = lead,
                Err(fault) => return Err(fault),
            },
        }
    }
    Ok(())
}

/// Marks the greatest symbols of rows.
fn marking<F: Field>(
    alloc: Global,
    field: &F,
    n: u32,
    rows: &Rows<F>,
) -> Result<Vec<bool>, AllocError>
    requires { AreRows (F.kind_of field.now) n rows.now }
    ensures { IfOk result (λ marks. IsMarking n rows.now marks.items) }
{
    let mut marks = unmarked(alloc, n as usize)?;
    let mut k = rows.len();
    while k > 0 {
        k -= 1;
        if let Some(row) = rows.get(k) {
            if let Some(lead) = row.lead() {
                marks[lead as usize - 1] = true;
            }
        }
    }
    Ok(marks)
}

/// Whether the symbol at a place, which counts from 0, is `lead`, or not marked.
fn is_clear(marks: &[bool], lead: u32, place: u32) -> bool
    requires place { place < length marks.now }
    requires few { length marks.now < 2 ^ 32 }
    ensures { result ≡ is_clear marks.now lead place }
{
    place + 1 == lead || !marks[place as usize]
}

fn are_clear(marks: &[bool], lead: u32, places: &[u32]) -> bool
    requires within { (k : ℕ) → k < length places.now → slice_index_or places.now k 0 < length marks.now }
    requires few { length marks.now < 2 ^ 32 }
    ensures { result ≡ true → (k : ℕ) → k < length places.now → is_clear marks.now lead (slice_index_or places.now k 0) ≡ true }
{
    for k in 0..places.len() {
        if !is_clear(marks, lead, places[k]) {
            return false;
        }
    }
    true
}

/// Whether a packed row tells no number at a marked symbol but `lead`. Where the row is not packed
/// the answer is no.
fn crosses_none<F: Field>(marks: &[bool], lead: u32, row: &Row<F>) -> bool
    requires { length marks.now ≡ length row.now }
    ensures { result ≡ true → (t : ℕ) → is_nought (slice_index_or row.now t (residue 0)) ≡ false → is_clear marks.now lead t ≡ true }
{
    // its clause bounds the places
    let _count = row.len();
    match row.cells() {
        Some((places, _)) => are_clear(marks, lead, places),
        None => false,
    }
}

/// Tests that row `k` is 0 at the marked symbols but its greatest.
fn test_crossing<F: Field>(k: u32, marks: &[bool], row: &Row<F>) -> Result<(), CheckFault>
    requires { length marks.now ≡ length row.now }
    ensures { GivesCheck (λ done. done) result (test_crossing k (marked marks.now) (lead_or_none row.now) 1 row.now) }
{
    let lead = row.lead().unwrap_or(0);
    if crosses_none(marks, lead, row) {
        return Ok(());
    }
    let mut after = 0;
    'symbols: loop {
        match row.next(after) {
            None => return Ok(()),
            Some(s) => {
                if s != lead && marks[s as usize - 1] {
                    return Err(CheckFault::Bad {
                        spot: Spot::Closed(k),
                        why: Why::NotClosed { symbol: s },
                    });
                }
                after = s;
            }
        }
    }
}

/// Tests that each row is 0 at the greatest symbols of the others.
pub fn test_apart<F: Field>(
    alloc: Global,
    field: &F,
    n: u32,
    rows: &Rows<F>,
) -> Result<(), CheckFault>
    requires rows { AreRows (F.kind_of field.now) n rows.now }
    requires few { length rows.now < 2 ^ 32 }
    ensures { GivesCheck (λ done. done) result (test_apart 1 rows.now rows.now) }
{
    let marks = match marking(alloc, field, n, rows) {
        Ok(marks) => marks,
        Err(_) => return Err(CheckFault::NoMemory),
    };
    for k in 0..rows.len() {
        match rows.get(k) {
            None => {}
            Some(row) => match test_crossing(k as u32 + 1, &marks, row) {
                Ok(()) => {}
                Err(fault) => return Err(fault),
            },
        }
    }
    Ok(())
}
