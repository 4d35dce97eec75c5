ghost use Rattle.std.specs.Prelude.{◌≡◌, ◌≤◌, length, IfOk, IfSome};
ghost use Rattle.std.specs.Option.{option_copied};
ghost use Rattle.fpl_numbers.specs.Results.{Answers, GivesBy};
ghost use Rattle.fpl_scalar.specs.Vectors.{AreElements};
ghost use Rattle.fpl_rows.specs.Meaning.{IsRowOf, IsClosedList};
ghost use Rattle.plain_elimination.specs.Plain.{sweep_rows};
ghost use Rattle.plain_elimination.specs.Spans.{SweepsTo};
ghost use Rattle.fpl_echelon.specs.Leads.{IsLeadIndex, take_if};

use crate::Leads;
use fpl_rows::{Row, Rows, Work};
use fpl_scalar::{Fault, Field, Unfit};
use std::alloc::Global;

/// Takes `other`, if there is one, off as often as the row has position `s`.
fn take<F: Field>(
    field: &F,
    other: Option<&Row<F>>,
    s: u32,
    mut row: Row<F>,
) -> Result<Row<F>, Fault>
    requires place { (1 ≤ s) × (s ≤ length row) }
    requires other { IfSome (option_copied other) (IsRowOf (F.kind_of field.now) (length row)) }
    requires elements { AreElements (F.kind_of field.now) row }
    ensures value { GivesBy (λ left. left) result (take_if (F.kind_of field.now) (option_copied other.entry) s row) }
    ensures elements { IfOk result (λ left. IsRowOf (F.kind_of field.now) (length row) left) }
{
    match other {
        None => Ok(row),
        Some(other) => {
            let factor = row.at(s);
            row.axpy(field, field.neg(factor), other)?;
            Ok(row)
        }
    }
}

/// What is left of a row when closed rows, whose leads are known, are taken off, from the greatest
/// pivot down: 0 exactly where the row is in their span.
///
/// The row is walked, and not the closed rows, most of which it doesn't meet.
pub fn sweep_by<F: Field>(
    field: &F,
    rows: &Rows<F>,
    leads: &Leads,
    row: Row<F>,
) -> Result<Row<F>, Fault>
    requires closed { IsClosedList (F.kind_of field.now) (length row) rows.now }
    requires leads { IsLeadIndex rows.now leads.now }
    requires elements { AreElements (F.kind_of field.now) row }
    ensures value { GivesBy (λ left. left) result (sweep_rows (F.kind_of field.now) rows.now row) }
    ensures left { IfOk result (λ left. IsRowOf (F.kind_of field.now) (length row) left) }
    ensures means { IfOk result (λ left. SweepsTo (F.kind_of field.now) rows.now row left) }
{
    let mut left = row;
    let mut most = left.len();
    'places: loop {
        match left.lead_within(most) {
            None => return Ok(left),
            Some(s) => {
                match take(field, leads.row(rows, s), s, left) {
                    Ok(next) => left = next,
                    Err(fault) => return Err(fault),
                }
                most = s - 1;
            }
        }
    }
}

/// Takes `other`, if there is one, off as often as the row has position `s`.
#[inline(always)]
fn take_work<F: Field>(
    field: &F,
    other: Option<&Row<F>>,
    s: u32,
    work: &mut Work<F>,
) -> Result<(), Unfit>
    requires kind { work.old.kind ≡ F.kind_of field.now }
    requires place { (1 ≤ s) × (s ≤ length work.old.row) }
    requires other { IfSome (option_copied other) (IsRowOf (F.kind_of field.now) (length work.old.row)) }
    ensures value { Answers (λ _. work.new.row) result (take_if (F.kind_of field.now) (option_copied other.entry) s work.old.row) }
    ensures kind { work.new.kind ≡ F.kind_of field.now }
    ensures length { length work.new.row ≡ length work.old.row }
{
    match other {
        None => Ok(()),
        Some(other) => {
            let factor = work.at(s);
            work.axpy(field.neg(factor), other)
        }
    }
}

/// As `sweep_by`, of a row in work.
pub fn sweep_work_by<F: Field>(
    field: &F,
    rows: &Rows<F>,
    leads: &Leads,
    work: &mut Work<F>,
) -> Result<(), Unfit>
    requires kind { work.old.kind ≡ F.kind_of field.now }
    requires closed { IsClosedList (F.kind_of field.now) (length work.old.row) rows.now }
    requires leads { IsLeadIndex rows.now leads.now }
    ensures value { Answers (λ _. work.new.row) result (sweep_rows (F.kind_of field.now) rows.now work.old.row) }
    ensures kind { work.new.kind ≡ F.kind_of field.now }
    ensures length { length work.new.row ≡ length work.old.row }
{
    let mut most = work.len();
    'places: loop {
        match work.lead_within(most) {
            None => return Ok(()),
            Some(s) => {
                match take_work(field, leads.row(rows, s), s, work) {
                    Ok(()) => {}
                    Err(u) => return Err(u),
                }
                most = s - 1;
            }
        }
    }
}

/// What is left of a row when closed rows are taken off, from the greatest pivot down: 0 exactly
/// where the row is in their span. For many rows find the leads once, and call `sweep_by`.
pub fn sweep<F: Field>(
    alloc: Global,
    field: &F,
    rows: &Rows<F>,
    row: Row<F>,
) -> Result<Row<F>, Fault>
    requires closed { IsClosedList (F.kind_of field.now) (length row) rows.now }
    requires elements { AreElements (F.kind_of field.now) row }
    ensures value { GivesBy (λ left. left) result (sweep_rows (F.kind_of field.now) rows.now row) }
    ensures left { IfOk result (λ left. IsRowOf (F.kind_of field.now) (length row) left) }
    ensures means { IfOk result (λ left. SweepsTo (F.kind_of field.now) rows.now row left) }
{
    match Leads::of(alloc, row.len(), rows) {
        Ok(leads) => sweep_by(field, rows, &leads, row),
        Err(_) => Err(Fault::NoMemory),
    }
}
