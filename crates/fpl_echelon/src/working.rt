ghost use Rattle.std.specs.Prelude.{◌≡◌, ◌<◌, ◌≤◌, ◌+◌, ◌-◌, ◌^◌, false, length, slice_index_or, All, IfOk, IfErr};
ghost use Rattle.fpl_numbers.specs.Numbers.{is_nought, residue, negative_of, inverse_of};
ghost use Rattle.fpl_numbers.specs.Results.{Answers, Gives, GivesBy};
ghost use Rattle.fpl_scalar.specs.Vectors.{AreElements, axpy_of, scale_of};
ghost use Rattle.plain_elimination.specs.Plain.{IsPivotRow, sweep_at, sweep_of};

use crate::pivots::Pivots;
use fpl_log::Term;
use fpl_rows::{Row, Work};
use fpl_scalar::{Fault, Field, Num, Unfit};
use std::alloc::Global;

/// Takes `other` off as often as the row has position `s`, and says how often that is.
#[inline(always)]
fn take_off<F: Field>(field: &F, row: &mut Work<F>, s: u32, other: &Row<F>) -> Result<Num, Unfit>
    requires kind { row.old.kind ≡ F.kind_of field.now }
    requires place { (1 ≤ s) × (s ≤ length row.old.row) }
    requires at_most { length other.now ≤ length row.old.row }
    requires other { AreElements (F.kind_of field.now) other.now }
    ensures value { Answers (λ _. row.new.row) result (axpy_of (F.kind_of field.now) row.old.row
        (negative_of (F.kind_of field.now) (slice_index_or row.old.row (s - 1) (residue 0))) other.now) }
    ensures factor { IfOk result (λ factor. factor ≡ slice_index_or row.old.row (s - 1) (residue 0)) }
    ensures kind { row.new.kind ≡ F.kind_of field.now }
    ensures length { length row.new.row ≡ length row.old.row }
{
    let factor = row.at(s);
    match row.axpy(field.neg(factor), other) {
        Ok(()) => Ok(field.num(factor)),
        Err(u) => Err(u),
    }
}

/// Takes the pivot row at position `s + 1` off, if there is one.
#[inline(always)]
fn sweep_work_place<F: Field>(
    field: &F,
    pivots: &Pivots<F>,
    s: u32,
    row: &mut Work<F>,
    terms: &mut Vec<Term>,
) -> Result<(), Fault>
    requires kind { row.old.kind ≡ F.kind_of field.now }
    requires place { s < length row.old.row }
    requires fits { s + 1 < 2 ^ 32 }
    requires nonzero { is_nought (slice_index_or row.old.row s (residue 0)) ≡ false }
    requires pivots { All (IsPivotRow (F.kind_of field.now) (length row.old.row)) pivots.now }
    ensures value { Gives result (record { row = row.new.row; terms = terms.new.items }) (sweep_at (F.kind_of field.now) pivots.now s
        (record { row = row.old.row; terms = terms.old.items })) }
    ensures kind { row.new.kind ≡ F.kind_of field.now }
    ensures length { length row.new.row ≡ length row.old.row }
{
    match pivots.find(s + 1) {
        None => Ok(()),
        Some(pivot) => match take_off(field, row, s + 1, pivot.row()) {
            Ok(factor) => {
                let step = pivot.step();
                match terms.push(Term { step, factor }) {
                    Ok(()) => Ok(()),
                    Err(_) => Err(Fault::NoMemory),
                }
            }
            Err(u) => Err(Fault::Unfit(u)),
        },
    }
}

/// Takes pivot rows off at the positions from `from` down.
#[inline(always)]
pub fn sweep_work<F: Field>(
    field: &F,
    pivots: &Pivots<F>,
    from: u32,
    row: &mut Work<F>,
    terms: &mut Vec<Term>,
) -> Result<(), Fault>
    requires kind { row.old.kind ≡ F.kind_of field.now }
    requires place { from ≤ length row.old.row }
    requires pivots { All (IsPivotRow (F.kind_of field.now) (length row.old.row)) pivots.now }
    ensures value { Gives result (record { row = row.new.row; terms = terms.new.items }) (sweep_of (F.kind_of field.now) pivots.now from
        (record { row = row.old.row; terms = terms.old.items })) }
    ensures kind { row.new.kind ≡ F.kind_of field.now }
    ensures length { length row.new.row ≡ length row.old.row }
{
    let mut most = from;
    // a position that is 0 changes nothing
    while let Some(s) = row.lead_within(most) {
        most = s - 1;
        match sweep_work_place(field, pivots, most, row, terms) {
            Ok(()) => {}
            Err(fault) => return Err(fault),
        }
    }
    Ok(())
}

/// A row that was multiplied to have 1 at its lead, and the number that it was multiplied by.
#[derive(Drop)]
pub struct Monic<F: Field> {
    pub row: Row<F>,
    pub scale: Num,
}

/// The row, multiplied so that it has 1 at position `s`, where it is not 0.
pub fn normalized<F: Field>(
    alloc: Global,
    field: &F,
    row: &Work<F>,
    s: u32,
) -> Result<Monic<F>, Fault>
    requires kind { row.now.kind ≡ F.kind_of field.now }
    requires place { (1 ≤ s) × (s ≤ length row.now.row) }
    requires nonzero { is_nought (slice_index_or row.now.row (s - 1) (residue 0)) ≡ false }
    ensures value { GivesBy (λ m. m.row) result (scale_of (F.kind_of field.now) (inverse_of (F.kind_of field.now)
        (slice_index_or row.now.row (s - 1) (residue 0))) row.now.row) }
    ensures scale { IfOk result (λ m. m.scale ≡ inverse_of (F.kind_of field.now) (slice_index_or row.now.row (s - 1) (residue 0))) }
{
    let factor = field.inverse(row.at(s));
    match row.gather(alloc, factor) {
        Ok(row) => Ok(Monic {
            row,
            scale: field.num(factor),
        }),
        Err(fault) => Err(fault),
    }
}

/// The row as it is. Each number times 1 fits, so there is no fault but want of memory.
pub fn gathered<F: Field>(alloc: Global, field: &F, row: &Work<F>) -> Result<Row<F>, Fault>
    requires { row.now.kind ≡ F.kind_of field.now }
    ensures value { IfOk result (λ r. r ≡ row.now.row) }
    ensures fault { IfErr result (λ fault. fault ≡ Fault.NoMemory) }
{
    // its clauses say that the numbers are elements
    let _count = row.len();
    match row.gather(alloc, field.one()) {
        Ok(row) => Ok(row),
        Err(_) => Err(Fault::NoMemory),
    }
}
