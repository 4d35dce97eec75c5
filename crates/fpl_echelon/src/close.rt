ghost use Rattle.std.specs.Prelude.{◌≡◌, ◌<◌, ◌≤◌, ◌+◌, ◌^◌, [], ℕ, true, false, Some, None, length, replicate, slice_index_or, All, OnOk};
ghost use Rattle.std.specs.List.{find};
ghost use Rattle.fpl_numbers.specs.declared.number.Kind.{Kind};
ghost use Rattle.fpl_numbers.specs.Numbers.{is_nought, residue};
ghost use Rattle.fpl_numbers.specs.Results.{Gives, GivesBy};
ghost use Rattle.plain_elimination.specs.Plain.{IsPivotRow, close_at, close_by, close_to, stands_at};

use crate::pivots::{Pivot, Pivots};
use crate::working::{gathered, sweep_work};
use fpl_log::{Step, StepList, Term, Terms};
use fpl_rows::{Row, Rows, Work};
use fpl_scalar::{Fault, Field};
use std::alloc::Global;

/// Closed rows by ascending pivot, and all steps that made them.
#[derive(Drop)]
pub struct Closed<F: Field> {
    pub steps: StepList,
    pub rows: Rows<F>,
}

/// Whether a closed row has its pivot at a place before `s`. Places count from 0.
fn stands_before<F: Field>(closed: &Pivots<F>, s: u32, place: u32) -> bool
    ensures { result ≡ false → place < s → find (stands_at (place + 1)) closed.now ≡ None }
{
    if place < s {
        match closed.find(place + 1) {
            Some(_) => true,
            None => false,
        }
    } else {
        false
    }
}

/// Whether no closed row has its pivot at one of these places before `s`.
fn meets_none_at<F: Field>(closed: &Pivots<F>, s: u32, places: &[u32]) -> bool
    ensures { result ≡ true → (k : ℕ) → k < length places.now → slice_index_or places.now k 0 < s
        → find (stands_at (slice_index_or places.now k 0 + 1)) closed.now ≡ None }
{
    for k in 0..places.len() {
        if stands_before(closed, s, places[k]) {
            return false;
        }
    }
    true
}

/// Whether no closed row has its pivot where the row has a number before place `s`, so that a sweep
/// takes nothing off. Where the row is not packed the answer is no.
fn meets_none<F: Field>(closed: &Pivots<F>, s: u32, row: &Row<F>) -> bool
    ensures { result ≡ true → (t : ℕ) → t < s → is_nought (slice_index_or row.now t (residue 0)) ≡ false → find (stands_at (t + 1)) closed.now ≡ None }
{
    match row.cells() {
        Some((places, _)) => meets_none_at(closed, s, places),
        None => false,
    }
}

/// Adds the pivot row at position `s + 1` as it is to the closed rows, none of which it meets.
fn keep_bare<F: Field>(
    alloc: Global,
    pivot: &Pivot<F>,
    s: u32,
    closed: &mut Pivots<F>,
    steps: &mut StepList,
) -> Result<(), Fault>
    requires fits { s + 1 < 2 ^ 32 }
    requires none { (t : ℕ) → t < s → is_nought (slice_index_or pivot.now.row t (residue 0)) ≡ false → find (stands_at (t + 1)) closed.old ≡ None }
    ensures { (kind : Kind) → Gives result (record { pivots = closed.new; steps = steps.new }) (close_by kind (Some pivot.now) s
        (record { pivots = closed.old; steps = steps.old })) }
{
    let row = match pivot.row().copy(alloc) {
        Ok(row) => row,
        Err(_) => return Err(Fault::NoMemory),
    };
    let step = steps.len() as u64 + 1;
    match closed.push(Pivot::of(s + 1, step, row)) {
        Ok(()) => {}
        Err(_) => return Err(Fault::NoMemory),
    }
    let close = Step::Close {
        of: pivot.step(),
        terms: Terms::new(alloc),
    };
    match steps.push(close) {
        Ok(()) => Ok(()),
        Err(_) => Err(Fault::NoMemory),
    }
}

/// Sweeps the pivot row at position `s + 1` by the closed rows below, in an empty row in work,
/// and adds it to these. What stands in `taken` is lost.
pub fn close_place<F: Field>(
    alloc: Global,
    field: &F,
    pivots: &Pivots<F>,
    s: u32,
    closed: &mut Pivots<F>,
    steps: &mut StepList,
    work: &mut Work<F>,
    taken: &mut Vec<Term>,
) -> Result<(), Fault>
    requires kind { work.old.kind ≡ F.kind_of field.now }
    requires zeros { work.old.row ≡ replicate (length work.old.row) (residue 0) }
    requires place { s < length work.old.row }
    requires fits { s + 1 < 2 ^ 32 }
    requires pivots { All (IsPivotRow (F.kind_of field.now) (length work.old.row)) pivots.now }
    requires closed { All (IsPivotRow (F.kind_of field.now) (length work.old.row)) closed.old }
    ensures value { Gives result (record { pivots = closed.new; steps = steps.new }) (close_at (F.kind_of field.now) pivots.now s
        (record { pivots = closed.old; steps = steps.old })) }
    ensures emptied { OnOk result (work.new ≡ work.old) }
{
    match pivots.find(s + 1) {
        None => Ok(()),
        Some(pivot) => {
            if meets_none(closed, s, pivot.row()) {
                return keep_bare(alloc, pivot, s, closed, steps);
            }
            work.load(pivot.row());
            taken.clear();
            match sweep_work(field, closed, s, work, taken) {
                Ok(()) => {}
                Err(fault) => return Err(fault),
            }
            let terms = Terms::of(alloc, taken)?;
            let row = gathered(alloc, field, work)?;
            work.clear();
            let step = steps.len() as u64 + 1;
            closed.push(Pivot::of(s + 1, step, row))?;
            let of = pivot.step();
            steps.push(Step::Close { of, terms })?;
            Ok(())
        }
    }
}

/// Closes the pivot rows at the first `size` positions.
pub fn close_all<F: Field>(
    alloc: Global,
    field: &F,
    pivots: &Pivots<F>,
    size: u32,
    steps: &mut StepList,
) -> Result<Pivots<F>, Fault>
    requires pivots { All (IsPivotRow (F.kind_of field.now) size) pivots.now }
    ensures value { GivesBy (λ closed. record { pivots = closed; steps = steps.new }) result (close_to (F.kind_of field.now) pivots.now size
        (record { pivots = []; steps = steps.old })) }
{
    let mut closed = Pivots::new(alloc);
    let mut work = Work::new(alloc, *field, size)?;
    let mut taken = Vec::new(alloc);
    for s in 0..size {
        match close_place(
            alloc,
            field,
            pivots,
            s,
            &mut closed,
            steps,
            &mut work,
            &mut taken,
        ) {
            Ok(()) => {}
            Err(fault) => return Err(fault),
        }
    }
    Ok(closed)
}
