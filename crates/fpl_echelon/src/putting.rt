ghost use Rattle.std.specs.Prelude.{◌≡◌, ◌<◌, ◌≤◌, ◌+◌, ◌-◌, ◌^◌, length, All, OnOk, OnErr};
ghost use Rattle.fpl_numbers.specs.Results.{GivesBy};
ghost use Rattle.plain_elimination.specs.Plain.{IsPivotRow, insert_of, inserted_as, kept};
ghost use Rattle.plain_lean.specs.Lean.{insert_lean};
ghost use Rattle.fpl_echelon.specs.Outcomes.{lead_in};

use crate::outcome::Outcome;
use crate::pivots::{Pivot, Pivots};
use crate::working::{Monic, normalized, sweep_work};
use fpl_log::{Origin, Step, StepList, Term, Terms};
use fpl_rows::Work;
use fpl_scalar::{Fault, Field, Num};
use std::alloc::{AllocError, Global};

/// Keeps a row with its lead, and records its step. On a refusal nothing changes.
fn record<F: Field>(
    pivots: &mut Pivots<F>,
    steps: &mut StepList,
    lead: u32,
    pivot: Monic<F>,
    origin: Origin,
    terms: Terms,
) -> Result<(), AllocError>
    requires { 1 ≤ lead }
    ensures ok { OnOk result (record { pivots = pivots.new; steps = steps.new } ≡ kept (record { pivots = pivots.old; steps = steps.old }) origin terms lead
        pivot.scale pivot.row) }
    ensures err { OnErr result ((pivots.new ≡ pivots.old) × (steps.new ≡ steps.old)) }
{
    let Monic { row, scale } = pivot;
    let step = steps.len() as u64 + 1;
    steps.push(Step::Insert {
        origin,
        terms,
        scale,
    })?;
    match pivots.push(Pivot::of(lead, step, row)) {
        Ok(()) => Ok(()),
        Err(refusal) => {
            steps.pop();
            Err(refusal)
        }
    }
}

/// As `put_work`, but that the step of a dependent row is not recorded. What stands in `taken` is
/// lost: it is the room for the terms that are taken off.
#[inline(always)]
pub fn put_lean<F: Field>(
    alloc: Global,
    field: &F,
    pivots: &mut Pivots<F>,
    steps: &mut StepList,
    work: &mut Work<F>,
    taken: &mut Vec<Term>,
    origin: Origin,
) -> Result<Outcome, Fault>
    requires kind { work.old.kind ≡ F.kind_of field.now }
    requires pivots { All (IsPivotRow (F.kind_of field.now) (length work.old.row)) pivots.old }
    ensures value { GivesBy (λ outcome. inserted_as (lead_in outcome) (record { pivots = pivots.new; steps = steps.new })) result (insert_lean (record { kind = F.kind_of field.now; size = length work.old.row; held = record { pivots = pivots.old; steps = steps.old } }) work.old.row origin) }
    ensures unchanged { OnErr result ((pivots.new ≡ pivots.old) × (steps.new ≡ steps.old)) }
    ensures kind { work.new.kind ≡ F.kind_of field.now }
    ensures length { length work.new.row ≡ length work.old.row }
{
    let size = work.len();
    taken.clear();
    match sweep_work(field, pivots, size, work, taken) {
        Ok(()) => {}
        Err(fault) => return Err(fault),
    }
    match work.lead_within(size) {
        None => Ok(Outcome::Dependent),
        Some(lead) => match normalized(alloc, field, work, lead) {
            Ok(pivot) => {
                let terms = Terms::of(alloc, taken)?;
                record(pivots, steps, lead, pivot, origin, terms)?;
                Ok(Outcome::Pivot(lead))
            }
            Err(fault) => Err(fault),
        },
    }
}

/// Sweeps a row by the pivot rows, and keeps what is left or finds the row dependent. What stands
/// in `taken` is lost: it is the room for the terms that are taken off.
pub fn put_work<F: Field>(
    alloc: Global,
    field: &F,
    pivots: &mut Pivots<F>,
    steps: &mut StepList,
    work: &mut Work<F>,
    taken: &mut Vec<Term>,
    origin: Origin,
) -> Result<Outcome, Fault>
    requires kind { work.old.kind ≡ F.kind_of field.now }
    requires pivots { All (IsPivotRow (F.kind_of field.now) (length work.old.row)) pivots.old }
    ensures value { GivesBy (λ outcome. inserted_as (lead_in outcome) (record { pivots = pivots.new; steps = steps.new })) result
        (insert_of (record { kind = F.kind_of field.now; size = length work.old.row; held = record { pivots = pivots.old; steps = steps.old } })
        work.old.row origin) }
    ensures unchanged { OnErr result ((pivots.new ≡ pivots.old) × (steps.new ≡ steps.old)) }
    ensures kind { work.new.kind ≡ F.kind_of field.now }
    ensures length { length work.new.row ≡ length work.old.row }
{
    let size = work.len();
    taken.clear();
    match sweep_work(field, pivots, size, work, taken) {
        Ok(()) => {}
        Err(fault) => return Err(fault),
    }
    match work.lead_within(size) {
        None => {
            let scale = Num {
                numerator: 0,
                denominator: 1,
            };
            let terms = Terms::of(alloc, taken)?;
            steps.push(Step::Insert {
                origin,
                terms,
                scale,
            })?;
            Ok(Outcome::Dependent)
        }
        Some(lead) => match normalized(alloc, field, work, lead) {
            Ok(pivot) => {
                let terms = Terms::of(alloc, taken)?;
                record(pivots, steps, lead, pivot, origin, terms)?;
                Ok(Outcome::Pivot(lead))
            }
            Err(fault) => Err(fault),
        },
    }
}
