ghost use Rattle.std.specs.Prelude.{◌≡◌, ◌<◌, ◌≤◌, ◌+◌, ◌-◌, ◌^◌, length, All, OnErr, Some};
ghost use Rattle.fpl_numbers.specs.Results.{Gives, GivesBy};
ghost use Rattle.fpl_scalar.specs.Vectors.{AreElements};
ghost use Rattle.fpl_rows.specs.Positions.{lead_of};
ghost use Rattle.plain_elimination.specs.Plain.{IsPivotRow, keep_of, insert_of, inserted_as};
ghost use Rattle.fpl_echelon.specs.Outcomes.{lead_in};

use crate::outcome::Outcome;
use crate::pivots::{Pivot, Pivots};
use crate::sweeping::sweep_below;
use fpl_log::{Origin, Step, StepList, Terms};
use fpl_rows::Row;
use fpl_scalar::{Fault, Field, Num};
use std::alloc::Global;

/// Scales what is left of a row to lead 1, and keeps it.
pub fn keep<F: Field>(
    alloc: Global,
    field: &F,
    pivots: &mut Pivots<F>,
    steps: &mut StepList,
    lead: u32,
    mut row: Row<F>,
    origin: Origin,
    terms: Terms,
) -> Result<(), Fault>
    requires lead { lead_of row ≡ Some lead }
    requires elements { AreElements (F.kind_of field.now) row }
    requires pivots { All (IsPivotRow (F.kind_of field.now) (length row)) pivots.old }
    ensures value { Gives result (record { pivots = pivots.new; steps = steps.new }) (keep_of (F.kind_of field.now)
        (record { pivots = pivots.old; steps = steps.old }) origin (record { row = row; terms = terms }) (Some lead)) }
    ensures unchanged { OnErr result ((pivots.new ≡ pivots.old) × (steps.new ≡ steps.old)) }
{
    let factor = field.inverse(row.at(lead));
    row.scale(field, factor)?;
    let step = steps.len() as u64 + 1;
    let scale = field.num(factor);
    steps.push(Step::Insert {
        origin,
        terms,
        scale,
    })?;
    match pivots.push(Pivot::of(lead, step, row.pack(alloc, field))) {
        Ok(()) => Ok(()),
        Err(_) => {
            steps.pop();
            Err(Fault::NoMemory)
        }
    }
}

/// Sweeps a row by the pivot rows, and keeps what is left or finds the row dependent.
pub fn put_in<F: Field>(
    alloc: Global,
    field: &F,
    size: u32,
    pivots: &mut Pivots<F>,
    steps: &mut StepList,
    mut row: Row<F>,
    origin: Origin,
) -> Result<Outcome, Fault>
    requires size { length row ≡ size }
    requires elements { AreElements (F.kind_of field.now) row }
    requires pivots { All (IsPivotRow (F.kind_of field.now) size) pivots.old }
    ensures value { GivesBy (λ outcome. inserted_as (lead_in outcome) (record { pivots = pivots.new; steps = steps.new })) result
        (insert_of (record { kind = F.kind_of field.now; size = size; held = record { pivots = pivots.old; steps = steps.old } }) row origin) }
    ensures unchanged { OnErr result ((pivots.new ≡ pivots.old) × (steps.new ≡ steps.old)) }
{
    let mut terms = Terms::new(alloc);
    sweep_below(field, pivots, size, &mut row, &mut terms)?;
    match row.lead() {
        None => {
            let scale = Num {
                numerator: 0,
                denominator: 1,
            };
            steps.push(Step::Insert {
                origin,
                terms,
                scale,
            })?;
            Ok(Outcome::Dependent)
        }
        Some(lead) => {
            keep(alloc, field, pivots, steps, lead, row, origin, terms)?;
            Ok(Outcome::Pivot(lead))
        }
    }
}
