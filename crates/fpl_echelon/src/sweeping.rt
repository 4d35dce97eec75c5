ghost use Rattle.std.specs.Prelude.{◌≡◌, ◌<◌, ◌≤◌, ◌+◌, ◌^◌, false, length, slice_index_or, All, OnOk};
ghost use Rattle.fpl_numbers.specs.Numbers.{is_nought, residue};
ghost use Rattle.fpl_numbers.specs.Results.{Gives};
ghost use Rattle.fpl_scalar.specs.Vectors.{AreElements};
ghost use Rattle.plain_elimination.specs.Plain.{IsPivotRow, sweep_at, sweep_of};

use crate::pivots::Pivots;
use fpl_log::{Term, Terms};
use fpl_rows::Row;
use fpl_scalar::{Fault, Field};

/// Takes the pivot row at position `s + 1` off, if there is one.
pub fn sweep_place<F: Field>(
    field: &F,
    pivots: &Pivots<F>,
    s: u32,
    row: &mut Row<F>,
    terms: &mut Terms,
) -> Result<(), Fault>
    requires place { s < length row.old }
    requires fits { s + 1 < 2 ^ 32 }
    requires nonzero { is_nought (slice_index_or row.old s (residue 0)) ≡ false }
    requires elements { AreElements (F.kind_of field.now) row.old }
    requires pivots { All (IsPivotRow (F.kind_of field.now) (length row.old)) pivots.now }
    ensures value { Gives result (record { row = row.new; terms = terms.new }) (sweep_at (F.kind_of field.now) pivots.now s (record { row = row.old; terms = terms.old })) }
    ensures elements { OnOk result (AreElements (F.kind_of field.now) row.new) }
    ensures length { length row.new ≡ length row.old }
{
    let factor = row.at(s + 1);
    match pivots.find(s + 1) {
        None => Ok(()),
        Some(pivot) => {
            row.axpy(field, field.neg(factor), pivot.row())?;
            terms.push(Term {
                step: pivot.step(),
                factor: field.num(factor),
            })?;
            Ok(())
        }
    }
}

/// Takes pivot rows off at the positions from `from` down.
pub fn sweep_below<F: Field>(
    field: &F,
    pivots: &Pivots<F>,
    from: u32,
    row: &mut Row<F>,
    terms: &mut Terms,
) -> Result<(), Fault>
    requires place { from ≤ length row.old }
    requires elements { AreElements (F.kind_of field.now) row.old }
    requires pivots { All (IsPivotRow (F.kind_of field.now) (length row.old)) pivots.now }
    ensures value { Gives result (record { row = row.new; terms = terms.new }) (sweep_of (F.kind_of field.now) pivots.now from
        (record { row = row.old; terms = terms.old })) }
    ensures elements { OnOk result (AreElements (F.kind_of field.now) row.new) }
    ensures length { length row.new ≡ length row.old }
{
    let mut most = from;
    // a position that is 0 changes nothing
    while let Some(s) = row.lead_within(most) {
        most = s - 1;
        match sweep_place(field, pivots, most, row, terms) {
            Ok(()) => {}
            Err(fault) => return Err(fault),
        }
    }
    Ok(())
}
