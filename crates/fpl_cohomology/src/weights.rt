//! What represents H1 and H2 of all weights of a table.
ghost use Rattle.std.specs.Prelude.{◌≤◌, List};
ghost use Rattle.fpl_numbers.specs.Results.{GivesBy};
ghost use Rattle.plain_cohomology.specs.Plain.{Low, lows_of};

use crate::represented::Lows;
use crate::representing::low;
use fpl_scalar::{Fault, Field};
use fpl_steps::Steps;
use fpl_table::Table;
use std::alloc::Global;
use std::sync::ledger::Ledger;

/// What represents H1 and H2 of each weight of the table, from 1 on, one after the other.
/// `Unfit` is the first operation that does not fit.
pub fn lows<F: Field, L: Ledger>(
    alloc: Global,
    table: &Table<F>,
    steps: &mut Steps<L>,
) -> Result<Lows<F>, Fault>
    ensures value { GivesBy (λ (lows : List Low). lows) result (lows_of table.now table.now.weight) }
    ensures rises { steps.old ≤ steps.new }
{
    let mut lows = Lows::new(alloc);
    for w in 0..table.weight() {
        match low(alloc, table, w + 1, steps) {
            Ok(low) => lows.push(low)?,
            Err(fault) => return Err(fault),
        }
    }
    Ok(lows)
}
