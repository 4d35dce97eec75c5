ghost use Rattle.std.specs.Prelude.{◌≡◌};
ghost use Rattle.fpl_numbers.specs.Numbers.{is_nought};
ghost use Rattle.fpl_scalar.specs.Vectors.{AreElements};
ghost use Rattle.fpl_check.specs.Refusal.{GivesCheck};
ghost use Rattle.fpl_check.specs.Steps.{test_zero};
ghost use Rattle.fpl_check.specs.Faults.{fault_as};

use crate::{CheckFault, Spot, Why};
use fpl_rows::{Row, Work};
use fpl_scalar::{Fault, Field, Num};

/// A fault of computing, as one of a check.
pub fn fault_of(fault: Fault) -> CheckFault
    ensures { result ≡ fault_as fault }
{
    match fault {
        Fault::Unfit(u) => CheckFault::Unfit(u),
        Fault::NoMemory => CheckFault::NoMemory,
    }
}

/// Whether a number is 0.
pub fn is_zero(number: &Num) -> bool
    ensures { result ≡ is_nought number.now }
{
    number.numerator == 0
}

/// Tests that a row is zero.
pub fn test_zero<F: Field>(field: &F, spot: Spot, row: &Row<F>) -> Result<(), CheckFault>
    requires { AreElements (F.kind_of field.now) row.now }
    ensures { GivesCheck (λ done. done) result (test_zero spot row.now) }
{
    // mostly it is zero, and that is told fastest from the front
    if row.next(0).is_none() {
        return Ok(());
    }
    match row.lead() {
        None => Ok(()),
        Some(symbol) => {
            let number = field.num(row.at(symbol));
            Err(CheckFault::Bad {
                spot,
                why: Why::Remainder { symbol, number },
            })
        }
    }
}

/// Tests that a row in work is zero.
pub fn test_work_zero<F: Field>(field: &F, spot: Spot, work: &Work<F>) -> Result<(), CheckFault>
    requires { work.now.kind ≡ F.kind_of field.now }
    ensures { GivesCheck (λ done. done) result (test_zero spot work.now.row) }
{
    let size = work.len();
    match work.lead_within(size) {
        None => Ok(()),
        Some(symbol) => {
            let number = field.num(work.at(symbol));
            Err(CheckFault::Bad {
                spot,
                why: Why::Remainder { symbol, number },
            })
        }
    }
}
