//! The view `cohomology`.
ghost use Rattle.std.specs.Prelude.{◌≡◌, ◌≤◌, All, Ok, Err, IfOk, IfErr, IsErrOf, length};
ghost use Rattle.fpl_reply.specs.declared.view_fault.ViewFault.{ViewFault};
ghost use Rattle.fpl_model.specs.Sound.{IsSound};
ghost use Rattle.fpl_table.specs.Standard.{IsTableOf};
ghost use Rattle.plain_cohomology.specs.Means.{HasElements};
ghost use Rattle.fpl_cohomology.specs.Text as texts;
ghost use Rattle.fpl_views.specs.Cohomology.{cohomology_text};

use crate::shown::ShowError;
use fpl_cohomology::{Lows, cohomology_text, lows};
use fpl_model::Presentation;
use fpl_reply::ViewFault;
use fpl_scalar::{Fault, Field};
use fpl_steps::Steps;
use fpl_table::Table;
use std::alloc::Global;
use std::sync::ledger::Ledger;

fn show_lows<F: Field>(
    alloc: Global,
    table: &Table<F>,
    lows: &Lows<F>,
) -> Result<Vec<u8>, ShowError>
    requires count { length lows.now ≡ table.now.weight }
    requires elements { All (HasElements table.now.kind) lows.now }
    ensures text { IfOk result (λ text. text.items ≡ texts.cohomology_text table.now lows.now) }
    ensures memory { IfErr result (λ error. error ≡ ShowError.NoMemory) }
{
    match cohomology_text(alloc, table, lows) {
        Ok(text) => Ok(text),
        Err(_) => Err(ShowError::NoMemory),
    }
}

/// What represents H1 and H2 in each weight, with their dimensions.
pub(crate) fn show_cohomology<F: Field, L: Ledger>(
    alloc: Global,
    p: &Presentation,
    table: &Table<F>,
    steps: &mut Steps<L>,
) -> Result<Vec<u8>, ShowError>
    requires sound { IsSound p.now }
    requires standard { IsTableOf p.now table.now.weight table.now }
    ensures text { IfOk result (λ text. cohomology_text table.now ≡ Ok text.items) }
    ensures fault { (fault : ViewFault) → IsErrOf result (ShowError.Fault fault) → cohomology_text table.now ≡ Err fault }
    ensures rises { steps.old ≤ steps.new }
{
    let _weight = table.weight();
    match lows(alloc, table, steps) {
        Ok(lows) => show_lows(alloc, table, &lows),
        Err(Fault::Unfit(unfit)) => Err(ShowError::Fault(ViewFault::Overflow(unfit))),
        Err(Fault::NoMemory) => Err(ShowError::NoMemory),
    }
}
