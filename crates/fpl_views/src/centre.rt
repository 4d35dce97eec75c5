//! The view `centre`.
ghost use Rattle.std.specs.Prelude.{◌≡◌, ◌≤◌, Ok, Err, IfOk, IsErrOf};
ghost use Rattle.fpl_reply.specs.declared.view_fault.ViewFault.{ViewFault};
ghost use Rattle.fpl_views.specs.Centre.{centre_text};

use crate::shown::ShowError;
use crate::space::show_space;
use fpl_reply::ViewFault;
use fpl_scalar::{Fault, Field};
use fpl_steps::Steps;
use fpl_structure::{SpaceWord, centre};
use fpl_table::Table;
use std::alloc::Global;
use std::sync::ledger::Ledger;

/// The closed rows of the centre.
pub(crate) fn show_centre<F: Field, L: Ledger>(
    alloc: Global,
    table: &Table<F>,
    steps: &mut Steps<L>,
) -> Result<Vec<u8>, ShowError>
    ensures text { IfOk result (λ text. centre_text table.now ≡ Ok text.items) }
    ensures fault { (fault : ViewFault) → IsErrOf result (ShowError.Fault fault) → centre_text table.now ≡ Err fault }
    ensures rises { steps.old ≤ steps.new }
{
    match centre(alloc, table, steps) {
        Ok(rows) => show_space(alloc, SpaceWord::Centre, table, rows),
        Err(Fault::Unfit(unfit)) => Err(ShowError::Fault(ViewFault::Overflow(unfit))),
        Err(Fault::NoMemory) => Err(ShowError::NoMemory),
    }
}
