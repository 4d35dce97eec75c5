//! The view `ideal`.
ghost use Rattle.std.specs.Prelude.{◌≡◌, ◌≤◌, Ok, Err, IfOk, IsErrOf};
ghost use Rattle.fpl_model.specs.Sound.{IsSound};
ghost use Rattle.fpl_table.specs.Standard.{IsTableOf};
ghost use Rattle.fpl_reply.specs.declared.view_fault.ViewFault.{ViewFault};
ghost use Rattle.fpl_views.specs.Ideal.{ideal_text};

use crate::shown::ShowError;
use crate::space::show_space;
use fpl_model::Presentation;
use fpl_reply::ViewFault;
use fpl_scalar::{Fault, Field};
use fpl_steps::Steps;
use fpl_structure::{SpaceWord, ideal};
use fpl_table::Table;
use std::alloc::Global;
use std::sync::ledger::Ledger;

/// The closed rows of the ideal that the presentation's ideal elements generate.
pub(crate) fn show_ideal<F: Field, L: Ledger>(
    alloc: Global,
    p: &Presentation,
    table: &Table<F>,
    steps: &mut Steps<L>,
) -> Result<Vec<u8>, ShowError>
    requires sound { IsSound p.now }
    requires standard { IsTableOf p.now table.now.weight table.now }
    ensures text { IfOk result (λ text. ideal_text p.now table.now ≡ Ok text.items) }
    ensures fault { (fault : ViewFault) → IsErrOf result (ShowError.Fault fault) → ideal_text p.now table.now ≡ Err fault }
    ensures rises { steps.old ≤ steps.new }
{
    match ideal(alloc, table, p, &p.ideals, steps) {
        Ok(rows) => show_space(alloc, SpaceWord::Ideal, table, rows),
        Err(Fault::Unfit(unfit)) => Err(ShowError::Fault(ViewFault::Overflow(unfit))),
        Err(Fault::NoMemory) => Err(ShowError::NoMemory),
    }
}
