//! The view `lcs`.
ghost use Rattle.std.specs.Prelude.{◌≡◌, ◌≤◌, All, Ok, Err, IfOk, IfErr, IsErrOf, length};
ghost use Rattle.fpl_rows.specs.Meaning.{AreRows};
ghost use Rattle.fpl_reply.specs.declared.view_fault.ViewFault.{ViewFault};
ghost use Rattle.fpl_structure.specs.declared.texts.SpaceWord.TheVariants.{Lcs};
ghost use Rattle.fpl_structure.specs.Texts.{space_text};
ghost use Rattle.fpl_views.specs.Lcs.{lcs_text};

use crate::shown::ShowError;
use fpl_reply::ViewFault;
use fpl_scalar::{Fault, Field};
use fpl_steps::Steps;
use fpl_structure::{SpaceWord, Spaces, lower_central, space_text};
use fpl_table::Table;
use std::alloc::Global;
use std::sync::ledger::Ledger;

fn show_terms<F: Field>(
    alloc: Global,
    table: &Table<F>,
    terms: &Spaces<F>,
) -> Result<Vec<u8>, ShowError>
    requires { All (AreRows table.now.kind (length table.now.basis)) terms.now }
    ensures text { IfOk result (λ text. text.items ≡ space_text Lcs table.now terms.now) }
    ensures memory { IfErr result (λ error. error ≡ ShowError.NoMemory) }
{
    match space_text(alloc, SpaceWord::Lcs, table, terms) {
        Ok(text) => Ok(text),
        Err(_) => Err(ShowError::NoMemory),
    }
}

/// The closed rows of the terms of the lower central series.
pub(crate) fn show_lcs<F: Field, L: Ledger>(
    alloc: Global,
    table: &Table<F>,
    steps: &mut Steps<L>,
) -> Result<Vec<u8>, ShowError>
    ensures text { IfOk result (λ text. lcs_text table.now ≡ Ok text.items) }
    ensures fault { (fault : ViewFault) → IsErrOf result (ShowError.Fault fault) → lcs_text table.now ≡ Err fault }
    ensures rises { steps.old ≤ steps.new }
{
    match lower_central(alloc, table, steps) {
        Ok(terms) => show_terms(alloc, table, &terms),
        Err(Fault::Unfit(unfit)) => Err(ShowError::Fault(ViewFault::Overflow(unfit))),
        Err(Fault::NoMemory) => Err(ShowError::NoMemory),
    }
}
