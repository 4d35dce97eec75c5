//! The view `envelope`.
ghost use Rattle.std.specs.Prelude.{◌≡◌, ◌≤◌, Ok, Err, IfOk, IfErr, IsErrOf};
ghost use Rattle.fpl_model.specs.Sound.{IsSound};
ghost use Rattle.fpl_table.specs.Standard.{IsTableOf};
ghost use Rattle.fpl_envelope.specs.Action.{IsEnveloped};
ghost use Rattle.fpl_envelope_text.specs.Plain as texts;
ghost use Rattle.fpl_reply.specs.declared.view_fault.ViewFault.{ViewFault};
ghost use Rattle.fpl_views.specs.Envelope.{text_of_envelope};

use crate::shown::ShowError;
use fpl_envelope::word_count;
use fpl_envelope_text::envelope_text;
use fpl_model::Presentation;
use fpl_numbers::Kind;
use fpl_reply::ViewFault;
use fpl_scalar::Residue;
use fpl_table::Table;
use std::alloc::Global;

fn show_words(alloc: Global, table: &Table<Residue>) -> Result<Vec<u8>, ShowError>
    requires { IsEnveloped table.now }
    ensures text { IfOk result (λ text. text.items ≡ texts.envelope_text table.now) }
    ensures memory { IfErr result (λ error. error ≡ ShowError.NoMemory) }
{
    match envelope_text(alloc, table) {
        Ok(text) => Ok(text),
        Err(_) => Err(ShowError::NoMemory),
    }
}

/// The ordered words of each weight by parity, and the products that aren't ordered with their straight forms.
pub(crate) fn show_envelope(
    alloc: Global,
    entries: u64,
    p: &Presentation,
    table: &Table<Residue>,
) -> Result<Vec<u8>, ShowError>
    requires entries { entries ≤ 2000000 }
    requires sound { IsSound p.now }
    requires standard { IsTableOf p.now table.now.weight table.now }
    requires prime { table.now.kind ≡ Kind.Rational → ⊥ }
    ensures text { IfOk result (λ text. text_of_envelope entries table.now ≡ Ok text.items) }
    ensures fault { (fault : ViewFault) → IsErrOf result (ShowError.Fault fault) → text_of_envelope entries table.now ≡ Err fault }
{
    match word_count(alloc, table, table.weight(), entries) {
        Ok(None) => show_words(alloc, table),
        Ok(Some((weight, count))) => {
            Err(ShowError::Fault(ViewFault::TooManyWords { weight, count }))
        }
        Err(_) => Err(ShowError::NoMemory),
    }
}
