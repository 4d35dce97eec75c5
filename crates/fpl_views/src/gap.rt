//! The view `gap`.
ghost use Rattle.std.specs.Prelude.{◌≡◌, IfOk, IfErr};
ghost use Rattle.fpl_model.specs.Sound.{IsSound};
ghost use Rattle.fpl_table.specs.Standard.{IsTableOf};
ghost use Rattle.fpl_spelling.specs.Spelling.{names_of};
ghost use Rattle.fpl_print.specs.GapText.{gap_text};

use crate::shown::ShowError;
use fpl_model::Presentation;
use fpl_print::gap_text;
use fpl_scalar::Field;
use fpl_table::Table;
use std::alloc::Global;

/// The table as a record of GAP.
pub(crate) fn show_gap<F: Field>(
    alloc: Global,
    p: &Presentation,
    table: &Table<F>,
) -> Result<Vec<u8>, ShowError>
    requires sound { IsSound p.now }
    requires standard { IsTableOf p.now table.now.weight table.now }
    ensures text { IfOk result (λ text. text.items ≡ gap_text (names_of p.now) table.now) }
    ensures memory { IfErr result (λ error. error ≡ ShowError.NoMemory) }
{
    match gap_text(alloc, p, table) {
        Ok(text) => Ok(text),
        Err(_) => Err(ShowError::NoMemory),
    }
}
