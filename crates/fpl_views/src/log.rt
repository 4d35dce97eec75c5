//! The view `log`.
ghost use Rattle.std.specs.Prelude.{◌≡◌, IfOk, IfErr};
ghost use Rattle.fpl_spelling.specs.Spelling.{names_of};
ghost use Rattle.fpl_print.specs.LogText.{log_text};

use crate::shown::ShowError;
use fpl_log::Sections;
use fpl_model::Presentation;
use fpl_print::log_text;
use fpl_scalar::Field;
use fpl_table::Table;
use std::alloc::Global;

/// The steps and closed rows of each weight.
pub(crate) fn show_log<F: Field>(
    alloc: Global,
    p: &Presentation,
    table: &Table<F>,
    sections: &Sections,
) -> Result<Vec<u8>, ShowError>
    requires { table.now.kind ≡ p.now.field }
    ensures text { IfOk result (λ text. text.items ≡ log_text (names_of p.now) table.now sections.now) }
    ensures memory { IfErr result (λ error. error ≡ ShowError.NoMemory) }
{
    match log_text(alloc, p, table, sections) {
        Ok(text) => Ok(text),
        Err(_) => Err(ShowError::NoMemory),
    }
}
