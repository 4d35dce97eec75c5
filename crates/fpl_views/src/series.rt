//! The view `series`.
ghost use Rattle.std.specs.Prelude.{◌≡◌, IfOk, IfErr};
ghost use Rattle.fpl_print.specs.SeriesText.{series_text};

use crate::shown::ShowError;
use fpl_model::Presentation;
use fpl_print::series_text;
use fpl_scalar::Field;
use fpl_table::Table;
use std::alloc::Global;

/// The numbers of even and of odd basis elements of each weight.
pub(crate) fn show_series<F: Field>(
    alloc: Global,
    p: &Presentation,
    table: &Table<F>,
) -> Result<Vec<u8>, ShowError>
    requires { table.now.kind ≡ p.now.field }
    ensures text { IfOk result (λ text. text.items ≡ series_text table.now) }
    ensures memory { IfErr result (λ error. error ≡ ShowError.NoMemory) }
{
    match series_text(alloc, p, table) {
        Ok(text) => Ok(text),
        Err(_) => Err(ShowError::NoMemory),
    }
}
