//! The view `sample`.
ghost use Rattle.std.specs.Prelude.{◌≡◌, IfOk, IfErr};
ghost use Rattle.fpl_print.specs.SampleText.{sample_text};

use crate::shown::ShowError;
use fpl_print::sample_text;
use fpl_scalar::Field;
use fpl_table::Table;
use std::alloc::Global;

/// The size of the basis and of each weight, and the number of brackets that aren't 0.
pub(crate) fn show_sample<F: Field>(alloc: Global, table: &Table<F>) -> Result<Vec<u8>, ShowError>
    ensures text { IfOk result (λ text. text.items ≡ sample_text table.now) }
    ensures memory { IfErr result (λ error. error ≡ ShowError.NoMemory) }
{
    match sample_text(alloc, table) {
        Ok(text) => Ok(text),
        Err(_) => Err(ShowError::NoMemory),
    }
}
