//! What the views of subspaces share.
ghost use Rattle.std.specs.Prelude.{◌≡◌, ◌∷◌, [], length, IfOk, IfErr};
ghost use Rattle.fpl_rows.specs.Meaning.{AreRows};
ghost use Rattle.fpl_structure.specs.Texts.{space_text};

use crate::shown::ShowError;
use fpl_rows::Rows;
use fpl_scalar::Field;
use fpl_structure::{SpaceWord, Spaces, space_text};
use fpl_table::Table;
use std::alloc::{AllocError, Global};

fn text_of_one<F: Field>(
    alloc: Global,
    word: SpaceWord,
    table: &Table<F>,
    rows: Rows<F>,
) -> Result<Vec<u8>, AllocError>
    requires { AreRows table.now.kind (length table.now.basis) rows }
    ensures { IfOk result (λ text. text.items ≡ space_text word table.now (rows ∷ [])) }
{
    let mut spaces = Spaces::new(alloc);
    spaces.push(rows)?;
    space_text(alloc, word, table, &spaces)
}

/// The text of one space.
pub(crate) fn show_space<F: Field>(
    alloc: Global,
    word: SpaceWord,
    table: &Table<F>,
    rows: Rows<F>,
) -> Result<Vec<u8>, ShowError>
    requires { AreRows table.now.kind (length table.now.basis) rows }
    ensures text { IfOk result (λ text. text.items ≡ space_text word table.now (rows ∷ [])) }
    ensures memory { IfErr result (λ error. error ≡ ShowError.NoMemory) }
{
    match text_of_one(alloc, word, table, rows) {
        Ok(text) => Ok(text),
        Err(_) => Err(ShowError::NoMemory),
    }
}
