//! The texts of subspaces of a table.
ghost use Rattle.std.specs.Prelude.{◌≡◌, ◌++◌, All, IfOk, OnOk};
ghost use Rattle.fpl_scalar.specs.Vectors.{AreElements};
ghost use Rattle.fpl_print.specs.Lines.{head_line};
ghost use Rattle.fpl_structure.specs.Texts.{word_text, row_line, row_lines, space_lines, term_head, term_line, term_lines, space_text};

use crate::spaces::Spaces;
use fpl_print::{push_combination, push_count, push_head_line};
use fpl_rows::{Row, Rows};
use fpl_scalar::Field;
use fpl_spelling::push_number;
use fpl_table::Table;
use std::alloc::{AllocError, Global};

/// What the spaces of a text are.
#[derive(Clone, Copy, Debug, PartialEq, Eq)]
pub enum SpaceWord {
    /// The centre alone.
    Centre,
    /// The terms of the lower central series, in order.
    Lcs,
    /// One ideal.
    Ideal,
}

fn push_word_line<F: Field>(
    out: &mut Vec<u8>,
    word: SpaceWord,
    table: &Table<F>,
) -> Result<(), AllocError>
    ensures { OnOk result (out.new.items ≡ out.old.items ++ head_line (word_text word) table.now.kind table.now.weight) }
{
    let field = table.field().kind();
    match word {
        SpaceWord::Centre => push_head_line(out, b"centre", field, table.weight()),
        SpaceWord::Lcs => push_head_line(out, b"lcs", field, table.weight()),
        SpaceWord::Ideal => push_head_line(out, b"ideal", field, table.weight()),
    }
}

fn push_row<F: Field>(out: &mut Vec<u8>, field: &F, row: &Row<F>) -> Result<(), AllocError>
    requires { AreElements (F.kind_of field.now) row.now }
    ensures { OnOk result (out.new.items ≡ out.old.items ++ row_line row.now) }
{
    push_combination(out, field, row)?;
    out.extend_from_slice(b"\n")
}

fn push_rows<F: Field>(out: &mut Vec<u8>, field: &F, rows: &Rows<F>) -> Result<(), AllocError>
    requires { All (AreElements (F.kind_of field.now)) rows.now }
    ensures { OnOk result (out.new.items ≡ out.old.items ++ row_lines rows.now) }
{
    for k in 0..rows.len() {
        if let Some(row) = rows.get(k) {
            push_row(out, field, row)?;
        }
    }
    Ok(())
}

fn push_term_head(out: &mut Vec<u8>, word: SpaceWord, k: usize) -> Result<(), AllocError>
    ensures { OnOk result (out.new.items ≡ out.old.items ++ term_head word k) }
{
    match word {
        SpaceWord::Centre | SpaceWord::Ideal => Ok(()),
        SpaceWord::Lcs => {
            out.extend_from_slice(b"term ")?;
            push_number(out, k as u64)?;
            out.extend_from_slice(b" ")
        }
    }
}

fn push_term<F: Field>(
    out: &mut Vec<u8>,
    field: &F,
    word: SpaceWord,
    k: usize,
    rows: &Rows<F>,
) -> Result<(), AllocError>
    requires { All (AreElements (F.kind_of field.now)) rows.now }
    ensures { OnOk result (out.new.items ≡ out.old.items ++ term_line word k rows.now) }
{
    push_term_head(out, word, k)?;
    push_count(out, b"dimension ", rows.len())?;
    push_rows(out, field, rows)
}

fn push_terms<F: Field>(
    out: &mut Vec<u8>,
    field: &F,
    word: SpaceWord,
    terms: &Spaces<F>,
) -> Result<(), AllocError>
    requires { All (All (AreElements (F.kind_of field.now))) terms.now }
    ensures { OnOk result (out.new.items ≡ out.old.items ++ term_lines word 1 terms.now) }
{
    for k in 0..terms.len() {
        if let Some(rows) = terms.get(k) {
            push_term(out, field, word, k + 1, rows)?;
        }
    }
    Ok(())
}

/// The text of spaces over the table's basis: of one space, or under `Lcs` of the terms of a
/// series.
pub fn space_text<F: Field>(
    alloc: Global,
    word: SpaceWord,
    table: &Table<F>,
    terms: &Spaces<F>,
) -> Result<Vec<u8>, AllocError>
    requires { All (All (AreElements table.now.kind)) terms.now }
    ensures { IfOk result (λ text. text.items ≡ space_text word table.now terms.now) }
{
    let mut out = Vec::new(alloc);
    push_word_line(&mut out, word, table)?;
    push_terms(&mut out, table.field(), word, terms)?;
    out.extend_from_slice(b"end\n")?;
    Ok(out)
}
