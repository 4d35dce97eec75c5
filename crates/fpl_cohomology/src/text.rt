//! The text of the view cohomology.
ghost use Rattle.std.specs.Prelude.{◌≡◌, ◌≤◌, ◌<◌, ◌+◌, ◌++◌, ℕ, List, length, IfOk, OnOk, All};
ghost use Rattle.fpl_numbers.specs.Numbers.{IsElement};
ghost use Rattle.fpl_scalar.specs.Vectors.{AreElements};
ghost use Rattle.fpl_print.specs.Combinations.{none_after, term_or_nothing, combination_text};
ghost use Rattle.plain_cohomology.specs.Plain.{Low};
ghost use Rattle.plain_cohomology.specs.Means.{HasElements};
ghost use Rattle.fpl_cohomology.specs.Rows.{low_as};
ghost use Rattle.fpl_cohomology.specs.Text.{form_name, name_at, form_line, form_lines, degree_head, degree_lines, low_lines, lows_lines, cohomology_text};

use crate::listing::forms;
use crate::represented::{Low, Lows};
use crate::tuple::{Forms, Tuple};
use fpl_print::{push_coefficient, push_count, push_head_line};
use fpl_rows::{Row, Rows};
use fpl_scalar::Field;
use fpl_spelling::push_number;
use fpl_table::Table;
use std::alloc::{AllocError, Global};

/// Appends the name of the form that is 1 at a tuple.
fn push_name(out: &mut Vec<u8>, tuple: &Tuple) -> Result<(), AllocError>
    ensures { OnOk result (out.new.items ≡ out.old.items ++ form_name tuple.now) }
{
    if let Some(i) = tuple.get(0) {
        out.extend_from_slice(b"c")?;
        push_number(out, *i)?;
    }
    if let Some(j) = tuple.get(1) {
        out.extend_from_slice(b"^c")?;
        push_number(out, *j)?;
    }
    Ok(())
}

/// Appends the name of the form that is 1 at tuple `s`, counted from 0.
fn push_name_at(out: &mut Vec<u8>, forms: &Forms, s: u32) -> Result<(), AllocError>
    ensures { OnOk result (out.new.items ≡ out.old.items ++ name_at forms.now s) }
{
    match forms.get(s as usize) {
        Some(tuple) => push_name(out, tuple),
        None => Ok(()),
    }
}

/// Appends one term of a combination of forms, where its number isn't 0, and says whether none
/// stands yet. The place counts from 0.
fn push_term<F: Field>(
    out: &mut Vec<u8>,
    field: &F,
    first: bool,
    c: F::Elem,
    forms: &Forms,
    s: u32,
) -> Result<bool, AllocError>
    requires element { IsElement (F.kind_of field.now) (F.number c) }
    ensures { IfOk result (λ none_yet. (none_yet ≡ none_after first (F.number c))
        × (out.new.items ≡ out.old.items ++ term_or_nothing (name_at forms.now) first s (F.number c))) }
{
    if field.is_zero(c) {
        return Ok(first);
    }
    push_coefficient(out, first, field.num(c))?;
    push_name_at(out, forms, s)?;
    Ok(false)
}

/// Appends the combination of forms that a row is.
fn push_combination<F: Field>(
    out: &mut Vec<u8>,
    field: &F,
    forms: &Forms,
    row: &Row<F>,
) -> Result<(), AllocError>
    requires { AreElements (F.kind_of field.now) row.now }
    ensures { OnOk result (out.new.items ≡ out.old.items ++ combination_text (name_at forms.now) row.now) }
{
    let mut first = true;
    let mut after = 0;
    while let Some(s) = row.next(after) {
        first = push_term(out, field, first, row.at(s), forms, s - 1)?;
        after = s;
    }
    if first {
        return out.extend_from_slice(b"0");
    }
    Ok(())
}

fn push_form_line<F: Field>(
    out: &mut Vec<u8>,
    field: &F,
    forms: &Forms,
    row: &Row<F>,
) -> Result<(), AllocError>
    requires { AreElements (F.kind_of field.now) row.now }
    ensures { OnOk result (out.new.items ≡ out.old.items ++ form_line forms.now row.now) }
{
    push_combination(out, field, forms, row)?;
    out.extend_from_slice(b"\n")
}

fn push_form_lines<F: Field>(
    out: &mut Vec<u8>,
    field: &F,
    forms: &Forms,
    rows: &Rows<F>,
) -> Result<(), AllocError>
    requires { All (λ row. AreElements (F.kind_of field.now) row) rows.now }
    ensures { OnOk result (out.new.items ≡ out.old.items ++ form_lines forms.now rows.now) }
{
    for k in 0..rows.len() {
        if let Some(row) = rows.get(k) {
            push_form_line(out, field, forms, row)?;
        }
    }
    Ok(())
}

fn push_degree_head(out: &mut Vec<u8>, word: &[u8], w: u32, count: usize) -> Result<(), AllocError>
    ensures { OnOk result (out.new.items ≡ out.old.items ++ degree_head word.now w count) }
{
    out.extend_from_slice(word)?;
    out.extend_from_slice(b" weight ")?;
    push_number(out, w)?;
    push_count(out, b" dimension ", count)
}

/// Appends the lines of a degree: its dimension, and what represents it.
fn push_degree<F: Field>(
    out: &mut Vec<u8>,
    table: &Table<F>,
    word: &[u8],
    w: u32,
    forms: &Forms,
    rows: &Rows<F>,
) -> Result<(), AllocError>
    requires { All (λ row. AreElements table.now.kind row) rows.now }
    ensures { OnOk result (out.new.items ≡ out.old.items ++ degree_lines word.now w forms.now rows.now) }
{
    push_degree_head(out, word, w, rows.len())?;
    push_form_lines(out, table.field(), forms, rows)
}

/// Appends the lines of weight `w`.
fn push_low<F: Field>(
    alloc: Global,
    out: &mut Vec<u8>,
    table: &Table<F>,
    w: u32,
    low: &Low<F>,
) -> Result<(), AllocError>
    requires weight { (1 ≤ w) × (w ≤ table.now.weight) }
    requires elements { HasElements table.now.kind (low_as low.now.h1 low.now.h2) }
    ensures { OnOk result (out.new.items ≡ out.old.items ++ low_lines table.now w (low_as low.now.h1 low.now.h2)) }
{
    let singles = forms(alloc, table, 1, w)?;
    push_degree(out, table, b"H1", w, &singles, &low.h1)?;
    let pairs = forms(alloc, table, 2, w)?;
    push_degree(out, table, b"H2", w, &pairs, &low.h2)
}

fn push_lows<F: Field>(
    alloc: Global,
    out: &mut Vec<u8>,
    table: &Table<F>,
    lows: &Lows<F>,
) -> Result<(), AllocError>
    requires count { length lows.now ≡ table.now.weight }
    requires elements { All (HasElements table.now.kind) lows.now }
    ensures { OnOk result (out.new.items ≡ out.old.items ++ lows_lines table.now 1 lows.now) }
{
    for w in 0..table.weight() {
        if let Some(low) = lows.get(w as usize) {
            push_low(alloc, out, table, w + 1, low)?;
        }
    }
    Ok(())
}

/// The text of the view cohomology: for each weight from 1 on H1, then H2, each with its dimension
/// and what represents it. There is an item for each weight of the table, in order, whose rows are
/// over the tuples of its weight.
pub fn cohomology_text<F: Field>(
    alloc: Global,
    table: &Table<F>,
    lows: &Lows<F>,
) -> Result<Vec<u8>, AllocError>
    requires count { length lows.now ≡ table.now.weight }
    requires elements { All (HasElements table.now.kind) lows.now }
    ensures { IfOk result (λ text. text.items ≡ cohomology_text table.now lows.now) }
{
    let mut out = Vec::new(alloc);
    push_head_line(
        &mut out,
        b"cohomology",
        table.field().kind(),
        table.weight(),
    )?;
    push_lows(alloc, &mut out, table, lows)?;
    out.extend_from_slice(b"end\n")?;
    Ok(out)
}
