//! Combinations of named things.
ghost use Rattle.std.specs.Prelude.{◌≡◌, ◌≤◌, ◌<◌, ◌-◌, ◌^◌, ◌++◌, ℕ, true, List, length, map, slice_index_or, IfOk, OnOk, unsigned_abs};
ghost use Rattle.fpl_spelling.specs.Fronts.{KeepsFront};
ghost use Rattle.fpl_numbers.specs.Numbers.{IsElement};
ghost use Rattle.fpl_scalar.specs.Vectors.{AreElements};
ghost use Rattle.fpl_spelling.specs.Spelling.{sign_text, is_below_nought};
ghost use Rattle.fpl_print.specs.Combinations.{factor_text, combination_text, none_after, term_or_nothing};
ghost use Rattle.fpl_print.specs.CellTexts.{cells_text, end_text};
ghost use Rattle.fpl_print.specs.TableText.{basis_name, pair_name};

use fpl_numbers::Num;
use fpl_rows::Row;
use fpl_scalar::Field;
use fpl_spelling::{is_below_nought, push_magnitude, push_number, push_sign, push_text};
use std::alloc::AllocError;

fn push_factor(out: &mut Vec<u8>, c: Num) -> Result<(), AllocError>
    ensures text { OnOk result (out.new.items ≡ out.old.items ++ factor_text c) }
    ensures front { KeepsFront out.old.items out.new.items }
{
    if c.numerator.unsigned_abs() == 1 && c.denominator.unsigned_abs() == 1 {
        return Ok(());
    }
    push_magnitude(out, c)?;
    push_text(out, b"*")
}

/// Appends all of a term but its name: its sign, and its number where that is not 1. The first term of a sum has no sign `+`.
pub fn push_coefficient(out: &mut Vec<u8>, first: bool, c: Num) -> Result<(), AllocError>
    ensures text { OnOk result (out.new.items ≡ out.old.items ++ (sign_text first (is_below_nought c) ++ factor_text c)) }
    ensures front { KeepsFront out.old.items out.new.items }
{
    push_sign(out, first, is_below_nought(c))?;
    push_factor(out, c)
}

/// Appends the name of basis element `i`, which counts from 1.
pub(crate) fn push_basis_name(out: &mut Vec<u8>, i: u32) -> Result<(), AllocError>
    requires { 1 ≤ i }
    ensures text { OnOk result (out.new.items ≡ out.old.items ++ basis_name (i - 1)) }
    ensures front { KeepsFront out.old.items out.new.items }
{
    push_text(out, b"b")?;
    push_number(out, i)
}

/// Appends the name of a pair of basis elements, which count from 1.
pub(crate) fn push_pair_name(out: &mut Vec<u8>, i: u32, j: u32) -> Result<(), AllocError>
    requires { (1 ≤ i) × (1 ≤ j) }
    ensures text { OnOk result (out.new.items ≡ out.old.items ++ pair_name (i - 1) (j - 1)) }
    ensures front { KeepsFront out.old.items out.new.items }
{
    push_text(out, b"[")?;
    push_basis_name(out, i)?;
    push_text(out, b",")?;
    push_basis_name(out, j)?;
    push_text(out, b"]")
}

// Appends one term of a combination of basis elements, where its number isn't 0, and says whether none stands yet.
fn push_term<F: Field>(
    out: &mut Vec<u8>,
    field: &F,
    first: bool,
    c: F::Elem,
    i: u32,
) -> Result<bool, AllocError>
    requires number { 1 ≤ i }
    requires element { IsElement (F.kind_of field.now) (F.number c) }
    ensures text { IfOk result (λ none_yet. (none_yet ≡ none_after first (F.number c)) × (out.new.items ≡ out.old.items
        ++ term_or_nothing basis_name first (i - 1) (F.number c))) }
    ensures front { KeepsFront out.old.items out.new.items }
{
    if field.is_zero(c) {
        return Ok(first);
    }
    push_coefficient(out, first, field.num(c))?;
    push_basis_name(out, i)?;
    Ok(false)
}

// Appends the terms of the numbers at some places, which count from 0, and says whether there is none.
fn push_terms_at<F: Field>(
    out: &mut Vec<u8>,
    field: &F,
    places: &[u32],
    numbers: &[F::Elem],
) -> Result<bool, AllocError>
    requires same { length places.now ≡ length numbers.now }
    requires below { (k : ℕ) → k < length places.now → slice_index_or places.now k 0 < 2 ^ 32 - 1 }
    requires elements { AreElements (F.kind_of field.now) (map F.number numbers.now) }
    ensures text { IfOk result (λ none_yet. out.new.items ++ end_text none_yet ≡ out.old.items ++ cells_text basis_name true places.now (map F.number numbers.now)) }
    ensures front { KeepsFront out.old.items out.new.items }
{
    let mut first = true;
    for k in 0..places.len() {
        first = push_term(out, field, first, numbers[k], places[k] + 1)?;
    }
    Ok(first)
}

// Appends the terms of a row from one position to the next, and says whether there is none.
fn push_terms_by_position<F: Field>(
    out: &mut Vec<u8>,
    field: &F,
    row: &Row<F>,
) -> Result<bool, AllocError>
    requires { AreElements (F.kind_of field.now) row.now }
    ensures text { IfOk result (λ none_yet. out.new.items ++ end_text none_yet ≡ out.old.items ++ combination_text basis_name row.now) }
    ensures front { KeepsFront out.old.items out.new.items }
{
    let mut first = true;
    let mut after = 0;
    while let Some(s) = row.next(after) {
        first = push_term(out, field, first, row.at(s), s)?;
        after = s;
    }
    Ok(first)
}

fn push_terms<F: Field>(out: &mut Vec<u8>, field: &F, row: &Row<F>) -> Result<bool, AllocError>
    requires { AreElements (F.kind_of field.now) row.now }
    ensures text { IfOk result (λ none_yet. out.new.items ++ end_text none_yet ≡ out.old.items ++ combination_text basis_name row.now) }
    ensures front { KeepsFront out.old.items out.new.items }
{
    // its clause bounds the places
    let _count = row.len();
    match row.cells() {
        Some((places, numbers)) => push_terms_at(out, field, places, numbers),
        None => push_terms_by_position(out, field, row),
    }
}

/// Appends the combination of basis elements that a row is.
pub fn push_combination<F: Field>(
    out: &mut Vec<u8>,
    field: &F,
    row: &Row<F>,
) -> Result<(), AllocError>
    requires { AreElements (F.kind_of field.now) row.now }
    ensures text { OnOk result (out.new.items ≡ out.old.items ++ combination_text basis_name row.now) }
    ensures front { KeepsFront out.old.items out.new.items }
{
    let none_yet = push_terms(out, field, row)?;
    if none_yet {
        return push_text(out, b"0");
    }
    Ok(())
}
