//! Lists in the syntax of GAP, and rows as lists.
ghost use Rattle.std.specs.Prelude.{◌≡◌, ◌≤◌, ◌-◌, ◌++◌, true, IfOk, OnOk};
ghost use Rattle.fpl_numbers.specs.Numbers.{IsElement};
ghost use Rattle.fpl_scalar.specs.Vectors.{AreElements};
ghost use Rattle.fpl_print.specs.Combinations.{none_after};
ghost use Rattle.fpl_print.specs.GapText.{comma, entry_text, entry_or_nothing, entries_text, row_text};

use fpl_numbers::Num;
use fpl_rows::Row;
use fpl_scalar::Field;
use fpl_spelling::{push_num, push_number};
use std::alloc::AllocError;

pub(crate) fn push_text(out: &mut Vec<u8>, text: &[u8]) -> Result<(), AllocError>
    ensures { OnOk result (out.new.items ≡ out.old.items ++ text.now) }
{
    out.extend_from_slice(text)
}

/// Appends what stands before an item of a list.
pub(crate) fn push_comma(out: &mut Vec<u8>, first: bool) -> Result<(), AllocError>
    ensures { OnOk result (out.new.items ≡ out.old.items ++ comma first) }
{
    if first {
        return out.extend_from_slice(b" ");
    }
    out.extend_from_slice(b", ")
}

// Appends a place, which counts from 1, and its number.
fn push_entry(out: &mut Vec<u8>, first: bool, i: u32, c: Num) -> Result<(), AllocError>
    requires { 1 ≤ i }
    ensures { OnOk result (out.new.items ≡ out.old.items ++ entry_text first (i - 1) c) }
{
    push_comma(out, first)?;
    out.extend_from_slice(b"[ ")?;
    push_number(out, i)?;
    out.extend_from_slice(b", ")?;
    push_num(out, c)?;
    out.extend_from_slice(b" ]")
}

// Appends a place and its number, where that isn't 0, and says whether none stands yet.
fn push_if_any<F: Field>(
    out: &mut Vec<u8>,
    field: &F,
    first: bool,
    c: F::Elem,
    i: u32,
) -> Result<bool, AllocError>
    requires number { 1 ≤ i }
    requires element { IsElement (F.kind_of field.now) (F.number c) }
    ensures { IfOk result (λ none_yet. (none_yet ≡ none_after first (F.number c)) × (out.new.items ≡ out.old.items ++ entry_or_nothing first (i - 1) (F.number c))) }
{
    if field.is_zero(c) {
        return Ok(first);
    }
    push_entry(out, first, i, field.num(c))?;
    Ok(false)
}

// Appends the numbers of a row that aren't 0, each with its place.
fn push_entries<F: Field>(out: &mut Vec<u8>, field: &F, row: &Row<F>) -> Result<(), AllocError>
    requires { AreElements (F.kind_of field.now) row.now }
    ensures { OnOk result (out.new.items ≡ out.old.items ++ entries_text true 0 row.now) }
{
    let mut first = true;
    let mut after = 0;
    while let Some(s) = row.next(after) {
        first = push_if_any(out, field, first, row.at(s), s)?;
        after = s;
    }
    Ok(())
}

/// Appends a row as the list of its numbers that aren't 0, each with its place.
pub(crate) fn push_row<F: Field>(
    out: &mut Vec<u8>,
    field: &F,
    row: &Row<F>,
) -> Result<(), AllocError>
    requires { AreElements (F.kind_of field.now) row.now }
    ensures { OnOk result (out.new.items ≡ out.old.items ++ row_text row.now) }
{
    out.extend_from_slice(b"[")?;
    push_entries(out, field, row)?;
    out.extend_from_slice(b" ]")
}
