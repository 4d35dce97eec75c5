//! Combinations of words.
ghost use Rattle.std.specs.Prelude.{◌≡◌, ◌≤◌, ◌-◌, ◌++◌, ℕ, List, IfOk, OnOk};
ghost use Rattle.fpl_numbers.specs.Numbers.{IsElement};
ghost use Rattle.fpl_scalar.specs.Vectors.{AreElements};
ghost use Rattle.fpl_print.specs.Combinations.{none_after, term_or_nothing, combination_text};
ghost use Rattle.fpl_envelope_text.specs.Lists.{name_at};

use crate::letters::push_word;
use fpl_envelope::Word;
use fpl_print::push_coefficient;
use fpl_rows::Row;
use fpl_scalar::Field;
use std::alloc::AllocError;

/// Appends the name of word `s` of a list, counted from 0.
fn push_name_at(out: &mut Vec<u8>, words: &[Word], s: u32) -> Result<(), AllocError>
    ensures { OnOk result (out.new.items ≡ out.old.items ++ name_at words.now s) }
{
    match words.get(s as usize) {
        Some(word) => push_word(out, &word.letters),
        None => Ok(()),
    }
}

/// Appends one term of a combination of words, where its number isn't 0, and says whether none stands yet. The place counts from 0.
fn push_term<F: Field>(
    out: &mut Vec<u8>,
    field: &F,
    first: bool,
    c: F::Elem,
    words: &[Word],
    s: u32,
) -> Result<bool, AllocError>
    requires element { IsElement (F.kind_of field.now) (F.number c) }
    ensures { IfOk result (λ none_yet. (none_yet ≡ none_after first (F.number c))
        × (out.new.items ≡ out.old.items ++ term_or_nothing (name_at words.now) first s (F.number c))) }
{
    if field.is_zero(c) {
        return Ok(first);
    }
    push_coefficient(out, first, field.num(c))?;
    push_name_at(out, words, s)?;
    Ok(false)
}

/// Appends the combination of words that a row is.
pub(crate) fn push_form<F: Field>(
    out: &mut Vec<u8>,
    field: &F,
    words: &[Word],
    row: &Row<F>,
) -> Result<(), AllocError>
    requires { AreElements (F.kind_of field.now) row.now }
    ensures { OnOk result (out.new.items ≡ out.old.items ++ combination_text (name_at words.now) row.now) }
{
    let mut first = true;
    let mut after = 0;
    while let Some(s) = row.next(after) {
        first = push_term(out, field, first, row.at(s), words, s - 1)?;
        after = s;
    }
    if first {
        return out.extend_from_slice(b"0");
    }
    Ok(())
}
