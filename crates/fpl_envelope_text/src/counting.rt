//! How many words of a weight are even, and how many odd.
ghost use Rattle.std.specs.Prelude.{◌≡◌, ◌≤◌, ◌<◌, ◌+◌, ◌++◌, [], suc, length, map, get_or, All, count_by, not, OnOk};
ghost use Rattle.math_algebra.specs.Symbols.{is_odd};
ghost use Rattle.plain_envelope.specs.Products.{word_parity};
ghost use Rattle.fpl_model.specs.Meaning.{parity_in};
ghost use Rattle.fpl_table.specs.Plain.{table_in};
ghost use Rattle.fpl_print.specs.SeriesText.{counts_text};
ghost use Rattle.fpl_print.specs.TableText.{text_of};
ghost use Rattle.fpl_envelope.specs.Counts.{words_in};
ghost use Rattle.fpl_envelope.specs.Polys.{word_of, IsWordIn};
ghost use Rattle.fpl_envelope_text.specs.Texts.{weight_line};
ghost use Rattle.fpl_envelope_text.specs.Lists.{spelled_words, AreLists};

use crate::lists::Lists;
use fpl_envelope::Word;
use fpl_model::Parity;
use fpl_scalar::Field;
use fpl_spelling::push_number;
use fpl_table::Table;
use std::alloc::AllocError;

/// How many words are even, and how many odd.
#[derive(Clone, Copy)]
struct Counts {
    evens: usize,
    odds: usize,
}

/// The parity of a word.
fn parity<F: Field>(table: &Table<F>, letters: &[u32]) -> Parity
    requires { IsWordIn table.now letters.now }
    ensures { parity_in result ≡ word_parity (table_in table.now.kind table.now) (word_of letters.now) }
{
    let mut parity = Parity::Even;
    let mut k = letters.len();
    while k > 0 {
        k -= 1;
        parity = table.basis(letters[k]).parity.plus(parity);
    }
    parity
}

/// How many words of a list are even, and how many odd.
fn counted<F: Field>(table: &Table<F>, words: &[Word]) -> Counts
    requires { All (IsWordIn table.now) words.now }
    ensures evens { result.evens ≡ count_by (λ u. not (is_odd (word_parity (table_in table.now.kind table.now) (word_of u)))) words.now }
    ensures odds { result.odds ≡ count_by (λ u. is_odd (word_parity (table_in table.now.kind table.now) (word_of u))) words.now }
{
    let mut counts = Counts { evens: 0, odds: 0 };
    for word in words {
        match parity(table, &word.letters) {
            Parity::Even => counts.evens += 1,
            Parity::Odd => counts.odds += 1,
        }
    }
    counts
}

fn push_counts(out: &mut Vec<u8>, counts: Counts) -> Result<(), AllocError>
    ensures { OnOk result (out.new.items ≡ out.old.items ++ counts_text counts.evens counts.odds) }
{
    out.extend_from_slice(b" even ")?;
    push_number(out, counts.evens)?;
    out.extend_from_slice(b" odd ")?;
    push_number(out, counts.odds)?;
    out.extend_from_slice(b"\n")
}

/// Appends the line of weight `w`, whose words these are.
fn push_weight_line<F: Field>(
    out: &mut Vec<u8>,
    table: &Table<F>,
    w: u32,
    words: &[Word],
) -> Result<(), AllocError>
    requires { words.now ≡ spelled_words table.now w }
    ensures { OnOk result (out.new.items ≡ out.old.items ++ weight_line (table_in table.now.kind table.now) w (words_in table.now w)) }
{
    let _most = table.weight();
    let counts = counted(table, words);
    out.extend_from_slice(b"weight ")?;
    push_number(out, w)?;
    push_counts(out, counts)
}

/// Appends the lines of the weights from 1 on.
pub(crate) fn push_weight_lines<F: Field>(
    out: &mut Vec<u8>,
    table: &Table<F>,
    lists: &Lists,
) -> Result<(), AllocError>
    requires lists { AreLists table.now lists.now }
    requires depth { length lists.now ≡ suc table.now.weight }
    ensures { OnOk result (out.new.items ≡ out.old.items
        ++ text_of table.now.weight (λ v. weight_line (table_in table.now.kind table.now) (v + 1) (words_in table.now (v + 1)))) }
{
    for w in 0..table.weight() {
        push_weight_line(out, table, w + 1, lists.of(w + 1))?;
    }
    Ok(())
}
