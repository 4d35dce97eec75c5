//! The ordered words of a weight.
ghost use Rattle.std.specs.Prelude.{◌≡◌, ◌≤◌, ◌<◌, suc, length, map, IfOk};
ghost use Rattle.fpl_envelope.specs.Counts.{AreCounts, words_in, word_in};

use crate::counts::{Counts, MOST_WORDS, Place};
use crate::poly::Word;
use fpl_scalar::Field;
use fpl_table::Table;
use std::alloc::{AllocError, Global};

/// The counts of the weights up to `w`. Where a weight has more words than are numbered, memory is said to be wanting.
pub(crate) fn counts_through<F: Field>(
    alloc: Global,
    table: &Table<F>,
    w: u32,
) -> Result<Counts, AllocError>
    requires { w ≤ table.now.weight }
    ensures counts { IfOk result (λ c. AreCounts table.now c) }
    ensures depth { IfOk result (λ c. length c ≡ suc w) }
{
    let mut counts = Counts::new(alloc)?;
    for below in 0..w {
        let row = counts.next_row(alloc, table, below + 1)?;
        if row[row.len() - 1] > MOST_WORDS {
            return Err(AllocError);
        }
        counts.push(table, row)?;
    }
    Ok(counts)
}

/// The word with a number.
pub(crate) fn word<F: Field>(
    alloc: Global,
    table: &Table<F>,
    counts: &Counts,
    at: Place,
) -> Result<Word, AllocError>
    requires counts { AreCounts table.now counts.now }
    requires weight { at.weight < length counts.now }
    requires number { at.number < length (words_in table.now at.weight) }
    ensures { IfOk result (λ word. word ≡ map suc (word_in table.now at.weight at.number)) }
{
    let mut letters = Vec::new(alloc);
    let mut left = at;
    while left.weight > 0 {
        let letter = counts.letter(table, left);
        letters.push(letter)?;
        left = counts.rest(table, left, letter);
    }
    Ok(Word { letters })
}

/// The words of weight `w`, in their order.
pub(crate) fn words_by<F: Field>(
    alloc: Global,
    table: &Table<F>,
    counts: &Counts,
    w: u32,
) -> Result<Vec<Word>, AllocError>
    requires counts { AreCounts table.now counts.now }
    requires weight { w < length counts.now }
    ensures { IfOk result (λ list. list.items ≡ map (λ u. map suc u) (words_in table.now w)) }
{
    let mut list = Vec::new(alloc);
    for number in 0..counts.total(table, w) {
        list.push(word(alloc, table, counts, Place { weight: w, number })?)?;
    }
    Ok(list)
}

/// The ordered words of weight `w`, in their order. A weight of more than 2,000,000 words wants more memory than there is.
pub fn words<F: Field>(alloc: Global, table: &Table<F>, w: u32) -> Result<Vec<Word>, AllocError>
    requires { w ≤ table.now.weight }
    ensures { IfOk result (λ list. list.items ≡ map (λ u. map suc u) (words_in table.now w)) }
{
    let counts = counts_through(alloc, table, w)?;
    words_by(alloc, table, &counts, w)
}
