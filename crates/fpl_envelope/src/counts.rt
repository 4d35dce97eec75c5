//! How many ordered words there are, by weight and first letter. From these counts the number of a word follows, and no list of words is kept.
ghost use Rattle.std.specs.Prelude.{◌≡◌, ◌≤◌, ◌<◌, ◌+◌, ◌-◌, ◌*◌, ◌^◌, ◌++◌, ◌∷◌, suc, length, map, get_or, IfOk, OnOk};
ghost use Rattle.math_words.specs.Words.{may_stand};
ghost use Rattle.fpl_table.specs.Plain.{plain_basis, table_in, through};
ghost use Rattle.fpl_table.specs.Shape.{HasShape};
ghost use Rattle.fpl_envelope.specs.Counts.{AreCounts, IsCountRow, IsRest, words_in, word_in, heads_in, skipped_in};

use fpl_model::Parity;
use fpl_scalar::Field;
use fpl_table::Table;
use std::alloc::{AllocError, Global};
use std::marker::Model;

/// More words than these are not numbered.
pub(crate) const MOST_WORDS: u64 = 2_000_000;

/// For each weight, how many of its ordered words begin with an element before the first, before the second, .. , and before the one after the last basis
/// element of at most the weight.
#[derive(Drop)]
pub(crate) struct Counts {
    /// The row of a weight stands at its place; that of weight 0 is empty.
    rows: Vec<Vec<u64>>,
}

impl Model for Counts {
    ghost use Rattle.std.specs.Prelude.{ℕ, List, map};

    ghost Value = { List (List ℕ) };

    ghost view = { λ c. map (λ r. r.items) c.rows.items };
}

/// The number of a word of a weight, from 0.
#[derive(Clone, Copy)]
pub(crate) struct Place {
    pub(crate) weight: u32,
    pub(crate) number: u64,
}

impl Counts {
    /// Those of weight 0 alone.
    pub(crate) fn new(alloc: Global) -> Result<Counts, AllocError>
        ensures { IfOk result (λ c. length c ≡ 1) }
    {
        let mut rows = Vec::new(alloc);
        rows.push(Vec::new(alloc))?;
        Ok(Counts { rows })
    }

    // The numbers of words of weight `w` that begin with an element before `b_i`, which counts from 0 here.
    fn heads<F: Field>(&self, table: &Table<F>, w: u32, i: u32) -> u64
        requires counts { AreCounts table.now self.now }
        requires weight { (1 ≤ w) × (w < length self.now) }
        requires letter { i ≤ length table.now.basis }
        ensures value { result ≡ heads_in table.now w i }
        ensures shape { HasShape table.now }
    {
        let row = &self.rows[w as usize];
        let last = table.through(w);
        // a heavier element begins no word
        row[i.min(last) as usize]
    }

    /// How many words of weight `w` there are.
    pub(crate) fn total<F: Field>(&self, table: &Table<F>, w: u32) -> u64
        requires counts { AreCounts table.now self.now }
        requires weight { w < length self.now }
        ensures value { result ≡ length (words_in table.now w) }
        ensures few { result ≤ 2000000 }
    {
        if w == 0 {
            return 1;
        }
        self.heads(table, w, table.basis_len())
    }

    /// How many words of weight `w` come before those before which basis element `i` may stand.
    pub(crate) fn skipped<F: Field>(&self, table: &Table<F>, w: u32, i: u32) -> u64
        requires counts { AreCounts table.now self.now }
        requires weight { w < length self.now }
        requires letter { (1 ≤ i) × (i ≤ length table.now.basis) }
        ensures value { result ≡ skipped_in table.now w (i - 1) }
        ensures within { result ≤ length (words_in table.now w) }
    {
        if w == 0 {
            return 0;
        }
        match table.basis(i).parity {
            Parity::Even => self.heads(table, w, i - 1),
            Parity::Odd => self.heads(table, w, i),
        }
    }

    /// The counts of the next weight, which is `w`.
    pub(crate) fn next_row<F: Field>(
        &self,
        alloc: Global,
        table: &Table<F>,
        w: u32,
    ) -> Result<Vec<u64>, AllocError>
        requires counts { AreCounts table.now self.now }
        requires next { w ≡ length self.now }
        requires within { w ≤ table.now.weight }
        ensures value { IfOk result (λ row. IsCountRow table.now w row.items) }
        ensures shape { IfOk result (λ row. HasShape table.now) }
    {
        let mut row = Vec::new(alloc);
        let mut sum = 0;
        row.push(sum)?;
        for i in 0..table.through(w) {
            let rest = w - table.basis(i + 1).weight;
            sum += self.total(table, rest) - self.skipped(table, rest, i + 1);
            row.push(sum)?;
        }
        Ok(row)
    }

    /// Takes the counts of the next weight in.
    pub(crate) fn push<F: Field>(
        &mut self,
        table: &Table<F>,
        row: Vec<u64>,
    ) -> Result<(), AllocError>
        requires counts { AreCounts table.now self.old }
        requires next { length self.old ≤ table.now.weight }
        requires row { IsCountRow table.now (length self.old) row.items }
        requires few { length (words_in table.now (length self.old)) ≤ 2000000 }
        ensures counts { OnOk result (AreCounts table.now self.new) }
        ensures next { OnOk result (length self.new ≡ suc (length self.old)) }
    {
        self.rows.push(row)?;
        Ok(())
    }

    /// The first letter of a word.
    pub(crate) fn letter<F: Field>(&self, table: &Table<F>, at: Place) -> u32
        requires counts { AreCounts table.now self.now }
        requires weight { (1 ≤ at.weight) × (at.weight < length self.now) }
        requires number { at.number < length (words_in table.now at.weight) }
        ensures within { (1 ≤ result) × (result ≤ length table.now.basis) }
        ensures low { heads_in table.now at.weight (result - 1) ≤ at.number }
        ensures high { at.number < heads_in table.now at.weight result }
    {
        let mut i = table.basis_len();
        while self.heads(table, at.weight, i - 1) > at.number {
            i -= 1;
        }
        i
    }

    /// The number of the rest of a word, after its first letter.
    pub(crate) fn rest<F: Field>(&self, table: &Table<F>, at: Place, letter: u32) -> Place
        requires counts { AreCounts table.now self.now }
        requires weight { (1 ≤ at.weight) × (at.weight < length self.now) }
        requires letter { (1 ≤ letter) × (letter ≤ length table.now.basis) }
        requires low { heads_in table.now at.weight (letter - 1) ≤ at.number }
        requires high { at.number < heads_in table.now at.weight letter }
        ensures { IsRest table.now (letter - 1) at.weight at.number result.weight result.number }
    {
        let weight = at.weight - table.basis(letter).weight;
        let before = self.heads(table, at.weight, letter - 1);
        Place {
            weight,
            number: at.number - before + self.skipped(table, weight, letter),
        }
    }

    /// Whether basis element `i` may stand before a word, so that the word stays ordered.
    pub(crate) fn stands<F: Field>(&self, table: &Table<F>, i: u32, at: Place) -> bool
        requires counts { AreCounts table.now self.now }
        requires weight { at.weight < length self.now }
        requires letter { (1 ≤ i) × (i ≤ length table.now.basis) }
        requires number { at.number < length (words_in table.now at.weight) }
        ensures value { result ≡ may_stand (table_in table.now.kind table.now) (i - 1) (word_in table.now at.weight at.number) }
        ensures shape { HasShape table.now }
    {
        let _count = table.basis_len();
        at.number >= self.skipped(table, at.weight, i)
    }

    /// The number of a word with a basis element in front, which may stand before it.
    pub(crate) fn before<F: Field>(&self, table: &Table<F>, i: u32, at: Place) -> u64
        requires counts { AreCounts table.now self.now }
        requires letter { (1 ≤ i) × (i ≤ length table.now.basis) }
        requires weight { (plain_basis table.now (i - 1)).weight + at.weight < length self.now }
        requires number { at.number < length (words_in table.now at.weight) }
        requires stands { skipped_in table.now at.weight (i - 1) ≤ at.number }
        ensures within { result < length (words_in table.now ((plain_basis table.now (i - 1)).weight + at.weight)) }
        ensures word { word_in table.now ((plain_basis table.now (i - 1)).weight + at.weight) result ≡ (i - 1) ∷ word_in table.now at.weight at.number }
    {
        let weight = table.basis(i).weight + at.weight;
        self.heads(table, weight, i - 1) + (at.number - self.skipped(table, at.weight, i))
    }
}
