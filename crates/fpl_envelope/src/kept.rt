//! The straight forms of basis elements before ordered words, kept.
ghost use Rattle.std.specs.Prelude.{◌≡◌, ◌≤◌, ◌<◌, ◌+◌, ◌-◌, ◌++◌, ◌∷◌, [], suc, length, map, get_or, IfOk, OnOk};
ghost use Rattle.fpl_table.specs.Plain.{plain_basis, through};
ghost use Rattle.fpl_envelope.specs.Counts.{words_in, skipped_in};
ghost use Rattle.fpl_envelope.specs.Action.{acted, StandsFor};
ghost use Rattle.fpl_envelope.specs.Kept.{HasElement, AreProducts};

use crate::counts::Counts;
use crate::listing::words_by;
use crate::poly::Word;
use fpl_rows::Row;
use fpl_scalar::Field;
use fpl_table::Table;
use std::alloc::{AllocError, Global};
use std::marker::Model;

/// Those of one weight: for each basis element of at most it, the last first, its straight forms before the words of the weight that is left, up to those
/// before which it may stand. Each is a row over the words of the weight.
#[derive(Drop)]
pub(crate) struct Level<F: Field> {
    elements: Vec<Vec<Row<F>>>,
}

impl<F: Field> Model for Level<F> {
    ghost use Rattle.std.specs.Prelude.{List, map};
    ghost use Rattle.fpl_numbers.specs.declared.number.Num.{Num};

    ghost Value = { List (List (List Num)) };

    ghost view = { λ l. map (λ v. v.items) l.elements.items };
}

impl<F: Field> Level<F> {
    pub(crate) fn new(alloc: Global) -> Level<F>
        ensures { result ≡ [] }
    {
        Level {
            elements: Vec::new(alloc),
        }
    }

    /// Puts the rows of the basis element before the last one last.
    pub(crate) fn push(&mut self, rows: Vec<Row<F>>) -> Result<(), AllocError>
        ensures { OnOk result (self.new ≡ self.old ++ rows.items ∷ []) }
    {
        self.elements.push(rows)?;
        Ok(())
    }

    /// The straight form of basis element `i` before word `number`, where this is the level of weight `w`.
    pub(crate) fn row(&self, table: &Table<F>, w: u32, i: u32, number: u64) -> &Row<F>
        requires weight { w ≤ table.now.weight }
        requires letter { (1 ≤ i) × (i ≤ through table.now w) }
        requires element { HasElement table.now w (i - 1) self.now }
        requires number { number < skipped_in table.now (w - (plain_basis table.now (i - 1)).weight) (i - 1) }
        ensures { StandsFor table.now w (acted table.now (i - 1) (w - (plain_basis table.now (i - 1)).weight) number) result.now }
    {
        &self.elements[(table.through(w) - i) as usize][number as usize]
    }
}

/// The straight forms of basis elements before ordered words, before which they may not stand, of the weights from 0 on; and how many words there are.
#[derive(Drop)]
pub struct Products<F: Field> {
    counts: Counts,
    levels: Vec<Level<F>>,
}

impl<F: Field> Model for Products<F> {
    ghost use Rattle.fpl_envelope.specs.Kept.{Kept};

    ghost Value = { Kept };

    ghost view = { λ p. record { counts = p.counts; levels = p.levels.items } };
}

impl<F: Field> Products<F> {
    /// No level yet.
    pub(crate) fn new(alloc: Global, counts: Counts) -> Products<F>
        ensures { result ≡ record { counts = counts; levels = [] } }
    {
        Products {
            counts,
            levels: Vec::new(alloc),
        }
    }

    pub(crate) fn counts(&self) -> &Counts
        ensures { result.now ≡ self.now.counts }
    {
        &self.counts
    }

    /// The level of weight `w`.
    pub(crate) fn level(&self, w: u32) -> &Level<F>
        requires { w < length self.now.levels }
        ensures { result.now ≡ get_or self.now.levels w [] }
    {
        &self.levels[w as usize]
    }

    /// The ordered words of weight `w`, in their order.
    pub fn words(&self, alloc: Global, table: &Table<F>, w: u32) -> Result<Vec<Word>, AllocError>
        requires products { AreProducts table.now self.now }
        requires weight { w < length self.now.levels }
        ensures { IfOk result (λ list. list.items ≡ map (λ u. map suc u) (words_in table.now w)) }
    {
        words_by(alloc, table, &self.counts, w)
    }

    /// How many words of weight `w` come before those before which basis element `i` may stand.
    pub fn skipped(&self, table: &Table<F>, w: u32, i: u32) -> u64
        requires products { AreProducts table.now self.now }
        requires weight { w < length self.now.levels }
        requires letter { (1 ≤ i) × (i ≤ length table.now.basis) }
        ensures value { result ≡ skipped_in table.now w (i - 1) }
        ensures few { result ≤ 2000000 }
    {
        self.counts.skipped(table, w, i)
    }

    /// The straight form of basis element `i` before word `number` of the weight that is left of `w`, counted from 0, before which it may not stand: a row
    /// over the words of weight `w`.
    pub fn row(&self, table: &Table<F>, w: u32, i: u32, number: u64) -> &Row<F>
        requires products { AreProducts table.now self.now }
        requires weight { w < length self.now.levels }
        requires letter { (1 ≤ i) × (i ≤ through table.now w) }
        requires number { number < skipped_in table.now (w - (plain_basis table.now (i - 1)).weight) (i - 1) }
        ensures { StandsFor table.now w (acted table.now (i - 1) (w - (plain_basis table.now (i - 1)).weight) number) result.now }
    {
        self.levels[w as usize].row(table, w, i, number)
    }

    /// Puts the level of the next weight last.
    pub(crate) fn push(&mut self, level: Level<F>) -> Result<(), AllocError>
        ensures { OnOk result (self.new ≡ record { counts = self.old.counts; levels = self.old.levels ++ level ∷ [] }) }
    {
        self.levels.push(level)?;
        Ok(())
    }
}
