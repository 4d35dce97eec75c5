//! The action of basis elements on ordered words, added to a sum over the words of a weight.
ghost use Rattle.std.specs.Prelude.{◌≡◌, ◌≤◌, ◌<◌, ◌+◌, ◌-◌, ◌∷◌, ℕ, true, false, length, get_or};
ghost use Rattle.math_linear.specs.Kernel.{product_sum};
ghost use Rattle.math_algebra.specs.Derives.{sign};
ghost use Rattle.math_words.specs.Words.{may_stand};
ghost use Rattle.math_words.specs.Action.{half, action};
ghost use Rattle.fpl_numbers.specs.Numbers.{IsElement, is_nought, residue};
ghost use Rattle.fpl_numbers.specs.Kinds.{field_of, number_of};
ghost use Rattle.fpl_rows.specs.Meaning.{vector_in, IsRowOf};
ghost use Rattle.plain_envelope.specs.Straight.{led};
ghost use Rattle.fpl_table.specs.Plain.{plain_basis};
ghost use Rattle.fpl_table.specs.Shape.{IsRowUpTo};
ghost use Rattle.fpl_envelope.specs.Counts.{AreCounts, words_in, word_in, skipped_in};
ghost use Rattle.fpl_envelope.specs.Action.{IsOfResidues, IsEnveloped, IsSum, Adds, multiple, acted, passed, bracketed, row_value, field_in, math_in, number_in};
ghost use Rattle.fpl_envelope.specs.Kept.{HasElement, IsLevelFrom, AreProducts};

use crate::counts::{Counts, Place};
use crate::kept::{Level, Products};
use crate::sums::{add_at, add_row, times};
use fpl_model::Parity;
use fpl_rows::{Row, Work};
use fpl_scalar::Field;
use fpl_table::{PairSign, Table};

/// Adds `c` times the action of basis element `i` on a word, where both weigh `w`, as the level does.
pub(crate) fn add_acted<F: Field>(
    table: &Table<F>,
    counts: &Counts,
    level: &Level<F>,
    w: u32,
    i: u32,
    at: Place,
    c: F::Elem,
    sum: &mut Work<F>,
)
    requires table { IsEnveloped table.now }
    requires counts { AreCounts table.now counts.now }
    requires reached { w < length counts.now }
    requires letter { (1 ≤ i) × (i ≤ length table.now.basis) }
    requires weight { (plain_basis table.now (i - 1)).weight + at.weight ≡ w }
    requires number { at.number < length (words_in table.now at.weight) }
    requires element { HasElement table.now w (i - 1) level.now }
    requires factor { IsElement table.now.kind (F.number c) }
    requires sum { IsSum table.now w sum.old }
    ensures sum { IsSum table.now w sum.new }
    ensures adds { Adds table.now w (multiple table.now (F.number c) (acted table.now (i - 1) at.weight at.number)) sum.old.row sum.new.row }
{
    if counts.stands(table, i, at) {
        let place = counts.before(table, i, at);
        add_at(sum, place, c);
    } else {
        add_row(sum, c, level.row(table, w, i, at.number));
    }
}

/// Adds `c` times a combination of the words of weight `w` with basis element `j` in front of each before which it may stand.
fn add_led<F: Field>(
    table: &Table<F>,
    counts: &Counts,
    j: u32,
    w: u32,
    row: &Row<F>,
    c: F::Elem,
    sum: &mut Work<F>,
)
    requires residues { IsOfResidues table.now.kind }
    requires counts { AreCounts table.now counts.now }
    requires letter { (1 ≤ j) × (j ≤ length table.now.basis) }
    requires reached { (plain_basis table.now (j - 1)).weight + w < length counts.now }
    requires row { IsRowOf table.now.kind (length (words_in table.now w)) row.now }
    requires factor { IsElement table.now.kind (F.number c) }
    requires sum { IsSum table.now ((plain_basis table.now (j - 1)).weight + w) sum.old }
    ensures sum { IsSum table.now ((plain_basis table.now (j - 1)).weight + w) sum.new }
    ensures adds { Adds table.now ((plain_basis table.now (j - 1)).weight + w)
        (multiple table.now (F.number c) (λ f. row_value table.now w row.now (led (field_in table.now) (math_in table.now)
        (j - 1) f))) sum.old.row sum.new.row }
{
    let _count = table.basis_len();
    let mut after = counts.skipped(table, w, j) as u32;
    while let Some(s) = row.next(after) {
        let at = Place {
            weight: w,
            number: u64::from(s) - 1,
        };
        let number = times(table.field(), c, row.at(s));
        let place = counts.before(table, j, at);
        add_at(sum, place, number);
        after = s;
    }
}

/// Adds `c` times what basis element `i` gives on a word, with the smaller element `j` in front, which may stand before the word.
fn add_passed<F: Field>(
    table: &Table<F>,
    products: &Products<F>,
    i: u32,
    j: u32,
    at: Place,
    c: F::Elem,
    sum: &mut Work<F>,
)
    requires table { IsEnveloped table.now }
    requires products { AreProducts table.now products.now }
    requires letter { (1 ≤ i) × (i ≤ length table.now.basis) }
    requires first { (1 ≤ j) × (j < i) }
    requires number { at.number < length (words_in table.now at.weight) }
    requires stands { skipped_in table.now at.weight (j - 1) ≤ at.number }
    requires below { (plain_basis table.now (i - 1)).weight + at.weight < length products.now.levels }
    requires reached { (plain_basis table.now (j - 1)).weight + ((plain_basis table.now (i - 1)).weight + at.weight) < length products.now.counts }
    requires factor { IsElement table.now.kind (F.number c) }
    requires sum { IsSum table.now ((plain_basis table.now (j - 1)).weight + ((plain_basis table.now (i - 1)).weight + at.weight)) sum.old }
    ensures sum { IsSum table.now ((plain_basis table.now (j - 1)).weight + ((plain_basis table.now (i - 1)).weight + at.weight)) sum.new }
    ensures adds { Adds table.now ((plain_basis table.now (j - 1)).weight + ((plain_basis table.now (i - 1)).weight + at.weight))
        (multiple table.now (F.number c) (passed table.now (i - 1) (j - 1) at.weight at.number)) sum.old.row sum.new.row }
{
    let counts = products.counts();
    let w = table.basis(i).weight + at.weight;
    if counts.stands(table, i, at) {
        let first = counts.before(table, i, at);
        let led = Place {
            weight: w,
            number: first,
        };
        let place = counts.before(table, j, led);
        add_at(sum, place, c);
    } else {
        let row = products.level(w).row(table, w, i, at.number);
        add_led(table, counts, j, w, row, c, sum);
    }
}

/// Adds `c` times the action of a combination of basis elements, which have weight `w` together with the word.
fn add_combined<F: Field>(
    table: &Table<F>,
    counts: &Counts,
    level: &Level<F>,
    w: u32,
    row: &Row<F>,
    at: Place,
    c: F::Elem,
    sum: &mut Work<F>,
)
    requires table { IsEnveloped table.now }
    requires counts { AreCounts table.now counts.now }
    requires reached { w < length counts.now }
    requires row { IsRowUpTo table.now.kind (length table.now.basis) row.now }
    requires number { at.number < length (words_in table.now at.weight) }
    requires terms { (t : ℕ) → t < length row.now → is_nought (get_or row.now t (residue 0)) ≡ false →
        ((plain_basis table.now t).weight + at.weight ≡ w) × HasElement table.now w t level.now }
    requires factor { IsElement table.now.kind (F.number c) }
    requires sum { IsSum table.now w sum.old }
    ensures sum { IsSum table.now w sum.new }
    ensures adds { Adds table.now w (multiple table.now (F.number c) (λ f. product_sum (field_in table.now) (length table.now.basis)
        (λ t. acted table.now t at.weight at.number f) (vector_in table.now.kind row.now))) sum.old.row sum.new.row }
{
    let mut after = 0;
    while let Some(t) = row.next(after) {
        let number = times(table.field(), c, row.at(t));
        add_acted(table, counts, level, w, t, at, number, sum);
        after = t;
    }
}

/// Adds `c` times the action of the bracket of basis elements `i` and `j`, which have weight `w` together with the word. The level has each element after `i`.
fn add_bracket<F: Field>(
    table: &Table<F>,
    counts: &Counts,
    level: &Level<F>,
    w: u32,
    i: u32,
    j: u32,
    at: Place,
    c: F::Elem,
    sum: &mut Work<F>,
)
    requires table { IsEnveloped table.now }
    requires counts { AreCounts table.now counts.now }
    requires reached { w < length counts.now }
    requires left { (1 ≤ i) × (i ≤ length table.now.basis) }
    requires right { (1 ≤ j) × (j ≤ length table.now.basis) }
    requires weight { (plain_basis table.now (i - 1)).weight + (plain_basis table.now (j - 1)).weight + at.weight ≡ w }
    requires number { at.number < length (words_in table.now at.weight) }
    requires level { IsLevelFrom table.now w i level.now }
    requires factor { IsElement table.now.kind (F.number c) }
    requires sum { IsSum table.now w sum.old }
    ensures sum { IsSum table.now w sum.new }
    ensures adds { Adds table.now w (multiple table.now (F.number c) (bracketed table.now (i - 1) (j - 1) at.weight at.number)) sum.old.row sum.new.row }
{
    let _count = table.basis_len();
    match table.pair(i, j) {
        PairSign::Zero => {}
        PairSign::Plus(k, l) => {
            let entry = table.entry(k, l);
            add_combined(table, counts, level, w, entry, at, c, sum);
        }
        PairSign::Minus(k, l) => {
            let opposite = table.entry(k, l);
            let negated = table.field().neg(c);
            add_combined(table, counts, level, w, opposite, at, negated, sum);
        }
    }
}

/// The inverse of 2.
fn half<F: Field>(field: &F) -> F::Elem
    requires { IsOfResidues (F.kind_of field.now) }
    ensures element { IsElement (F.kind_of field.now) (F.number result) }
    ensures value { number_of (F.kind_of field.now) (F.number result) ≡ half (field_of (F.kind_of field.now)) }
{
    match field.add(field.one(), field.one()) {
        Ok(two) => field.inverse(two),
        Err(_) => unreachable!(),
    }
}

/// The sign of the exchange of basis elements `i` and `j`.
fn exchange_sign<F: Field>(table: &Table<F>, i: u32, j: u32) -> F::Elem
    requires residues { IsOfResidues table.now.kind }
    requires left { (1 ≤ i) × (i ≤ length table.now.basis) }
    requires right { (1 ≤ j) × (j ≤ length table.now.basis) }
    ensures element { IsElement table.now.kind (F.number result) }
    ensures value { number_in table.now (F.number result)
        ≡ sign (field_in table.now) (plain_basis table.now (i - 1)).parity (plain_basis table.now (j - 1)).parity }
{
    let one = table.field().one();
    match (table.basis(i).parity, table.basis(j).parity) {
        (Parity::Odd, Parity::Odd) => table.field().neg(one),
        (Parity::Odd, Parity::Even) | (Parity::Even, _) => one,
    }
}

/// Adds the action of basis element `i` on a word, before which it may not stand. The level, of their weight, has each element after `i`.
pub(crate) fn add_product<F: Field>(
    table: &Table<F>,
    products: &Products<F>,
    level: &Level<F>,
    w: u32,
    i: u32,
    at: Place,
    sum: &mut Work<F>,
)
    requires table { IsEnveloped table.now }
    requires products { AreProducts table.now products.now }
    requires below { w ≤ length products.now.levels }
    requires reached { w < length products.now.counts }
    requires letter { (1 ≤ i) × (i ≤ length table.now.basis) }
    requires weight { (plain_basis table.now (i - 1)).weight + at.weight ≡ w }
    requires number { at.number < skipped_in table.now at.weight (i - 1) }
    requires level { IsLevelFrom table.now w i level.now }
    requires sum { IsSum table.now w sum.old }
    ensures sum { IsSum table.now w sum.new }
    ensures adds { Adds table.now w (acted table.now (i - 1) at.weight at.number) sum.old.row sum.new.row }
{
    let _count = table.basis_len();
    let counts = products.counts();
    let j = counts.letter(table, at);
    let rest = counts.rest(table, at, j);
    let field = table.field();
    if i == j {
        add_bracket(table, counts, level, w, i, j, rest, half(field), sum);
    } else {
        let sign = exchange_sign(table, i, j);
        add_passed(table, products, i, j, rest, sign, sum);
        add_bracket(table, counts, level, w, i, j, rest, field.one(), sum);
    }
}
