//! Straight forms of polys.
ghost use Rattle.std.specs.Prelude.{◌≡◌, ◌≤◌, ◌<◌, ◌+◌, ◌-◌, ◌++◌, [], length, IfOk, OnOk};
ghost use Rattle.math_words.specs.Action.{straight, action};
ghost use Rattle.math_words.specs.Polys.{IsPolyThrough};
ghost use Rattle.fpl_rows.specs.Meaning.{IsRowOf};
ghost use Rattle.plain_envelope.specs.Straight.{straightened, part_value};
ghost use Rattle.fpl_table.specs.Plain.{plain_basis};
ghost use Rattle.fpl_envelope.specs.Counts.{words_in, AreCounts};
ghost use Rattle.fpl_envelope.specs.Action.{IsEnveloped, IsSum, Adds, StandsFor, row_value, field_in, math_in};
ghost use Rattle.fpl_envelope.specs.Kept.{AreProducts};
ghost use Rattle.fpl_envelope.specs.Polys.{word_of, poly_of, spelled, weight_in, part_of, row_terms, IsWordIn, IsTermIn, IsPolyIn};

use crate::acting::add_acted;
use crate::building::products_through;
use crate::counts::{Counts, Place};
use crate::kept::Products;
use crate::listing::word;
use crate::poly::{Poly, Term, Word};
use crate::sums::{add_at, add_row, gathered};
use fpl_rows::{Row, Work};
use fpl_scalar::Field;
use fpl_table::Table;
use std::alloc::{AllocError, Global};

/// A combination of words of one weight.
#[derive(Drop)]
struct Combination<F: Field> {
    weight: u32,
    row: Row<F>,
}

/// The empty word.
fn empty_word<F: Field>(alloc: Global, table: &Table<F>) -> Result<Combination<F>, AllocError>
    requires { IsEnveloped table.now }
    ensures weight { IfOk result (λ u. u.weight ≡ 0) }
    ensures value { IfOk result (λ u. StandsFor table.now 0 (λ f. f []) u.row) }
{
    let mut sum = Work::new(alloc, *table.field(), 1)?;
    add_at(&mut sum, 0, table.field().one());
    let row = gathered(alloc, table.field(), &sum)?;
    Ok(Combination { weight: 0, row })
}

/// Adds the action of basis element `i` on a combination of words of weight `weight`, where both weigh `w`.
fn add_each<F: Field>(
    table: &Table<F>,
    products: &Products<F>,
    w: u32,
    i: u32,
    weight: u32,
    row: &Row<F>,
    sum: &mut Work<F>,
)
    requires table { IsEnveloped table.now }
    requires products { AreProducts table.now products.now }
    requires reached { w < length products.now.levels }
    requires letter { (1 ≤ i) × (i ≤ length table.now.basis) }
    requires weight { (plain_basis table.now (i - 1)).weight + weight ≡ w }
    requires row { IsRowOf table.now.kind (length (words_in table.now weight)) row.now }
    requires sum { IsSum table.now w sum.old }
    ensures sum { IsSum table.now w sum.new }
    ensures adds { Adds table.now w (λ f. row_value table.now weight row.now (λ u. action (field_in table.now) (math_in table.now) (i - 1) u f))
        sum.old.row sum.new.row }
{
    let _count = table.basis_len();
    let level = products.level(w);
    let mut after = 0;
    while let Some(s) = row.next(after) {
        let at = Place {
            weight,
            number: u64::from(s) - 1,
        };
        let number = row.at(s);
        add_acted(table, products.counts(), level, w, i, at, number, sum);
        after = s;
    }
}

/// The action of basis element `i` on a combination.
fn acted_on<F: Field>(
    alloc: Global,
    table: &Table<F>,
    products: &Products<F>,
    i: u32,
    u: &Combination<F>,
) -> Result<Combination<F>, AllocError>
    requires table { IsEnveloped table.now }
    requires products { AreProducts table.now products.now }
    requires reached { (plain_basis table.now (i - 1)).weight + u.now.weight < length products.now.levels }
    requires letter { (1 ≤ i) × (i ≤ length table.now.basis) }
    requires row { IsRowOf table.now.kind (length (words_in table.now u.now.weight)) u.now.row }
    ensures weight { IfOk result (λ v. v.weight ≡ (plain_basis table.now (i - 1)).weight + u.now.weight) }
    ensures value { IfOk result (λ v. StandsFor table.now ((plain_basis table.now (i - 1)).weight + u.now.weight)
        (λ f. row_value table.now u.now.weight u.now.row (λ z. action (field_in table.now) (math_in table.now) (i - 1) z f)) v.row) }
{
    let weight = table.basis(i).weight + u.weight;
    let size = products.counts().total(table, weight) as u32;
    let mut sum = Work::new(alloc, *table.field(), size)?;
    add_each(table, products, weight, i, u.weight, &u.row, &mut sum);
    let row = gathered(alloc, table.field(), &sum)?;
    Ok(Combination { weight, row })
}

/// The straight form of a word.
fn word_form<F: Field>(
    alloc: Global,
    table: &Table<F>,
    products: &Products<F>,
    word: &Word,
) -> Result<Combination<F>, AllocError>
    requires table { IsEnveloped table.now }
    requires products { AreProducts table.now products.now }
    requires word { IsWordIn table.now word.now }
    requires reached { weight_in table.now word.now < length products.now.levels }
    ensures weight { IfOk result (λ u. u.weight ≡ weight_in table.now word.now) }
    ensures value { IfOk result (λ u. StandsFor table.now (weight_in table.now word.now) (λ f. straight (field_in table.now) (math_in table.now)
        (word_of word.now) f) u.row) }
{
    let mut form = empty_word(alloc, table)?;
    let mut k = word.letters.len();
    while k > 0 {
        k -= 1;
        let next = acted_on(alloc, table, products, word.letters[k], &form)?;
        form = next;
    }
    Ok(form)
}

/// The weight of a word.
fn weight_of<F: Field>(table: &Table<F>, word: &Word) -> u32
    requires word { IsWordIn table.now word.now }
    requires light { weight_in table.now word.now ≤ table.now.weight }
    ensures { result ≡ weight_in table.now word.now }
{
    let mut weight = 0;
    for k in 0..word.letters.len() {
        let _most = table.weight();
        weight += table.basis(word.letters[k]).weight;
    }
    weight
}

/// The greatest weight of a word of a poly, or 0.
fn top_weight<F: Field>(table: &Table<F>, u: &Poly<F>) -> u32
    requires { IsPolyIn table.now u.now }
    ensures within { result ≤ table.now.weight }
    ensures through { IsPolyThrough (field_in table.now) (math_in table.now) result (poly_of table.now.kind u.now) }
{
    let mut top = 0;
    for k in 0..u.terms.len() {
        let weight = weight_of(table, &u.terms[k].word);
        top = top.max(weight);
    }
    top
}

/// Adds a multiple of the straight form of a term's word, where that has weight `w`.
fn add_term<F: Field>(
    alloc: Global,
    table: &Table<F>,
    products: &Products<F>,
    w: u32,
    term: &Term<F>,
    sum: &mut Work<F>,
) -> Result<(), AllocError>
    requires table { IsEnveloped table.now }
    requires products { AreProducts table.now products.now }
    requires reached { w < length products.now.levels }
    requires term { IsTermIn table.now term.now }
    requires sum { IsSum table.now w sum.old }
    ensures sum { IsSum table.now w sum.new }
    ensures adds { OnOk result (Adds table.now w (part_of table.now w term.now) sum.old.row sum.new.row) }
{
    if weight_of(table, &term.word) != w {
        return Ok(());
    }
    let form = word_form(alloc, table, products, &term.word)?;
    add_row(sum, term.number, &form.row);
    Ok(())
}

/// The straight forms of a poly's words of weight `w`, added up.
fn sum_of<F: Field>(
    alloc: Global,
    table: &Table<F>,
    products: &Products<F>,
    u: &Poly<F>,
    w: u32,
) -> Result<Row<F>, AllocError>
    requires table { IsEnveloped table.now }
    requires products { AreProducts table.now products.now }
    requires reached { w < length products.now.levels }
    requires poly { IsPolyIn table.now u.now }
    ensures { IfOk result (λ row. StandsFor table.now w (part_value (field_in table.now) (math_in table.now) w (poly_of table.now.kind u.now)) row) }
{
    let size = products.counts().total(table, w) as u32;
    let mut sum = Work::new(alloc, *table.field(), size)?;
    for k in 0..u.terms.len() {
        add_term(alloc, table, products, w, &u.terms[k], &mut sum)?;
    }
    let row = gathered(alloc, table.field(), &sum)?;
    Ok(row)
}

/// Puts the terms of a row over the words of weight `w` last.
fn push_terms<F: Field>(
    alloc: Global,
    table: &Table<F>,
    counts: &Counts,
    w: u32,
    row: &Row<F>,
    poly: &mut Poly<F>,
) -> Result<(), AllocError>
    requires counts { AreCounts table.now counts.now }
    requires reached { w < length counts.now }
    requires row { length row.now ≡ length (words_in table.now w) }
    ensures { OnOk result (poly.new ≡ poly.old ++ row_terms (spelled table.now w) 0 row.now) }
{
    let mut after = 0;
    while let Some(s) = row.next(after) {
        let at = Place {
            weight: w,
            number: u64::from(s) - 1,
        };
        let word = word(alloc, table, counts, at)?;
        let number = row.at(s);
        poly.push(word, number)?;
        after = s;
    }
    Ok(())
}

/// The straight form of a poly over a prime, whose words have weight at most the table's: ordered words, ascending, with numbers that aren't 0. It is what
/// the action of the letters of each word on the empty word gives, the last letter first.
pub fn straighten<F: Field>(
    alloc: Global,
    table: &Table<F>,
    u: &Poly<F>,
) -> Result<Poly<F>, AllocError>
    requires table { IsEnveloped table.now }
    requires poly { IsPolyIn table.now u.now }
    ensures value { IfOk result (λ r. poly_of table.now.kind r
        ≡ straightened (field_in table.now) (math_in table.now) table.now.weight (poly_of table.now.kind u.now)) }
    ensures poly { IfOk result (λ r. IsPolyIn table.now r) }
{
    let _most = table.weight();
    let top = top_weight(table, u);
    let products = products_through(alloc, table, top)?;
    let mut poly = Poly::new(alloc);
    for w in 0..top + 1 {
        let row = sum_of(alloc, table, &products, u, w)?;
        push_terms(alloc, table, products.counts(), w, &row, &mut poly)?;
    }
    Ok(poly)
}
