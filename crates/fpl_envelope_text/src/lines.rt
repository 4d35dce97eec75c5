//! The products of basis elements and ordered words that aren't ordered.
ghost use Rattle.std.specs.Prelude.{◌≡◌, ◌≤◌, ◌<◌, ◌-◌, ◌++◌, suc, length, OnOk};
ghost use Rattle.fpl_scalar.specs.Vectors.{AreElements};
ghost use Rattle.fpl_table.specs.Plain.{through};
ghost use Rattle.fpl_envelope.specs.Action.{IsEnveloped};
ghost use Rattle.fpl_envelope.specs.Kept.{AreProducts};
ghost use Rattle.fpl_envelope_text.specs.Texts.{product_lines};
ghost use Rattle.fpl_envelope_text.specs.Plain.{lines_at, lines_of, lines_through};
ghost use Rattle.fpl_envelope_text.specs.Lists.{AreLists, row_line};

use crate::forms::push_form;
use crate::letters::push_joined;
use crate::lists::Lists;
use fpl_envelope::{Products, Word};
use fpl_rows::Row;
use fpl_scalar::Field;
use fpl_table::Table;
use std::alloc::AllocError;

/// How many there are of weight `w`.
fn count_of<F: Field>(table: &Table<F>, products: &Products<F>, w: u32) -> u64
    requires table { IsEnveloped table.now }
    requires products { AreProducts table.now products.now }
    requires reached { w < length products.now.levels }
    ensures value { result ≡ length (lines_of table.now w) }
    ensures few { result ≤ 8589934592000000 }
{
    let _most = table.weight();
    let mut count = 0;
    for i in 0..table.through(w) {
        let weight = w - table.basis(i + 1).weight;
        count += products.skipped(table, weight, i + 1);
    }
    count
}

/// How many there are through the table's weight.
pub(crate) fn count_through<F: Field>(table: &Table<F>, products: &Products<F>) -> u64
    requires table { IsEnveloped table.now }
    requires products { AreProducts table.now products.now }
    requires whole { length products.now.levels ≡ suc table.now.weight }
    ensures { result ≡ length (lines_through table.now table.now.weight) }
{
    let mut count = 0;
    for w in 0..table.weight() + 1 {
        count += count_of(table, products, w);
    }
    count
}

/// Appends the line of basis element `i` before a word, whose product is a row over the words of a weight.
fn push_line<F: Field>(
    out: &mut Vec<u8>,
    field: &F,
    words: &[Word],
    i: u32,
    word: &Word,
    row: &Row<F>,
) -> Result<(), AllocError>
    requires { AreElements (F.kind_of field.now) row.now }
    ensures { OnOk result (out.new.items ≡ out.old.items ++ row_line words.now i word.now row.now) }
{
    push_joined(out, i, &word.letters)?;
    out.extend_from_slice(b" = ")?;
    push_form(out, field, words, row)?;
    out.extend_from_slice(b"\n")
}

/// Appends the lines of the products of basis element `i` that weigh `w`.
fn push_element<F: Field>(
    out: &mut Vec<u8>,
    table: &Table<F>,
    products: &Products<F>,
    lists: &Lists,
    w: u32,
    i: u32,
) -> Result<(), AllocError>
    requires table { IsEnveloped table.now }
    requires products { AreProducts table.now products.now }
    requires lists { AreLists table.now lists.now }
    requires reached { w < length products.now.levels }
    requires listed { w < length lists.now }
    requires letter { (1 ≤ i) × (i ≤ through table.now w) }
    ensures { OnOk result (out.new.items ≡ out.old.items ++ product_lines (lines_at table.now w (i - 1))) }
{
    let _most = table.weight();
    let weight = w - table.basis(i).weight;
    let words = lists.of(weight);
    let names = lists.of(w);
    for number in 0..products.skipped(table, weight, i) {
        let row = products.row(table, w, i, number);
        push_line(out, table.field(), names, i, &words[number as usize], row)?;
    }
    Ok(())
}

/// Appends the lines of weight `w`.
fn push_level<F: Field>(
    out: &mut Vec<u8>,
    table: &Table<F>,
    products: &Products<F>,
    lists: &Lists,
    w: u32,
) -> Result<(), AllocError>
    requires table { IsEnveloped table.now }
    requires products { AreProducts table.now products.now }
    requires lists { AreLists table.now lists.now }
    requires reached { w < length products.now.levels }
    requires listed { w < length lists.now }
    ensures { OnOk result (out.new.items ≡ out.old.items ++ product_lines (lines_of table.now w)) }
{
    let _most = table.weight();
    for i in 0..table.through(w) {
        push_element(out, table, products, lists, w, i + 1)?;
    }
    Ok(())
}

/// Appends the lines of all weights up to the table's.
pub(crate) fn push_levels<F: Field>(
    out: &mut Vec<u8>,
    table: &Table<F>,
    products: &Products<F>,
    lists: &Lists,
) -> Result<(), AllocError>
    requires table { IsEnveloped table.now }
    requires products { AreProducts table.now products.now }
    requires lists { AreLists table.now lists.now }
    requires whole { length products.now.levels ≡ suc table.now.weight }
    requires listed { length lists.now ≡ suc table.now.weight }
    ensures { OnOk result (out.new.items ≡ out.old.items ++ product_lines (lines_through table.now table.now.weight)) }
{
    for w in 0..table.weight() + 1 {
        push_level(out, table, products, lists, w)?;
    }
    Ok(())
}
