//! The straight forms of basis elements before ordered words, weight by weight.
ghost use Rattle.std.specs.Prelude.{◌≡◌, ◌≤◌, ◌<◌, ◌+◌, ◌-◌, suc, length, replicate, IfOk, OnOk};
ghost use Rattle.fpl_numbers.specs.Numbers.{residue};
ghost use Rattle.fpl_table.specs.Plain.{plain_basis, through};
ghost use Rattle.fpl_envelope.specs.Counts.{words_in, skipped_in};
ghost use Rattle.fpl_envelope.specs.Action.{IsEnveloped, StandsFor, acted};
ghost use Rattle.fpl_envelope.specs.Kept.{IsElementRows, IsLevelFrom, AreProducts};

use crate::acting::add_product;
use crate::counts::Place;
use crate::kept::{Level, Products};
use crate::listing::counts_through;
use crate::sums::gathered;
use fpl_rows::{Row, Work};
use fpl_scalar::Field;
use fpl_table::Table;
use std::alloc::{AllocError, Global};

/// The row of basis element `i` and a word. The sum is empty before and after.
fn product_row<F: Field>(
    alloc: Global,
    table: &Table<F>,
    products: &Products<F>,
    level: &Level<F>,
    w: u32,
    i: u32,
    at: Place,
    sum: &mut Work<F>,
) -> Result<Row<F>, AllocError>
    requires table { IsEnveloped table.now }
    requires products { AreProducts table.now products.now }
    requires below { w ≤ length products.now.levels }
    requires reached { w < length products.now.counts }
    requires letter { (1 ≤ i) × (i ≤ length table.now.basis) }
    requires weight { (plain_basis table.now (i - 1)).weight + at.weight ≡ w }
    requires number { at.number < skipped_in table.now at.weight (i - 1) }
    requires level { IsLevelFrom table.now w i level.now }
    requires empty { sum.old ≡ record { kind = table.now.kind; row = replicate (length (words_in table.now w)) (residue 0) } }
    ensures value { IfOk result (λ row. StandsFor table.now w (acted table.now (i - 1) at.weight at.number) row) }
    ensures empty { OnOk result (sum.new ≡ sum.old) }
{
    add_product(table, products, level, w, i, at, sum);
    let row = gathered(alloc, table.field(), sum)?;
    sum.clear();
    Ok(row)
}

/// The rows of basis element `i` of weight `w`.
fn element_rows<F: Field>(
    alloc: Global,
    table: &Table<F>,
    products: &Products<F>,
    level: &Level<F>,
    w: u32,
    i: u32,
    sum: &mut Work<F>,
) -> Result<Vec<Row<F>>, AllocError>
    requires table { IsEnveloped table.now }
    requires products { AreProducts table.now products.now }
    requires below { w ≤ length products.now.levels }
    requires reached { w < length products.now.counts }
    requires letter { (1 ≤ i) × (i ≤ through table.now w) }
    requires level { IsLevelFrom table.now w i level.now }
    requires empty { sum.old ≡ record { kind = table.now.kind; row = replicate (length (words_in table.now w)) (residue 0) } }
    ensures rows { IfOk result (λ rows. IsElementRows table.now w (i - 1) rows.items) }
    ensures empty { OnOk result (sum.new ≡ sum.old) }
{
    let _count = table.basis_len();
    let weight = w - table.basis(i).weight;
    let mut rows = Vec::new(alloc);
    for number in 0..products.counts().skipped(table, weight, i) {
        let at = Place { weight, number };
        rows.push(product_row(alloc, table, products, level, w, i, at, sum)?)?;
    }
    Ok(rows)
}

/// The level of the weight after those that are there.
fn next_level<F: Field>(
    alloc: Global,
    table: &Table<F>,
    products: &Products<F>,
    w: u32,
) -> Result<Level<F>, AllocError>
    requires table { IsEnveloped table.now }
    requires products { AreProducts table.now products.now }
    requires next { w ≡ length products.now.levels }
    requires reached { w < length products.now.counts }
    ensures { IfOk result (λ level. IsLevelFrom table.now w 0 level) }
{
    let size = products.counts().total(table, w) as u32;
    let mut sum = Work::new(alloc, *table.field(), size)?;
    let mut level = Level::new(alloc);
    let last = table.through(w);
    for place in 0..last {
        let i = last - place;
        let rows = element_rows(alloc, table, products, &level, w, i, &mut sum)?;
        level.push(rows)?;
    }
    Ok(level)
}

/// The straight forms of basis elements before ordered words, of the weights up to `w`, over a prime. Where a weight has more than 2,000,000 words, more memory
/// is wanted than there is.
pub fn products_through<F: Field>(
    alloc: Global,
    table: &Table<F>,
    w: u32,
) -> Result<Products<F>, AllocError>
    requires table { IsEnveloped table.now }
    requires reached { w ≤ table.now.weight }
    ensures products { IfOk result (λ products. AreProducts table.now products) }
    ensures counts { IfOk result (λ products. length products.counts ≡ suc w) }
    ensures levels { IfOk result (λ products. length products.levels ≡ suc w) }
{
    let _most = table.weight();
    let counts = counts_through(alloc, table, w)?;
    let mut products = Products::new(alloc, counts);
    for weight in 0..w + 1 {
        let level = next_level(alloc, table, &products, weight)?;
        products.push(level)?;
    }
    Ok(products)
}
