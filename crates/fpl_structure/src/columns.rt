//! The rows whose kernel is the centre.
ghost use Rattle.std.specs.Prelude.{◌≡◌, ◌≤◌, ◌-◌, ◌++◌, List, Result, length, map, Ok, IfOk, OnOk};
ghost use Rattle.fpl_numbers.specs.Numbers.{IsElement};
ghost use Rattle.fpl_rows.specs.Meaning.{IsRowOf, AreRows};
ghost use Rattle.fpl_table.specs.Plain.{first_partner};
ghost use Rattle.plain_structure.specs.Plain.{entry_number, bracket_number, if_any, centre_row, centre_rows_of, centre_rows_at, centre_rows};

use crate::acting::acts;
use fpl_rows::{Row, Rows};
use fpl_scalar::Field;
use fpl_table::{PairSign, Table};
use std::alloc::{AllocError, Global};

/// The number at `t` of the entry of a regular pair, and 0 where their weights pass the table's.
fn entry_number<F: Field>(table: &Table<F>, i: u32, j: u32, t: u32) -> F::Elem
    requires left { (1 ≤ i) × (i ≤ length table.now.basis) }
    requires right { (1 ≤ j) × (j ≤ length table.now.basis) }
    requires place { 1 ≤ t }
    requires regular { first_partner table.now (i - 1) ≤ j - 1 }
    ensures value { F.number result ≡ entry_number table.now (i - 1) (j - 1) (t - 1) }
    ensures element { IsElement table.now.kind (F.number result) }
{
    if table.basis(i).weight + table.basis(j).weight > table.weight() {
        return table.field().zero();
    }
    let entry = table.entry(i, j);
    if t > entry.len() {
        return table.field().zero();
    }
    entry.at(t)
}

/// The number of basis element `t` in the bracket of `i` and `j`. All count from 1.
fn bracket_number<F: Field>(table: &Table<F>, i: u32, j: u32, t: u32) -> F::Elem
    requires left { (1 ≤ i) × (i ≤ length table.now.basis) }
    requires right { (1 ≤ j) × (j ≤ length table.now.basis) }
    requires place { 1 ≤ t }
    ensures value { F.number result ≡ bracket_number table.now (i - 1) (j - 1) (t - 1) }
    ensures element { IsElement table.now.kind (F.number result) }
{
    match table.pair(i, j) {
        PairSign::Zero => table.field().zero(),
        PairSign::Plus(a, b) => entry_number(table, a, b, t),
        PairSign::Minus(a, b) => table.field().neg(entry_number(table, a, b, t)),
    }
}

/// The numbers of basis element `t` in the brackets of each basis element with `j`.
fn centre_row<F: Field>(
    alloc: Global,
    table: &Table<F>,
    j: u32,
    t: u32,
) -> Result<Row<F>, AllocError>
    requires number { (1 ≤ j) × (j ≤ length table.now.basis) }
    requires place { 1 ≤ t }
    ensures value { IfOk result (λ row. row ≡ centre_row table.now (j - 1) (t - 1)) }
    ensures row { IfOk result (λ row. IsRowOf table.now.kind (length table.now.basis) row) }
{
    let n = table.basis_len();
    let mut numbers = Vec::with_capacity(alloc, n as usize)?;
    for i in 0..n {
        numbers.push(bracket_number(table, i + 1, j, t))?;
    }
    Ok(Row::from_vec(table.field(), numbers))
}

/// Puts a row last, where it isn't 0.
fn push_any<F: Field>(
    alloc: Global,
    table: &Table<F>,
    row: Row<F>,
    rows: &mut Rows<F>,
) -> Result<(), AllocError>
    requires row { IsRowOf table.now.kind (length table.now.basis) row }
    requires rows { AreRows table.now.kind (length table.now.basis) rows.old }
    ensures value { OnOk result (map Ok rows.new ≡ map Ok rows.old ++ if_any row) }
    ensures rows { OnOk result (AreRows table.now.kind (length table.now.basis) rows.new) }
{
    if row.is_zero() {
        return Ok(());
    }
    rows.push(row.pack(alloc, table.field()))
}

/// Puts these rows of `j` last, those that aren't 0.
fn push_rows<F: Field>(
    alloc: Global,
    table: &Table<F>,
    j: u32,
    rows: &mut Rows<F>,
) -> Result<(), AllocError>
    requires number { (1 ≤ j) × (j ≤ length table.now.basis) }
    requires rows { AreRows table.now.kind (length table.now.basis) rows.old }
    ensures value { OnOk result (map Ok rows.new ≡ map Ok rows.old ++ centre_rows_of table.now (j - 1)) }
    ensures rows { OnOk result (AreRows table.now.kind (length table.now.basis) rows.new) }
{
    for t in 0..table.basis_len() {
        let row = centre_row(alloc, table, j, t + 1)?;
        push_any(alloc, table, row, rows)?;
    }
    Ok(())
}

/// The same, where brackets are taken with `j`.
fn push_acting<F: Field>(
    alloc: Global,
    table: &Table<F>,
    j: u32,
    rows: &mut Rows<F>,
) -> Result<(), AllocError>
    requires number { (1 ≤ j) × (j ≤ length table.now.basis) }
    requires rows { AreRows table.now.kind (length table.now.basis) rows.old }
    ensures value { OnOk result (map Ok rows.new ≡ map Ok rows.old ++ centre_rows_at table.now (j - 1)) }
    ensures rows { OnOk result (AreRows table.now.kind (length table.now.basis) rows.new) }
{
    if acts(table, j) {
        push_rows(alloc, table, j, rows)
    } else {
        Ok(())
    }
}

/// The rows of each basis element with which brackets are taken.
pub(crate) fn centre_rows<F: Field>(alloc: Global, table: &Table<F>) -> Result<Rows<F>, AllocError>
    ensures value { IfOk result (λ rows. map Ok rows ≡ centre_rows table.now) }
    ensures rows { IfOk result (λ rows. AreRows table.now.kind (length table.now.basis) rows) }
{
    let mut rows = Rows::new(alloc);
    for j in 0..table.basis_len() {
        push_acting(alloc, table, j + 1, &mut rows)?;
    }
    Ok(rows)
}
