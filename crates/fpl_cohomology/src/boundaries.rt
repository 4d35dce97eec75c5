//! The coboundary of a degree and a weight.
ghost use Rattle.std.specs.Prelude.{◌≡◌, ◌≤◌, map, IfOk};
ghost use Rattle.fpl_numbers.specs.Results.{GivesBy};
ghost use Rattle.plain_cohomology.specs.Plain.{pairs, triples, bracket_row, triple_row, all_of};
ghost use Rattle.fpl_cohomology.specs.Forms.{coboundary_of};

use crate::rows::{bracket_row, triple_row};
use crate::tuples::Tuples;
use fpl_rows::Rows;
use fpl_scalar::{Fault, Field};
use fpl_table::Table;
use std::alloc::{AllocError, Global};

fn first_coboundary<F: Field>(
    alloc: Global,
    table: &Table<F>,
    w: u32,
) -> Result<Rows<F>, AllocError>
    requires { (1 ≤ w) × (w ≤ table.now.weight) }
    ensures { IfOk result (λ rows. rows ≡ map (bracket_row table.now w) (pairs table.now w)) }
{
    let tuples = Tuples::of(alloc, table, w)?;
    let mut rows = Rows::new(alloc);
    for s in 0..tuples.pairs.len() {
        rows.push(bracket_row(alloc, table, &tuples, tuples.pairs.get(s))?)?;
    }
    Ok(rows)
}

fn second_coboundary<F: Field>(alloc: Global, table: &Table<F>, w: u32) -> Result<Rows<F>, Fault>
    requires { (1 ≤ w) × (w ≤ table.now.weight) }
    ensures { GivesBy (λ rows. rows) result (all_of (map (triple_row table.now w) (triples table.now w))) }
{
    let tuples = Tuples::of(alloc, table, w)?;
    let mut rows = Rows::new(alloc);
    for k in 0..tuples.triples.len() {
        match triple_row(alloc, table, &tuples, tuples.triples[k]) {
            Ok(row) => rows.push(row)?,
            Err(fault) => return Err(fault),
        }
    }
    Ok(rows)
}

/// The coboundary of the k-forms of weight `w`, for `k` of 1 or 2 and `w` from 1 to the table's
/// weight: one row for each (k + 1)-tuple, over the k-tuples, both in the order of `forms`.
/// `Unfit` is the first sum that does not fit.
pub fn coboundary<F: Field>(
    alloc: Global,
    table: &Table<F>,
    k: u32,
    w: u32,
) -> Result<Rows<F>, Fault>
    requires degree { (1 ≤ k) × (k ≤ 2) }
    requires weight { (1 ≤ w) × (w ≤ table.now.weight) }
    ensures { GivesBy (λ rows. rows) result (coboundary_of table.now k w) }
{
    match k {
        1 => match first_coboundary(alloc, table, w) {
            Ok(rows) => Ok(rows),
            Err(_) => Err(Fault::NoMemory),
        },
        _ => second_coboundary(alloc, table, w),
    }
}
