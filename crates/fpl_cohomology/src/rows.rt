//! The rows of coboundaries.
ghost use Rattle.std.specs.Prelude.{◌≡◌, ◌≤◌, ◌<◌, length, get_or, IfOk};
ghost use Rattle.fpl_numbers.specs.Numbers.{residue};
ghost use Rattle.fpl_numbers.specs.Results.{GivesBy};
ghost use Rattle.fpl_rows.specs.Meaning.{IsRowOf};
ghost use Rattle.fpl_table.specs.Plain.{symbol_in};
ghost use Rattle.fpl_table.specs.Shape.{IsNumbered};
ghost use Rattle.plain_cohomology.specs.Plain.{pairs, entry_of, bracket_row, coboundary_row, both_odd, second_negated, third_negated, triple_row};
ghost use Rattle.fpl_cohomology.specs.Forms.{triple_in};
ghost use Rattle.fpl_cohomology.specs.Rows.{AreTuplesOf, IsPairOf, IsTripleOf};

use crate::terms::{Beside, add_terms};
use crate::triples::Places;
use crate::tuples::Tuples;
use fpl_model::Parity;
use fpl_rows::Row;
use fpl_scalar::{Fault, Field};
use fpl_table::{Symbol, Table};
use std::alloc::{AllocError, Global};

/// The number of the basis element at place `e`, from 0, in the entry of a pair.
fn number_at<F: Field>(table: &Table<F>, pair: Symbol, w: u32, e: u32) -> F::Elem
    requires pair { IsPairOf table.now w (symbol_in pair) }
    requires numbered { IsNumbered pair }
    requires reached { w ≤ table.now.weight }
    ensures value { F.number result ≡ get_or (entry_of table.now (symbol_in pair)) e (residue 0) }
{
    match pair {
        Symbol::Pair(i, j) => {
            let entry = table.entry(i, j);
            if e < entry.len() {
                entry.at(e + 1)
            } else {
                table.field().zero()
            }
        }
        Symbol::Gen(_) => table.field().zero(),
    }
}

/// Over the basis elements of the weight: the numbers of the entry of a pair of it.
pub(crate) fn bracket_row<F: Field>(
    alloc: Global,
    table: &Table<F>,
    tuples: &Tuples,
    pair: Symbol,
) -> Result<Row<F>, AllocError>
    requires tuples { AreTuplesOf table.now tuples.now }
    requires pair { IsPairOf table.now tuples.now.weight (symbol_in pair) }
    requires numbered { IsNumbered pair }
    ensures { IfOk result (λ row. row ≡ bracket_row table.now tuples.now.weight (symbol_in pair)) }
{
    let mut numbers = Vec::with_capacity(alloc, tuples.singles.len())?;
    for k in 0..tuples.singles.len() {
        let e = tuples.singles[k];
        numbers.push(number_at(table, pair, tuples.weight, e))?;
    }
    Ok(Row::from_vec(table.field(), numbers))
}

/// Over the pairs of the weight: the number of the basis element at place `e`, from 0, in the
/// entry of each.
pub(crate) fn coboundary_row<F: Field>(
    alloc: Global,
    table: &Table<F>,
    tuples: &Tuples,
    e: u32,
) -> Result<Row<F>, AllocError>
    requires tuples { AreTuplesOf table.now tuples.now }
    ensures { IfOk result (λ row. row ≡ coboundary_row table.now tuples.now.weight e) }
{
    let mut numbers = Vec::with_capacity(alloc, tuples.pairs.len() as usize)?;
    for s in 0..tuples.pairs.len() {
        numbers.push(number_at(table, tuples.pairs.get(s), tuples.weight, e))?;
    }
    Ok(Row::from_vec(table.field(), numbers))
}

/// Whether the basis elements at two places, from 0, are both odd.
fn are_odd<F: Field>(table: &Table<F>, i: u32, j: u32) -> bool
    requires left { i < length table.now.basis }
    requires right { j < length table.now.basis }
    ensures { result ≡ both_odd table.now i j }
{
    let _count = table.basis_len();
    match (table.basis(i + 1).parity, table.basis(j + 1).parity) {
        (Parity::Odd, Parity::Odd) => true,
        (Parity::Odd, Parity::Even) | (Parity::Even, _) => false,
    }
}

/// Over the pairs of the weight: the coboundary at a triple of it of the forms that are 1 at one
/// pair, its terms in the order `f([x,y],z)`, `f([x,z],y)`, `f([y,z],x)`.
/// `Unfit` is the first sum that does not fit.
pub(crate) fn triple_row<F: Field>(
    alloc: Global,
    table: &Table<F>,
    tuples: &Tuples,
    x: Places,
) -> Result<Row<F>, Fault>
    requires tuples { AreTuplesOf table.now tuples.now }
    requires triple { IsTripleOf table.now tuples.now.weight (triple_in x) }
    ensures value { GivesBy (λ row. row) result (triple_row table.now tuples.now.weight (triple_in x)) }
    ensures row { IfOk result (λ row. IsRowOf table.now.kind (length (pairs table.now tuples.now.weight)) row) }
{
    let first = Beside {
        place: x.third,
        negated: false,
    };
    let second = Beside {
        place: x.second,
        negated: !are_odd(table, x.second, x.third),
    };
    let third = Beside {
        place: x.first,
        negated: are_odd(table, x.first, x.second) != are_odd(table, x.first, x.third),
    };
    let pairs = &tuples.pairs;
    let mut row = Row::zero(alloc, table.field(), pairs.len())?;
    add_terms(table, pairs, x.first, x.second, first, &mut row)?;
    add_terms(table, pairs, x.first, x.third, second, &mut row)?;
    add_terms(table, pairs, x.second, x.third, third, &mut row)?;
    Ok(row)
}
