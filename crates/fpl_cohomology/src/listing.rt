//! The tuples of a degree and a weight.
ghost use Rattle.std.specs.Prelude.{◌≡◌, ◌≤◌, ◌<◌, ◌+◌, ◌^◌, map, IfOk};
ghost use Rattle.fpl_table.specs.Plain.{symbol_in};
ghost use Rattle.fpl_table.specs.Shape.{IsNumbered};
ghost use Rattle.plain_cohomology.specs.Plain.{singles, pairs, triples};
ghost use Rattle.fpl_cohomology.specs.Forms.{single_tuple, pair_tuple, triple_tuple, triple_in, forms_of};

use crate::pairs::Pairs;
use crate::singles::singles;
use crate::triples::{Places, triples};
use crate::tuple::{Forms, Tuple};
use fpl_scalar::Field;
use fpl_table::{Symbol, Table};
use std::alloc::{AllocError, Global};

fn single_of(alloc: Global, i: u32) -> Result<Tuple, AllocError>
    requires { i + 1 < 2 ^ 32 }
    ensures { IfOk result (λ t. t ≡ single_tuple i) }
{
    let mut tuple = Tuple::new(alloc);
    tuple.push(i + 1)?;
    Ok(tuple)
}

fn pair_of(alloc: Global, pair: Symbol) -> Result<Tuple, AllocError>
    requires { IsNumbered pair }
    ensures { IfOk result (λ t. t ≡ pair_tuple (symbol_in pair)) }
{
    let mut tuple = Tuple::new(alloc);
    match pair {
        Symbol::Gen(_) => {}
        Symbol::Pair(i, j) => {
            tuple.push(i)?;
            tuple.push(j)?;
        }
    }
    Ok(tuple)
}

fn triple_of(alloc: Global, x: Places) -> Result<Tuple, AllocError>
    requires { (x.first + 1 < 2 ^ 32) × (x.second + 1 < 2 ^ 32) × (x.third + 1 < 2 ^ 32) }
    ensures { IfOk result (λ t. t ≡ triple_tuple (triple_in x)) }
{
    let mut tuple = Tuple::new(alloc);
    tuple.push(x.first + 1)?;
    tuple.push(x.second + 1)?;
    tuple.push(x.third + 1)?;
    Ok(tuple)
}

fn single_forms<F: Field>(alloc: Global, table: &Table<F>, w: u32) -> Result<Forms, AllocError>
    requires { (1 ≤ w) × (w ≤ table.now.weight) }
    ensures { IfOk result (λ forms. forms ≡ map single_tuple (singles table.now w)) }
{
    let singles = singles(alloc, table, w)?;
    let mut forms = Forms::new(alloc);
    for k in 0..singles.len() {
        forms.push(single_of(alloc, singles[k])?)?;
    }
    Ok(forms)
}

fn pair_forms<F: Field>(alloc: Global, table: &Table<F>, w: u32) -> Result<Forms, AllocError>
    requires { (1 ≤ w) × (w ≤ table.now.weight) }
    ensures { IfOk result (λ forms. forms ≡ map pair_tuple (pairs table.now w)) }
{
    let pairs = Pairs::of(alloc, table, w)?;
    let mut forms = Forms::new(alloc);
    for s in 0..pairs.len() {
        forms.push(pair_of(alloc, pairs.get(s))?)?;
    }
    Ok(forms)
}

fn triple_forms<F: Field>(alloc: Global, table: &Table<F>, w: u32) -> Result<Forms, AllocError>
    requires { (1 ≤ w) × (w ≤ table.now.weight) }
    ensures { IfOk result (λ forms. forms ≡ map triple_tuple (triples table.now w)) }
{
    let triples = triples(alloc, table, w)?;
    let mut forms = Forms::new(alloc);
    for k in 0..triples.len() {
        forms.push(triple_of(alloc, triples[k])?)?;
    }
    Ok(forms)
}

/// The tuples of `k` basis elements of total weight `w` in lexicographic order, ascending, with
/// equal neighbours only where odd: a k-form of weight `w` is its values there. `k` is 1 to 3,
/// and `w` from 1 to the table's weight.
pub fn forms<F: Field>(alloc: Global, table: &Table<F>, k: u32, w: u32) -> Result<Forms, AllocError>
    requires degree { (1 ≤ k) × (k ≤ 3) }
    requires weight { (1 ≤ w) × (w ≤ table.now.weight) }
    ensures { IfOk result (λ forms. forms ≡ forms_of table.now k w) }
{
    match k {
        1 => single_forms(alloc, table, w),
        2 => pair_forms(alloc, table, w),
        _ => triple_forms(alloc, table, w),
    }
}
