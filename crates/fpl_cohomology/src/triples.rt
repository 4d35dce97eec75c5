//! The triples of a weight.
ghost use Rattle.std.specs.Prelude.{◌≡◌, ◌≤◌, ◌<◌, ◌+◌, ◌*◌, ◌++◌, map, length, IfOk, OnOk};
ghost use Rattle.fpl_table.specs.Plain.{plain_basis, first_partner};
ghost use Rattle.fpl_table.specs.Shape.{HasShape};
ghost use Rattle.plain_cohomology.specs.Plain.{second_cell, first_cell, triples};
ghost use Rattle.fpl_cohomology.specs.Forms.{triple_in};

use fpl_model::Parity;
use fpl_scalar::Field;
use fpl_table::Table;
use std::alloc::{AllocError, Global};

/// Three basis elements, by their places from 0.
#[derive(Clone, Copy, Debug)]
pub struct Places {
    pub first: u32,
    pub second: u32,
    pub third: u32,
}

/// The weight of the basis element at place `i`.
fn weight_at<F: Field>(table: &Table<F>, i: u32) -> u32
    requires { i < length table.now.basis }
    ensures value { result ≡ (plain_basis table.now i).weight }
    ensures shape { HasShape table.now }
{
    let _count = table.basis_len();
    table.basis(i + 1).weight
}

/// The least place that makes a regular pair with place `i` before it: `i` itself where it is
/// odd, else the next.
fn partner_at<F: Field>(table: &Table<F>, i: u32) -> u32
    requires { i < length table.now.basis }
    ensures { result ≡ first_partner table.now i }
{
    let _count = table.basis_len();
    match table.basis(i + 1).parity {
        Parity::Odd => i,
        Parity::Even => i + 1,
    }
}

/// Puts the triples of weight `w` that begin with a regular pair last.
fn push_thirds<F: Field>(
    table: &Table<F>,
    w: u32,
    first: u32,
    second: u32,
    triples: &mut Vec<Places>,
) -> Result<(), AllocError>
    requires places { (first < length table.now.basis) × (second < length table.now.basis) }
    requires regular { first_partner table.now first ≤ second }
    requires reached { w ≤ table.now.weight }
    ensures { OnOk result (map triple_in triples.new.items ≡ map triple_in triples.old.items ++ second_cell table.now w first second) }
{
    let of_two = weight_at(table, first) + weight_at(table, second);
    if of_two >= w {
        return Ok(());
    }
    let rest = w - of_two;
    let least = partner_at(table, second);
    let from = least.max(table.through(rest - 1));
    let to = table.through(rest);
    for third in from..to {
        triples.push(Places {
            first,
            second,
            third,
        })?;
    }
    Ok(())
}

/// Puts the triples of weight `w` that begin with place `first` last. The second is at most as
/// heavy as the third.
fn push_seconds<F: Field>(
    table: &Table<F>,
    w: u32,
    first: u32,
    triples: &mut Vec<Places>,
) -> Result<(), AllocError>
    requires place { first < length table.now.basis }
    requires light { 3 * (plain_basis table.now first).weight ≤ w }
    requires reached { w ≤ table.now.weight }
    ensures { OnOk result (map triple_in triples.new.items ≡ map triple_in triples.old.items ++ first_cell table.now w first) }
{
    let rest = w - weight_at(table, first);
    let from = partner_at(table, first);
    let to = table.through(rest / 2);
    for second in from..to {
        push_thirds(table, w, first, second, triples)?;
    }
    Ok(())
}

/// The triples of weight `w` with equal neighbours only where odd, in lexicographic order.
/// The first is at most as heavy as the others.
pub(crate) fn triples<F: Field>(
    alloc: Global,
    table: &Table<F>,
    w: u32,
) -> Result<Vec<Places>, AllocError>
    requires { (1 ≤ w) × (w ≤ table.now.weight) }
    ensures value { IfOk result (λ list. map triple_in list.items ≡ triples table.now w) }
    ensures shape { HasShape table.now }
{
    let mut list = Vec::new(alloc);
    let to = table.through(w / 3);
    for first in 0..to {
        push_seconds(table, w, first, &mut list)?;
    }
    Ok(list)
}
