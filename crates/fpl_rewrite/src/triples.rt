ghost use Rattle.std.specs.Prelude.{◌≡◌, ◌≤◌, ◌<◌, ◌+◌, ◌^◌, [], ◌∷◌, length, MatchOption, IfSome};
ghost use Rattle.fpl_log.specs.declared.step.Origin.TheVariants.{Jacobi};
ghost use Rattle.fpl_table.specs.Plain.{plain_basis};
ghost use Rattle.fpl_table.specs.Shape.{HasShape};
ghost use Rattle.fpl_rewrite.specs.Triples.{thirds_from, seconds_from, firsts_from};

use fpl_scalar::Field;
use fpl_table::Table;

/// Three basis elements, by their places from 0, in ascending order.
#[derive(Clone, Copy, Debug)]
pub struct Triple {
    pub first: u32,
    pub second: u32,
    pub third: u32,
    ghost ascending: { (first ≤ second) × (second ≤ third) },
}

/// The weight of the basis element at place `i`.
#[inline(always)]
pub fn weight_at<F: Field>(table: &Table<F>, i: u32) -> u32
    requires shape { HasShape table.now }
    requires within { i < length table.now.basis }
    ensures { result ≡ (plain_basis table.now i).weight }
{
    table.basis(i + 1).weight
}

/// The least place from `third` on that makes a triple of the weight after the table's.
/// Basis elements of one weight stand together.
#[inline(always)]
fn next_third<F: Field>(table: &Table<F>, first: u32, second: u32, third: u32) -> Option<u32>
    requires ascending { (first ≤ second) × (second ≤ third) }
    requires shape { HasShape table.now }
    requires within { second < length table.now.basis }
    ensures value { MatchOption result
        (thirds_from table.now first second third ≡ [])
        (λ k. thirds_from table.now first second third ≡ Jacobi (first + 1) (second + 1) (k + 1) ∷ thirds_from table.now first second (k + 1)) }
    ensures within { IfSome result (λ k. (third ≤ k) × (k < length table.now.basis)) }
{
    let of_two = weight_at(table, first) + weight_at(table, second);
    if of_two > table.weight() {
        return None;
    }
    let weight = table.weight() + 1 - of_two;
    let least = third.max(table.through(weight - 1));
    if least < table.through(weight) {
        Some(least)
    } else {
        None
    }
}

/// The next triple of the weight after the table's with this first element, from
/// `second` and `third` on. The second is at most as heavy as the third.
#[inline(always)]
fn next_second<F: Field>(table: &Table<F>, first: u32, second: u32, third: u32) -> Option<Triple>
    requires ascending { (first ≤ second) × (second ≤ third) }
    requires shape { HasShape table.now }
    requires within { first < length table.now.basis }
    ensures value { MatchOption result
        (seconds_from table.now first second third ≡ [])
        (λ t. seconds_from table.now first second third
        ≡ Jacobi (t.first + 1) (t.second + 1) (t.third + 1) ∷ seconds_from table.now t.first t.second (t.third + 1)) }
    ensures within { IfSome result (λ t. (t.first ≡ first) × (t.third < length table.now.basis)) }
{
    let heaviest = (table.weight() + 1 - weight_at(table, first)) / 2;
    let mut k = third;
    for j in second..table.through(heaviest) {
        if let Some(third) = next_third(table, first, j, k) {
            return Some(Triple {
                first,
                second: j,
                third,
            });
        }
        k = j + 1;
    }
    None
}

/// The next triple of the weight after the table's, from `t` on.
/// The first is at most as heavy as the others.
#[inline(always)]
pub fn next_triple<F: Field>(table: &Table<F>, t: Triple) -> Option<Triple>
    ensures value { MatchOption result
        (firsts_from table.now t.first t.second t.third ≡ [])
        (λ u. firsts_from table.now t.first t.second t.third
        ≡ Jacobi (u.first + 1) (u.second + 1) (u.third + 1) ∷ firsts_from table.now u.first u.second (u.third + 1)) }
    ensures range { IfSome result (λ u. u.third < 2 ^ 31) }
{
    let mut j = t.second;
    let mut k = t.third;
    for i in t.first..table.through((table.weight() + 1) / 3) {
        if let Some(next) = next_second(table, i, j, k) {
            return Some(next);
        }
        j = i + 1;
        k = i + 1;
    }
    None
}
