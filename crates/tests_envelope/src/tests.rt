ghost use Rattle.std.specs.Prelude.{◌≡◌, ◌≤◌, ◌<◌, ◌∷◌, [], IfSome, IsTrue};
ghost use Rattle.fpl_numbers.specs.declared.number.Num.{Num};
ghost use Rattle.fpl_numbers.specs.Numbers.{IsElement};
ghost use Rattle.fpl_model.specs.Sound.{IsSound};
ghost use Rattle.fpl_table.specs.Standard.{IsTableOf};
ghost use Rattle.fpl_envelope.specs.Action.{IsEnveloped};
ghost use Rattle.fpl_envelope.specs.Polys.{IsTermIn, IsPolyIn};

use fpl_complete::State;
use fpl_envelope::{Poly, Term, Word, multiply, straighten, word_count, words};
use fpl_envelope_text::envelope_text;
use fpl_model::Presentation;
use fpl_reader::read;
use fpl_scalar::{Field, Kind, Residue};
use fpl_steps::Steps;
use fpl_table::Table;
use std::alloc::Global;
use std::marker::Brand;
use std::sync::ledger::{Blank, Ledger};
use std::test::Fail;

// Two even generators; b3 is their bracket.
const HEISENBERG: &str = "field 7; even x, y;";

// One odd generator; b2 is its square.
const ODD: &str = "field 7; odd u;";

// The presentation of a short text, copied.
fn presentation(alloc: Global, text: &str) -> Option<Presentation>
    ensures { IfSome result (λ p. IsSound p) }
{
    if text.len() > 1000 {
        return None;
    }
    match read(alloc, text.as_bytes()) {
        Ok(p) => p.copy(alloc).ok(),
        Err(_) => None,
    }
}

fn raised<L: Ledger>(
    alloc: Global,
    text: &str,
    d: u32,
    steps: &mut Steps<L>,
) -> Option<State<Residue>>
    requires { d ≤ 1000 }
{
    let p = presentation(alloc, text)?;
    let Kind::Prime(prime) = p.field else {
        return None;
    };
    let field = Residue::of(prime)?;
    let Ok(mut state) = State::start(alloc, field, p) else {
        return None;
    };
    match state.raise(d, 200_000, steps) {
        Ok(()) => Some(state),
        Err(_) => None,
    }
}

// Whether a table has an enveloping superalgebra to compute in, as all over a prime have.
fn is_enveloped(p: &Presentation, table: &Table<Residue>) -> bool
    requires sound { IsSound p.now }
    requires standard { IsTableOf p.now table.now.weight table.now }
    ensures { IsTrue result → IsEnveloped table.now }
{
    let _weight = table.weight();
    match table.field().kind() {
        Kind::Prime(_) => true,
        Kind::Rational => false,
    }
}

// A word of one letter, with the number 1.
fn letter(alloc: Global, table: &Table<Residue>, i: u32) -> Option<Poly<Residue>>
    ensures { IfSome result (λ u. (c : Num) × IsElement table.now.kind c × (u ≡ ((i ∷ []), c) ∷ [])) }
{
    let one = table.field().one();
    let mut letters = Vec::new(alloc);
    let mut poly = Poly::new(alloc);
    match letters.push(i) {
        Ok(()) => {}
        Err(_) => return None,
    }
    match poly.push(Word { letters }, one) {
        Ok(()) => Some(poly),
        Err(_) => None,
    }
}

// The straightened product of basis elements `i` and `j`.
fn product(alloc: Global, table: &Table<Residue>, i: u32, j: u32) -> Option<Poly<Residue>>
    requires { IsEnveloped table.now }
    ensures { IfSome result (λ u. IsPolyIn table.now u) }
{
    let count = table.basis_len();
    if i == 0 || j == 0 || i > count || j > count {
        return None;
    }
    let left = letter(alloc, table, i)?;
    let right = letter(alloc, table, j)?;
    if table.basis(i).weight > table.weight()
        || table.basis(j).weight > table.weight() - table.basis(i).weight
    {
        return None;
    }
    multiply(alloc, table, &left, &right).ok()
}

fn is_term(table: &Table<Residue>, term: &Term<Residue>, word: &[u32], number: i128) -> bool
    requires { IsTermIn table.now term.now }
{
    term.word.letters.as_slice() == word && table.field().num(term.number).numerator == number
}

// Whether a combination has these words with these numbers, in this order.
fn is_poly(table: &Table<Residue>, poly: &Poly<Residue>, words: &[&[u32]], numbers: &[i128]) -> bool
    requires { IsPolyIn table.now poly.now }
{
    let terms = poly.as_slice();
    if terms.len() != words.len() || terms.len() != numbers.len() {
        return false;
    }
    for k in 0..terms.len() {
        if !is_term(table, &terms[k], words[k], numbers[k]) {
            return false;
        }
    }
    true
}

// Whether the product of basis elements `i` and `j`, and what it straightens to again, have these words with these numbers.
fn is_product(
    alloc: Global,
    table: &Table<Residue>,
    i: u32,
    j: u32,
    words: &[&[u32]],
    numbers: &[i128],
) -> bool
    requires { IsEnveloped table.now }
{
    let Some(found) = product(alloc, table, i, j) else {
        return false;
    };
    let Ok(again) = straighten(alloc, table, &found) else {
        return false;
    };
    is_poly(table, &found, words, numbers) && is_poly(table, &again, words, numbers)
}

// Whether the ordered words of weight `w` are these.
fn are_words(alloc: Global, table: &Table<Residue>, w: u32, want: &[&[u32]]) -> bool {
    if w > table.weight() {
        return false;
    }
    let Ok(list) = words(alloc, table, w) else {
        return false;
    };
    if list.len() != want.len() {
        return false;
    }
    for k in 0..list.len() {
        if list[k].letters.as_slice() != want[k] {
            return false;
        }
    }
    true
}

fn count(alloc: Global, table: &Table<Residue>, w: u32, entries: u64) -> Option<(u32, u64)>
    requires { entries ≤ 2000000 }
{
    if w > table.weight() {
        return None;
    }
    word_count(alloc, table, w, entries).ok().flatten()
}

fn fault_of_heisenberg(
    alloc: Global,
    p: &Presentation,
    table: &Table<Residue>,
) -> Option<&'static str>
    requires sound { IsSound p.now }
    requires standard { IsTableOf p.now table.now.weight table.now }
{
    if !is_enveloped(p, table) {
        return Some("over fractions");
    }
    if !are_words(alloc, table, 2, &[&[1, 1], &[1, 2], &[2, 2], &[3]]) {
        return Some("words");
    }
    if count(alloc, table, 2, 5) != Some((2, 6)) || count(alloc, table, 2, 6).is_some() {
        return Some("count");
    }
    if !is_product(alloc, table, 2, 1, &[&[1, 2], &[3]], &[1, 6]) {
        return Some("product");
    }
    None
}

fn fault_of_odd(alloc: Global, p: &Presentation, table: &Table<Residue>) -> Option<&'static str>
    requires sound { IsSound p.now }
    requires standard { IsTableOf p.now table.now.weight table.now }
{
    if !is_enveloped(p, table) {
        return Some("over fractions");
    }
    if !is_product(alloc, table, 1, 1, &[&[2]], &[4]) {
        return Some("square");
    }
    let want: &[u8] =
        b"envelope 7 through 3\nweight 1 even 0 odd 1\nweight 2 even 1 odd 0\nweight 3 even 0 odd 1\nproducts 2\nb1.b1 = 4*b2\nb2.b1 = b1.b2\nend\n";
    match envelope_text(alloc, table) {
        Ok(text) => {
            if text.as_slice() == want {
                None
            } else {
                Some("text")
            }
        }
        Err(_) => Some("memory"),
    }
}

fn fault_of<L: Ledger>(blank: Blank, alloc: Global) -> Option<&'static str>
    requires name { blank.name ≡ L.name }
    requires parts { blank.parts ≡ L.parts }
    requires some { 0 < blank.parts }
{
    let mut steps = Steps::<L>::new(blank);
    let Some(state) = raised(alloc, HEISENBERG, 2, &mut steps) else {
        return Some("not raised");
    };
    if let Some(fault) = fault_of_heisenberg(alloc, state.presentation(), state.table()) {
        return Some(fault);
    }
    match raised(alloc, ODD, 3, &mut steps) {
        Some(state) => fault_of_odd(alloc, state.presentation(), state.table()),
        None => Some("not raised"),
    }
}

#[test]
fn products_are_right(rt: HostRuntime) {
    let alloc = rt.alloc();
    assert_eq!(rt; fault_of::<Brand>(Blank::new(1), alloc), None);
}
