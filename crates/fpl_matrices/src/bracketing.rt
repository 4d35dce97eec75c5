//! The bracket of supermatrices.
ghost use Rattle.std.specs.Prelude.{◌≡◌, ◌<◌, ◌≤◌, ◌+◌, ◌*◌, length, IfOk};
ghost use Rattle.fpl_lanes.specs.Lanes.{AllBelow, added};
ghost use Rattle.fpl_numbers.specs.Numbers.{IsListed};
ghost use Rattle.plain_matrices.specs.Plain.{size_of, is_odd_place, turned_number, turned, with_summand, bracket_row};
ghost use Rattle.fpl_matrices.specs.Matrices.{IsSound, AreAlike, bracket_of};

use crate::matrix::{Matrix, negative, zeros_of};
use fpl_lanes::axpy;
use std::alloc::{AllocError, Global};

// Whether the place in row `r` and column `c`, which count from 0, is in an odd block.
pub(crate) fn is_odd_place(even: usize, r: usize, c: usize) -> bool
    ensures { result ≡ is_odd_place even r c }
{
    if r < even { c >= even } else { c < even }
}

fn turned_number(x: &Matrix, s: usize) -> u32
    requires sound { IsSound x.now }
    requires within { s < length x.now.numbers }
    ensures { result ≡ turned_number x.now.prime x.now.even (size_of x.now) x.now.numbers s }
{
    let size = x.size();
    let number = x.numbers[s];
    if is_odd_place(x.shape.even as usize, s / size, s % size) {
        negative(x.prime, number)
    } else {
        number
    }
}

// The numbers of the matrix, negated where they stand in an odd block.
fn turned(alloc: Global, x: &Matrix) -> Result<Vec<u32>, AllocError>
    requires { IsSound x.now }
    ensures { IfOk result (λ xs. xs.items ≡ turned x.now.prime x.now.even (size_of x.now) x.now.numbers (length x.now.numbers)) }
{
    let mut numbers = Vec::new(alloc);
    for s in 0..x.numbers.len() {
        numbers.push(turned_number(x, s))?;
    }
    Ok(numbers)
}

// Adds a multiple of a row.
fn add_multiple(prime: u32, out: &mut [u32], c: u32, row: &[u32])
    requires listed { IsListed prime }
    requires below { AllBelow prime out.old }
    requires factor { c < prime }
    requires row { AllBelow prime row.now }
    requires length { length out.old ≡ length row.now }
    ensures value { out.new ≡ added prime out.old c row.now }
    ensures below { AllBelow prime out.new }
{
    axpy(prime, out, c, row);
}

// With row k of y, which is added as often as x has the place (r, k), row k of x is taken off as often as y has it; turned where that place is odd.
fn add_summand(out: &mut [u32], x: &Matrix, turned: &Matrix, y: &Matrix, r: usize, k: usize)
    requires x { IsSound x.now }
    requires turned { IsSound turned.now }
    requires y { IsSound y.now }
    requires alike { AreAlike x.now y.now }
    requires alike_turned { AreAlike x.now turned.now }
    requires within { (r < size_of x.now) × (k < size_of x.now) }
    requires below { AllBelow x.now.prime out.old }
    requires length { length out.old ≡ size_of x.now }
    ensures below { AllBelow x.now.prime out.new }
    ensures value { out.new ≡ with_summand x.now.prime x.now.even (size_of x.now) x.now.numbers turned.now.numbers y.now.numbers r k out.old }
{
    add_multiple(x.prime, out, x.number(r, k), y.row(k));
    let taken = negative(x.prime, y.number(r, k));
    if is_odd_place(x.shape.even as usize, r, k) {
        add_multiple(x.prime, out, taken, turned.row(k));
    } else {
        add_multiple(x.prime, out, taken, x.row(k));
    }
}

fn bracket_row(
    alloc: Global,
    x: &Matrix,
    turned: &Matrix,
    y: &Matrix,
    r: usize,
) -> Result<Vec<u32>, AllocError>
    requires x { IsSound x.now }
    requires turned { IsSound turned.now }
    requires y { IsSound y.now }
    requires alike { AreAlike x.now y.now }
    requires alike_turned { AreAlike x.now turned.now }
    requires within { r < size_of x.now }
    ensures { IfOk result (λ out. out.items ≡ bracket_row x.now.prime x.now.even (size_of x.now) x.now.numbers turned.now.numbers y.now.numbers r
        (size_of x.now)) }
{
    let size = x.size();
    let mut out = zeros_of(alloc, size)?;
    for k in 0..size {
        add_summand(&mut out, x, turned, y, r, k);
    }
    Ok(out)
}

// The matrix with its odd part negated.
fn turn(alloc: Global, x: &Matrix) -> Result<Matrix, AllocError>
    requires { IsSound x.now }
    ensures numbers { IfOk result (λ t. t.numbers ≡ turned x.now.prime x.now.even (size_of x.now) x.now.numbers (size_of x.now * size_of x.now)) }
    ensures alike { IfOk result (λ t. AreAlike x.now t) }
    ensures sound { IfOk result (λ t. IsSound t) }
{
    Ok(Matrix {
        prime: x.prime,
        shape: x.shape,
        numbers: turned(alloc, x)?,
    })
}

/// The bracket of two matrices with one prime and one shape: it is bilinear, and for parts of parities s and t it is XY - (-1)^(st) YX.
pub fn bracket(alloc: Global, x: &Matrix, y: &Matrix) -> Result<Matrix, AllocError>
    requires x { IsSound x.now }
    requires y { IsSound y.now }
    requires alike { AreAlike x.now y.now }
    ensures value { IfOk result (λ z. z ≡ bracket_of x.now y.now) }
    ensures sound { IfOk result (λ z. IsSound z) }
{
    let turned = turn(alloc, x)?;
    let mut numbers = Vec::new(alloc);
    for r in 0..x.size() {
        let row = bracket_row(alloc, x, &turned, y, r)?;
        numbers.extend_from_slice(&row)?;
    }
    Ok(Matrix {
        prime: x.prime,
        shape: x.shape,
        numbers,
    })
}
