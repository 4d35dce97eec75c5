//! Matrices of residues.
ghost use Rattle.std.specs.Prelude.{◌≡◌, ◌<◌, ◌≤◌, ◌+◌, ◌-◌, ◌*◌, length, slice_index, replicate, IfOk};
ghost use Rattle.fpl_numbers.specs.Numbers.{IsListed};
ghost use Rattle.fpl_lanes.specs.Lanes.{AllBelow, added, multiplied};
ghost use Rattle.plain_matrices.specs.Plain.{size_of, zeros, row_at, negated};
ghost use Rattle.fpl_matrices.specs.Matrices.{IsShape, IsSound, AreAlike, with_numbers};

use fpl_lanes::{axpy, scale};
use std::alloc::{AllocError, Global};
use std::marker::Model;

/// How many of the rows and columns are even; the others, after them, are odd.
#[derive(Clone, Copy, Debug, PartialEq, Eq)]
pub struct Shape {
    pub even: u32,
    pub odd: u32,
}

/// A matrix of residues modulo an accepted prime, row by row, with as many rows as columns.
#[derive(Drop)]
pub struct Matrix {
    pub(crate) prime: u32,
    pub(crate) shape: Shape,
    pub(crate) numbers: Vec<u32>,
}

impl Model for Matrix {
    ghost use Rattle.plain_matrices.specs.Plain.{PlainMatrix};

    ghost Value = { PlainMatrix };

    ghost view = { λ x. record { prime = x.prime; even = x.shape.even; odd = x.shape.odd; numbers = x.numbers.items } };
}

impl Shape {
    /// How many rows and columns.
    pub fn size(self) -> u32
        requires { self.even + self.odd ≤ 32 }
        ensures { result ≡ self.even + self.odd }
    {
        self.even + self.odd
    }
}

impl Matrix {
    pub fn shape(&self) -> Shape
        ensures even { result.even ≡ self.now.even }
        ensures odd { result.odd ≡ self.now.odd }
    {
        self.shape
    }

    /// The number in a row and a column, which count from 1.
    pub fn at(&self, row: u32, column: u32) -> u32
        requires sound { IsSound self.now }
        requires row { (1 ≤ row) × (row ≤ size_of self.now) }
        requires column { (1 ≤ column) × (column ≤ size_of self.now) }
        ensures { result ≡ slice_index self.now.numbers ((row - 1) * size_of self.now + (column - 1)) }
    {
        let size = self.shape.size();
        self.numbers[((row - 1) * size + (column - 1)) as usize]
    }

    /// How many rows and columns.
    pub(crate) fn size(&self) -> usize
        requires { IsSound self.now }
        ensures { result ≡ size_of self.now }
    {
        self.shape.size() as usize
    }

    /// Row `k`, counted from 0.
    pub(crate) fn row(&self, k: usize) -> &[u32]
        requires sound { IsSound self.now }
        requires within { k < size_of self.now }
        ensures value { result.now ≡ row_at (size_of self.now) self.now.numbers k }
        ensures length { length result.now ≡ size_of self.now }
        ensures below { AllBelow self.now.prime result.now }
    {
        let size = self.size();
        &self.numbers[k * size..k * size + size]
    }

    /// The number in row `r` and column `c`, which count from 0.
    pub(crate) fn number(&self, r: usize, c: usize) -> u32
        requires sound { IsSound self.now }
        requires row { r < size_of self.now }
        requires column { c < size_of self.now }
        ensures value { result ≡ slice_index self.now.numbers (r * size_of self.now + c) }
        ensures below { result < self.now.prime }
    {
        self.numbers[r * self.size() + c]
    }

    /// The numbers, row by row.
    pub fn into_numbers(self) -> Vec<u32>
        ensures { result.items ≡ self.numbers }
    {
        let Matrix { numbers, .. } = self;
        numbers
    }

    /// Adds a matrix.
    pub(crate) fn add(&mut self, other: &Matrix)
        requires sound { IsSound self.old }
        requires other { IsSound other.now }
        requires alike { AreAlike self.old other.now }
        ensures value { self.new ≡ with_numbers self.old (added self.old.prime self.old.numbers 1 other.now.numbers) }
        ensures sound { IsSound self.new }
    {
        axpy(self.prime, &mut self.numbers, 1, &other.numbers);
    }

    /// Multiplies by a residue.
    pub(crate) fn multiply(&mut self, c: u32)
        requires sound { IsSound self.old }
        requires factor { c < self.old.prime }
        ensures value { self.new ≡ with_numbers self.old (multiplied self.old.prime c self.old.numbers) }
        ensures sound { IsSound self.new }
    {
        scale(self.prime, &mut self.numbers, c);
    }

    /// An equal matrix.
    pub fn copy(&self, alloc: Global) -> Result<Matrix, AllocError>
        ensures { IfOk result (λ x. x ≡ self.now) }
    {
        Ok(Matrix {
            prime: self.prime,
            shape: self.shape,
            numbers: Vec::from_slice(alloc, &self.numbers)?,
        })
    }
}

/// As many zeros as asked for.
pub(crate) fn zeros_of(alloc: Global, count: usize) -> Result<Vec<u32>, AllocError>
    ensures { IfOk result (λ xs. xs.items ≡ replicate count 0) }
{
    Ok(vec![in alloc; 0; count]?)
}

/// The zero matrix.
pub(crate) fn zero(alloc: Global, prime: u32, shape: Shape) -> Result<Matrix, AllocError>
    requires listed { IsListed prime }
    requires shape { IsShape shape.even (shape.even + shape.odd) }
    ensures value { IfOk result (λ x. x ≡ record { prime = prime; even = shape.even; odd = shape.odd; numbers = zeros (shape.even + shape.odd) }) }
    ensures sound { IfOk result (λ x. IsSound x) }
{
    let size = shape.size() as usize;
    Ok(Matrix {
        prime,
        shape,
        numbers: zeros_of(alloc, size * size)?,
    })
}

/// The negative of a residue.
pub(crate) fn negative(prime: u32, a: u32) -> u32
    requires { a < prime }
    ensures { result ≡ negated prime a }
{
    if a == 0 { 0 } else { prime - a }
}
