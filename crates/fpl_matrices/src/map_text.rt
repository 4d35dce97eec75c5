//! The text that gives a matrix for each generator.
ghost use Rattle.std.specs.Prelude.{◌≡◌, ◌≤◌, ◌<◌, ◌+◌, ◌*◌, [], length, IfOk};
ghost use Rattle.fpl_numbers.specs.declared.number.Kind.TheVariants.{Prime};
ghost use Rattle.fpl_model.specs.Meaning.{parity_in};
ghost use Rattle.fpl_model.specs.Sound.{IsSound};
ghost use Rattle.fpl_matrices.specs.Matrices.{IsShape, IsAssignment, prime_in};
ghost use Rattle.fpl_matrices.specs.MapText.{read_as, read_even, read_odd, read_entry, read_entries, read_matrix, read_matrices, assigned, map_of, Gives};

use crate::assignment::Assignment;
use crate::bracketing::is_odd_place;
use crate::expression::prime_of;
use crate::fault::MapError;
use crate::matrix::{Matrix, Shape};
use crate::pieces::{Number, read_number, read_word, skip_blanks};
use fpl_model::{Generator, Generators, Parity, Presentation};
use sqlite_items::Items;
use std::alloc::Global;

/// What all matrices of a text share.
#[derive(Clone, Copy)]
struct Layout {
    prime: u32,
    shape: Shape,
}

#[derive(Drop)]
struct Entries {
    numbers: Vec<u32>,
    next: usize,
}

#[derive(Drop)]
struct OneMatrix {
    matrix: Matrix,
    next: usize,
}

#[derive(Drop)]
struct AllMatrices {
    matrices: Items<Matrix>,
    next: usize,
}

#[derive(Clone, Copy)]
struct SizedAt {
    shape: Shape,
    next: usize,
}

fn read_even(bytes: &[u8], at: usize) -> Result<Number, MapError>
    requires { at ≤ length bytes.now }
    ensures value { Gives (λ x. read_as x.value x.next) result (read_even bytes.now at) }
    ensures within { IfOk result (λ x. x.next ≤ length bytes.now) }
    ensures most { IfOk result (λ x. x.value ≤ 32) }
{
    let even = read_number(bytes, at)?;
    if even.value > 32 {
        return Err(MapError::Size(even.place as u64));
    }
    Ok(even)
}

fn read_odd(bytes: &[u8], even: u32, at: usize) -> Result<Number, MapError>
    requires at { at ≤ length bytes.now }
    requires even { even ≤ 32 }
    ensures value { Gives (λ x. read_as x.value x.next) result (read_odd bytes.now even at) }
    ensures within { IfOk result (λ x. x.next ≤ length bytes.now) }
    ensures shape { IfOk result (λ x. IsShape even (even + x.value)) }
{
    let odd = read_number(bytes, at)?;
    if odd.value > 32 || even + odd.value < 1 || even + odd.value > 32 {
        return Err(MapError::Size(odd.place as u64));
    }
    Ok(odd)
}

// The number at place `s`, which counts from 0.
fn read_entry(
    bytes: &[u8],
    layout: Layout,
    parity: Parity,
    s: usize,
    at: usize,
) -> Result<Number, MapError>
    requires at { at ≤ length bytes.now }
    requires prime { layout.prime ≤ 65536 }
    requires shape { IsShape layout.shape.even (layout.shape.even + layout.shape.odd) }
    ensures value { Gives (λ x. read_as x.value x.next) result
        (read_entry bytes.now layout.prime layout.shape.even (layout.shape.even + layout.shape.odd) (parity_in parity) s at) }
    ensures within { IfOk result (λ x. x.next ≤ length bytes.now) }
{
    let entry = read_number(bytes, at)?;
    if entry.value >= layout.prime {
        return Err(MapError::Number(entry.place as u64));
    }
    let size = layout.shape.size() as usize;
    let is_odd = is_odd_place(layout.shape.even as usize, s / size, s % size);
    if entry.value != 0 && is_odd != (parity == Parity::Odd) {
        return Err(MapError::Parity(entry.place as u64));
    }
    Ok(entry)
}

fn read_entries(
    alloc: Global,
    bytes: &[u8],
    layout: Layout,
    parity: Parity,
    at: usize,
) -> Result<Entries, MapError>
    requires at { at ≤ length bytes.now }
    requires prime { layout.prime ≤ 65536 }
    requires shape { IsShape layout.shape.even (layout.shape.even + layout.shape.odd) }
    ensures value { let n = layout.shape.even + layout.shape.odd in
        Gives (λ x. read_as x.numbers.items x.next) result (read_entries bytes.now layout.prime layout.shape.even n (parity_in parity) [] (n * n) at) }
    ensures within { IfOk result (λ x. x.next ≤ length bytes.now) }
{
    let size = layout.shape.size() as usize;
    let mut numbers = Vec::new(alloc);
    let mut next = at;
    for s in 0..size * size {
        match read_entry(bytes, layout, parity, s, next) {
            Ok(entry) => {
                numbers.push(entry.value)?;
                next = entry.next;
            }
            Err(error) => return Err(error),
        }
    }
    Ok(Entries { numbers, next })
}

fn read_matrix(
    alloc: Global,
    bytes: &[u8],
    layout: Layout,
    generator: &Generator,
    at: usize,
) -> Result<OneMatrix, MapError>
    requires at { at ≤ length bytes.now }
    requires prime { layout.prime ≤ 65536 }
    requires shape { IsShape layout.shape.even (layout.shape.even + layout.shape.odd) }
    ensures value { Gives (λ x. read_as x.matrix x.next) result
        (read_matrix bytes.now layout.prime layout.shape.even (layout.shape.even + layout.shape.odd) generator.now at) }
    ensures within { IfOk result (λ x. x.next ≤ length bytes.now) }
{
    let next = read_word(bytes, generator.name.text().as_bytes(), at)?;
    let entries = read_entries(alloc, bytes, layout, generator.parity, next)?;
    Ok(OneMatrix {
        matrix: Matrix {
            prime: layout.prime,
            shape: layout.shape,
            numbers: entries.numbers,
        },
        next: entries.next,
    })
}

fn read_matrices(
    alloc: Global,
    bytes: &[u8],
    layout: Layout,
    generators: &Generators,
    at: usize,
) -> Result<AllMatrices, MapError>
    requires at { at ≤ length bytes.now }
    requires prime { layout.prime ≤ 65536 }
    requires shape { IsShape layout.shape.even (layout.shape.even + layout.shape.odd) }
    ensures value { Gives (λ x. read_as x.matrices x.next) result
        (read_matrices bytes.now layout.prime layout.shape.even (layout.shape.even + layout.shape.odd) [] generators.now at) }
    ensures within { IfOk result (λ x. x.next ≤ length bytes.now) }
{
    let mut matrices = Items::new(alloc);
    let mut next = at;
    for generator in generators.as_slice() {
        let one = read_matrix(alloc, bytes, layout, generator, next)?;
        matrices.push(one.matrix)?;
        next = one.next;
    }
    Ok(AllMatrices { matrices, next })
}

/// The matrices that the text from byte `from` on gives: `size`, how many rows are even and how many odd, and then for each generator its name and its
/// numbers, row by row. Places of faults count from the first of all bytes, from 0.
pub fn read_map(
    alloc: Global,
    p: &Presentation,
    bytes: &[u8],
    from: usize,
) -> Result<Assignment, MapError>
    requires sound { IsSound p.now }
    requires prime { p.now.field ≡ Prime (prime_in p.now.field) }
    requires from { from ≤ length bytes.now }
    ensures value { Gives (λ a. a) result (map_of p.now bytes.now from) }
    ensures assignment { IfOk result (λ a. IsAssignment p.now a) }
{
    let start = read_word(bytes, b"size", from)?;
    let even = read_even(bytes, start)?;
    let odd = read_odd(bytes, even.value, even.next)?;
    let shape = Shape {
        even: even.value,
        odd: odd.value,
    };
    let layout = Layout {
        prime: prime_of(p),
        shape,
    };
    let all = read_matrices(alloc, bytes, layout, &p.generators, odd.next)?;
    let end = skip_blanks(bytes, all.next);
    if end < bytes.len() {
        return Err(MapError::Syntax(end as u64));
    }
    Ok(Assignment {
        shape,
        matrices: all.matrices,
    })
}
