ghost use Rattle.std.specs.Prelude.{◌≡◌, ◌≤◌, ◌<◌, ◌-◌, ◌^◌, ℕ, true, length, map, replicate, slice_index_or, All, IfOk, IfSome};
ghost use Rattle.fpl_numbers.specs.Numbers.{IsElement, residue};
ghost use Rattle.fpl_numbers.specs.Results.{Answers, GivesBy};
ghost use Rattle.fpl_scalar.specs.Vectors.{AreElements, axpy_of, scale_of};
ghost use Rattle.fpl_rows.specs.Positions.{lead_below, added_at};
ghost use Rattle.fpl_rows.specs.Marking.{IsMarked, IsRest};
ghost use Rattle.fpl_rows.specs.Packing.{IsPacking, spread};

use crate::Row;
use crate::marks::{Cursor, Marks};
use fpl_scalar::{Fault, Field, Unfit};
use std::alloc::{AllocError, Global};
use std::marker::Model;

/// A row that is filled, swept and emptied again and again. Only the places that were touched are
/// visited, and a number is reduced when its place is visited. Positions count from 1.
#[derive(Drop)]
pub struct Work<F: Field> {
    field: F,
    sums: Vec<F::Sum>,
    marks: Marks,
}

impl<F: Field> Model for Work<F> {
    ghost use Rattle.std.specs.Prelude.{map};
    ghost use Rattle.fpl_rows.specs.Working.{IsWorking, Working};

    ghost Value = { Working };

    ghost view = { λ w. record { kind = F.kind_of w.field; row = map (F.summed w.field) w.sums.items } };

    ghost invariant = { λ w. IsWorking (F.kind_of w.field) (F.has_room w.field) (F.summed w.field) w.marks w.sums.items };
}

/// The greatest position of at most `most` whose number is not 0, counted from 1.
fn lead_among<F: Field>(field: &F, sums: &[F::Sum], marks: &Marks, most: usize) -> Option<usize>
    requires most { most ≤ length sums.now }
    requires marked { IsMarked marks.now (map (F.summed field.now) sums.now) }
    ensures value { result ≡ lead_below (map (F.summed field.now) sums.now) most }
    ensures within { IfSome result (λ s. s ≤ most) }
{
    let mut s = marks.end_below(most);
    while s > 0 {
        if !field.is_zero(field.settle(sums[s - 1])) {
            return Some(s);
        }
        s = marks.end_below(s - 1);
    }
    None
}

/// Writes 0 wherever there may be another number.
fn empty<F: Field>(field: &F, sums: &mut [F::Sum], marks: &Marks)
    requires marked { IsMarked marks.now (map (F.summed field.now) sums.old) }
    requires room { All (λ s. F.has_room field.now s ≡ true) sums.old }
    ensures value { map (F.summed field.now) sums.new ≡ replicate (length sums.old) (residue 0) }
    ensures room { All (λ s. F.has_room field.now s ≡ true) sums.new }
{
    let blank = field.blank();
    let mut s = marks.cursor_from(0);
    while s.place < sums.len() {
        sums[s.place] = blank;
        s = marks.after(s);
    }
}

/// From the least place behind `from` with a mark on, whose number is not 0, or the end.
#[inline(always)]
fn next_filled<F: Field>(field: &F, sums: &[F::Sum], marks: &Marks, from: Cursor) -> Cursor
    requires from { from.place ≤ length sums.now }
    requires rest { IsRest marks.now from.place from.rest from.end }
    requires marked { IsMarked marks.now (map (F.summed field.now) sums.now) }
    requires elements { AreElements (F.kind_of field.now) (map (F.summed field.now) sums.now) }
    ensures at_least { from.place ≤ result.place }
    ensures at_most { result.place ≤ length sums.now }
    ensures none { (k : ℕ) → from.place ≤ k → k < result.place → slice_index_or (map (F.summed field.now) sums.now) k (residue 0) ≡ residue 0 }
    ensures rest { IsRest marks.now result.place result.rest result.end }
{
    let mut s = from;
    while s.place < sums.len() && field.is_zero(field.settle(sums[s.place])) {
        s = marks.after(s);
    }
    s
}

/// 1 where the number is not 0.
#[inline(always)]
fn is_filled<F: Field>(field: &F, sum: F::Sum) -> usize
    ensures { result ≤ 1 }
{
    if field.is_zero(field.settle(sum)) {
        0
    } else {
        1
    }
}

/// How many numbers are not 0: so much room is asked for.
fn count_filled<F: Field>(field: &F, sums: &[F::Sum], marks: &Marks) -> usize
    requires marked { IsMarked marks.now (map (F.summed field.now) sums.now) }
    ensures { result ≤ length sums.now }
{
    let mut count = 0;
    let mut s = marks.cursor_from(0);
    while s.place < sums.len() {
        count += is_filled(field, sums[s.place]);
        s = marks.after(s);
    }
    count
}

/// The numbers of a row that are not 0, with their places.
#[derive(Drop)]
struct Gathered<F: Field> {
    places: Vec<u32>,
    numbers: Vec<F::Elem>,
}

fn collect<F: Field>(
    alloc: Global,
    field: &F,
    sums: &[F::Sum],
    marks: &Marks,
) -> Result<Gathered<F>, AllocError>
    requires marked { IsMarked marks.now (map (F.summed field.now) sums.now) }
    requires elements { AreElements (F.kind_of field.now) (map (F.summed field.now) sums.now) }
    ensures packing { IfOk result (λ kept. IsPacking (length sums.now) kept.places.items (length kept.numbers.items)) }
    ensures value { IfOk result (λ kept. spread (length sums.now) kept.places.items (map F.number kept.numbers.items) ≡ map (F.summed field.now) sums.now) }
    ensures elements { IfOk result (λ kept. AreElements (F.kind_of field.now) (map F.number kept.numbers.items)) }
{
    let count = count_filled(field, sums, marks);
    let mut places = Vec::with_capacity(alloc, count)?;
    let mut numbers = Vec::with_capacity(alloc, count)?;
    let mut s = next_filled(field, sums, marks, marks.cursor_from(0));
    while s.place < sums.len() {
        places.push(s.place as u32)?;
        numbers.push(field.settle(sums[s.place]))?;
        s = next_filled(field, sums, marks, marks.after(s));
    }
    Ok(Gathered { places, numbers })
}

/// `n` sums of nothing.
fn blanks<F: Field>(alloc: Global, field: &F, n: u32) -> Result<Vec<F::Sum>, AllocError>
    ensures value { IfOk result (λ sums. map (F.summed field.now) sums.items ≡ replicate n (residue 0)) }
    ensures room { IfOk result (λ sums. All (λ s. F.has_room field.now s ≡ true) sums.items) }
{
    let mut sums = Vec::with_capacity(alloc, n as usize)?;
    sums.resize(n as usize, field.blank())?;
    Ok(sums)
}

impl<F: Field> Work<F> {
    /// 0 at each of `n` positions.
    pub fn new(alloc: Global, field: F, n: u32) -> Result<Work<F>, AllocError>
        ensures { IfOk result (λ w. w ≡ record { kind = F.kind_of field; row = replicate n (residue 0) }) }
    {
        let sums = blanks(alloc, &field, n)?;
        let marks = Marks::new(alloc, n)?;
        Ok(Work { field, sums, marks })
    }

    pub fn len(&self) -> u32
        ensures value { result ≡ length self.now.row }
        ensures range { length self.now.row < 2 ^ 32 }
        ensures elements { AreElements self.now.kind self.now.row }
    {
        self.sums.len() as u32
    }

    /// The number at position `s`.
    pub fn at(&self, s: u32) -> F::Elem
        requires { (1 ≤ s) × (s ≤ length self.now.row) }
        ensures value { F.number result ≡ slice_index_or self.now.row (s - 1) (residue 0) }
        ensures element { IsElement self.now.kind (F.number result) }
    {
        self.field.settle(self.sums[s as usize - 1])
    }

    /// Adds `c` at position `s`.
    pub fn add_at(&mut self, s: u32, c: F::Elem) -> Result<(), Unfit>
        requires place { (1 ≤ s) × (s ≤ length self.old.row) }
        requires added { IsElement self.old.kind (F.number c) }
        ensures value { Answers (λ _. self.new.row) result (added_at self.old.kind self.old.row (s - 1) (F.number c)) }
        ensures kind { self.new.kind ≡ self.old.kind }
        ensures length { length self.new.row ≡ length self.old.row }
    {
        let place = s as usize - 1;
        match self.field.fuse(self.sums[place], self.field.one(), c) {
            Ok(sum) => {
                self.sums[place] = sum;
                self.marks.mark(place);
                Ok(())
            }
            Err(u) => Err(u),
        }
    }

    /// The greatest position of at most `most` whose number is not 0.
    pub fn lead_within(&self, most: u32) -> Option<u32>
        requires { most ≤ length self.now.row }
        ensures { result ≡ lead_below self.now.row most }
    {
        match lead_among(&self.field, &self.sums, &self.marks, most as usize) {
            Some(s) => Some(s as u32),
            None => None,
        }
    }

    /// Adds `c` times `other`, by ascending position, product before sum.
    /// Positions past the end of `other` count as 0.
    pub fn axpy(&mut self, c: F::Elem, other: &Row<F>) -> Result<(), Unfit>
        requires at_most { length other.now ≤ length self.old.row }
        requires factor { IsElement self.old.kind (F.number c) }
        requires other { AreElements self.old.kind other.now }
        ensures value { Answers (λ _. self.new.row) result (axpy_of self.old.kind self.old.row (F.number c) other.now) }
        ensures kind { self.new.kind ≡ self.old.kind }
        ensures length { length self.new.row ≡ length self.old.row }
    {
        other
            .form()
            .gain_to(&self.field, &mut self.sums, &mut self.marks, c)
    }

    /// Takes the numbers of a row, where each position is 0.
    pub fn load(&mut self, row: &Row<F>)
        requires zeros { self.old.row ≡ replicate (length row.now) (residue 0) }
        requires elements { AreElements self.old.kind row.now }
        ensures { self.new ≡ record { kind = self.old.kind; row = row.now } }
    {
        let one = self.field.one();
        // 0 + 1 * x always fits
        let _ = self.axpy(one, row);
    }

    /// The row, with each number multiplied by `c`, by ascending position.
    pub fn gather(&self, alloc: Global, c: F::Elem) -> Result<Row<F>, Fault>
        requires { IsElement self.now.kind (F.number c) }
        ensures value { GivesBy (λ r. r) result (scale_of self.now.kind (F.number c) self.now.row) }
        ensures elements { IfOk result (λ r. AreElements self.now.kind r) }
    {
        let Gathered {
            places,
            mut numbers,
        } = collect(alloc, &self.field, &self.sums, &self.marks)?;
        match self.field.scale(&mut numbers, c) {
            Ok(()) => Ok(Row::packed_of(&self.field, self.len(), places, numbers)),
            Err(u) => Err(Fault::Unfit(u)),
        }
    }

    /// 0 at each position.
    pub fn clear(&mut self)
        ensures { self.new ≡ record { kind = self.old.kind; row = replicate (length self.old.row) (residue 0) } }
    {
        empty(&self.field, &mut self.sums, &self.marks);
        self.marks.clear();
    }
}
