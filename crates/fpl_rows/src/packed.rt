ghost use Rattle.std.specs.Prelude.{◌≡◌, ◌≤◌, ◌<◌, ◌^◌, length, map, replicate, IfOk, slice_index_or};
ghost use Rattle.fpl_numbers.specs.Numbers.{IsElement, residue};
ghost use Rattle.fpl_numbers.specs.Results.{Answers};
ghost use Rattle.fpl_scalar.specs.Vectors.{AreElements, axpy_of};
ghost use Rattle.fpl_rows.specs.Positions.{lead_below, next_of};
ghost use Rattle.fpl_rows.specs.Packing.{IsPacking, filled_numbers, filled_places, spread};
ghost use Rattle.fpl_rows.specs.Working.{IsWorking};

use crate::marks::Marks;
use crate::places;
use crate::sums::gain_at;
use fpl_scalar::{Field, Unfit};
use std::alloc::{AllocError, Global};
use std::marker::Model;

/// A row told by the numbers that are not 0, by ascending place. Places count from 0.
#[derive(Drop)]
pub struct Packed<F: Field> {
    size: u32,
    places: Vec<u32>,
    numbers: Vec<F::Elem>,
}

impl<F: Field> Model for Packed<F> {
    ghost use Rattle.std.specs.Prelude.{List, length, map};
    ghost use Rattle.fpl_numbers.specs.declared.number.Num.{Num};
    ghost use Rattle.fpl_rows.specs.Packing.{IsPacked, spread};

    ghost Value = { List Num };

    ghost view = { λ p. spread p.size p.places.items (map F.number p.numbers.items) };

    ghost invariant = { λ p. IsPacked p.size p.places.items (length p.numbers.items) };
}

/// Where a number may be found among ascending places: those before it are below `place`, the
/// others are not.
fn count_below(places: &[u32], place: u32) -> usize
    requires { (i j : _) → i < j → j < length places.now → slice_index_or places.now i 0 < slice_index_or places.now j 0 }
    ensures within { result ≤ length places.now }
    ensures below { (k : _) → k < result → slice_index_or places.now k 0 < place }
    ensures rest { (k : _) → result ≤ k → k < length places.now → place ≤ slice_index_or places.now k 0 }
{
    let mut from = 0;
    let mut to = places.len();
    while from < to {
        let middle = from + (to - from) / 2;
        if places[middle] < place {
            from = middle + 1;
        } else {
            to = middle;
        }
    }
    from
}

/// The numbers of a row that are not 0, with their places.
#[derive(Drop)]
struct Filled<F: Field> {
    places: Vec<u32>,
    numbers: Vec<F::Elem>,
}

fn find_filled<F: Field>(
    alloc: Global,
    field: &F,
    count: usize,
    row: &[F::Elem],
) -> Result<Filled<F>, AllocError>
    requires { length row.now < 2 ^ 32 }
    ensures places { IfOk result (λ kept. kept.places.items ≡ filled_places (map F.number row.now)) }
    ensures numbers { IfOk result (λ kept. map F.number kept.numbers.items ≡ filled_numbers (map F.number row.now)) }
{
    let mut places = Vec::with_capacity(alloc, count)?;
    let mut numbers = Vec::with_capacity(alloc, count)?;
    let mut after = 0;
    while let Some(s) = places::next(field, row, after) {
        places.push((s - 1) as u32)?;
        numbers.push(row[s - 1])?;
        after = s;
    }
    Ok(Filled { places, numbers })
}

/// Adds `c` times the numbers at some places.
fn axpy_at<F: Field>(
    field: &F,
    row: &mut [F::Elem],
    c: F::Elem,
    size: u32,
    places: &[u32],
    numbers: &[F::Elem],
) -> Result<(), Unfit>
    requires packing { IsPacking size places.now (length numbers.now) }
    requires at_most { size ≤ length row.old }
    requires row { AreElements (F.kind_of field.now) (map F.number row.old) }
    requires factor { IsElement (F.kind_of field.now) (F.number c) }
    requires other { AreElements (F.kind_of field.now) (map F.number numbers.now) }
    ensures elements { AreElements (F.kind_of field.now) (map F.number row.new) }
    ensures value { Answers (λ _. map F.number row.new) result (axpy_of (F.kind_of field.now) (map F.number row.old) (F.number c)
        (spread size places.now (map F.number numbers.now))) }
{
    for k in 0..places.len() {
        let place = places[k] as usize;
        let product = match field.mul(c, numbers[k]) {
            Ok(product) => product,
            Err(u) => return Err(u),
        };
        match field.add(row[place], product) {
            Ok(sum) => row[place] = sum,
            Err(u) => return Err(u),
        }
    }
    Ok(())
}

/// Writes the numbers at their places, over a row of zeros.
fn write_at<F: Field>(row: &mut [F::Elem], size: u32, places: &[u32], numbers: &[F::Elem])
    requires packing { IsPacking size places.now (length numbers.now) }
    requires whole { length row.old ≡ size }
    requires zeros { map F.number row.old ≡ replicate size (residue 0) }
    ensures { map F.number row.new ≡ spread size places.now (map F.number numbers.now) }
{
    let mut k = places.len();
    while k > 0 {
        k -= 1;
        row[places[k] as usize] = numbers[k];
    }
}

/// `size` numbers: these at these places, and 0 elsewhere.
pub fn spread_out<F: Field>(
    alloc: Global,
    field: &F,
    size: u32,
    places: &[u32],
    numbers: &[F::Elem],
) -> Result<Vec<F::Elem>, AllocError>
    requires { IsPacking size places.now (length numbers.now) }
    ensures { IfOk result (λ row. map F.number row.items ≡ spread size places.now (map F.number numbers.now)) }
{
    let mut row = zeros(alloc, field, size)?;
    write_at::<F>(&mut row, size, places, numbers);
    Ok(row)
}

/// `size` zeros.
pub fn zeros<F: Field>(alloc: Global, field: &F, size: u32) -> Result<Vec<F::Elem>, AllocError>
    ensures value { IfOk result (λ row. map F.number row.items ≡ replicate size (residue 0)) }
    ensures whole { IfOk result (λ row. length row.items ≡ size) }
    ensures elements { IfOk result (λ row. AreElements (F.kind_of field.now) (map F.number row.items)) }
{
    let mut row = Vec::with_capacity(alloc, size as usize)?;
    row.resize(size as usize, field.zero())?;
    Ok(row)
}

impl<F: Field> Packed<F> {
    /// The numbers of a row, of which `count` are not 0.
    pub fn of(
        alloc: Global,
        field: &F,
        count: usize,
        row: &[F::Elem],
    ) -> Result<Packed<F>, AllocError>
        requires few { length row.now < 2 ^ 32 }
        requires elements { AreElements (F.kind_of field.now) (map F.number row.now) }
        ensures { IfOk result (λ packed. packed ≡ map F.number row.now) }
    {
        let Filled { places, numbers } = find_filled(alloc, field, count, row)?;
        Ok(Packed {
            size: row.len() as u32,
            places,
            numbers,
        })
    }

    /// The row of `size` places with these numbers at these places, and 0 elsewhere.
    pub fn spread(
        alloc: Global,
        size: u32,
        places: &[u32],
        numbers: &[F::Elem],
    ) -> Result<Packed<F>, AllocError>
        requires { IsPacking size places.now (length numbers.now) }
        ensures { IfOk result (λ packed. packed ≡ spread size places.now (map F.number numbers.now)) }
    {
        Ok(Packed {
            size,
            places: Vec::from_slice(alloc, places)?,
            numbers: Vec::from_slice(alloc, numbers)?,
        })
    }

    /// As `spread`, of lists that are given.
    pub fn of_parts(size: u32, places: Vec<u32>, numbers: Vec<F::Elem>) -> Packed<F>
        requires { IsPacking size places.items (length numbers.items) }
        ensures { result ≡ spread size places.items (map F.number numbers.items) }
    {
        Packed {
            size,
            places,
            numbers,
        }
    }

    /// The places, and the numbers at them.
    pub fn cells(&self) -> (&[u32], &[F::Elem])
        ensures packing { IsPacking (length self.now) result.0.now (length result.1.now) }
        ensures value { spread (length self.now) result.0.now (map F.number result.1.now) ≡ self.now }
    {
        (&self.places, &self.numbers)
    }

    pub fn copy(&self, alloc: Global) -> Result<Packed<F>, AllocError>
        ensures { IfOk result (λ packed. packed ≡ self.now) }
    {
        Packed::spread(alloc, self.size, &self.places, &self.numbers)
    }

    pub fn len(&self) -> u32
        ensures value { result ≡ length self.now }
        ensures range { length self.now < 2 ^ 32 }
    {
        self.size
    }

    /// The number at `place`.
    pub fn at(&self, field: &F, place: u32) -> F::Elem
        ensures { F.number result ≡ slice_index_or self.now place (residue 0) }
    {
        let k = count_below(&self.places, place);
        if k < self.places.len() && self.places[k] == place {
            self.numbers[k]
        } else {
            field.zero()
        }
    }

    /// The greatest position of at most `most` whose number is not 0, counted from 1.
    pub fn lead_within(&self, field: &F, most: u32) -> Option<u32>
        requires { most ≤ length self.now }
        ensures value { result ≡ lead_below self.now most }
    {
        let count = count_below(&self.places, most);
        match places::lead_within(field, &self.numbers, count) {
            Some(k) => Some(self.places[k - 1] + 1),
            None => None,
        }
    }

    /// The least position above `after` whose number is not 0, counted from 1.
    pub fn next(&self, field: &F, after: u32) -> Option<u32>
        ensures value { result ≡ next_of self.now after }
    {
        let count = count_below(&self.places, after);
        match places::next(field, &self.numbers, count) {
            Some(k) => Some(self.places[k - 1] + 1),
            None => None,
        }
    }

    /// Adds `c` times this row to the places at the front.
    pub fn axpy_to(&self, field: &F, row: &mut [F::Elem], c: F::Elem) -> Result<(), Unfit>
        requires at_most { length self.now ≤ length row.old }
        requires row { AreElements (F.kind_of field.now) (map F.number row.old) }
        requires factor { IsElement (F.kind_of field.now) (F.number c) }
        requires other { AreElements (F.kind_of field.now) self.now }
        ensures elements { AreElements (F.kind_of field.now) (map F.number row.new) }
        ensures value { Answers (λ _. map F.number row.new) result (axpy_of (F.kind_of field.now) (map F.number row.old) (F.number c) self.now) }
    {
        axpy_at(field, row, c, self.size, &self.places, &self.numbers)
    }

    /// As `axpy_to`, to sums with marks.
    pub fn gain_to(
        &self,
        field: &F,
        sums: &mut [F::Sum],
        marks: &mut Marks,
        c: F::Elem,
    ) -> Result<(), Unfit>
        requires at_most { length self.now ≤ length sums.old }
        requires working { IsWorking (F.kind_of field.now) (F.has_room field.now) (F.summed field.now) marks.old sums.old }
        requires factor { IsElement (F.kind_of field.now) (F.number c) }
        requires other { AreElements (F.kind_of field.now) self.now }
        ensures working { IsWorking (F.kind_of field.now) (F.has_room field.now) (F.summed field.now) marks.new sums.new }
        ensures value { Answers (λ _. map (F.summed field.now) sums.new) result (axpy_of (F.kind_of field.now) (map (F.summed field.now) sums.old) (F.number c) self.now) }
    {
        gain_at(field, sums, marks, c, &self.places, &self.numbers)
    }

    /// The number at each place.
    pub fn unpacked(&self, field: &F) -> Result<Vec<F::Elem>, AllocError>
        ensures { IfOk result (λ row. map F.number row.items ≡ self.now) }
    {
        let alloc = *self.places.allocator();
        spread_out(alloc, field, self.size, &self.places, &self.numbers)
    }
}
