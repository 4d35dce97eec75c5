ghost use Rattle.std.specs.Prelude.{◌≡◌, ◌≤◌, ◌<◌, ◌^◌, length, map, IfOk};
ghost use Rattle.fpl_numbers.specs.Numbers.{IsElement};
ghost use Rattle.fpl_numbers.specs.Results.{Answers};
ghost use Rattle.fpl_scalar.specs.Vectors.{AreElements, axpy_of};
ghost use Rattle.fpl_rows.specs.Forms.{numbers_in};
ghost use Rattle.fpl_rows.specs.Packing.{IsPacking, spread};
ghost use Rattle.fpl_rows.specs.Working.{IsWorking};

use crate::marks::Marks;
use crate::packed::{Packed, spread_out};
use crate::places;
use crate::sums::gain_each;
use fpl_scalar::{Field, Kind, Unfit};
use std::alloc::{AllocError, Global};

/// How a row keeps its numbers.
#[derive(Drop)]
pub enum Form<F: Field> {
    /// A number at each place.
    Dense(Vec<F::Elem>),
    /// The numbers that are not 0.
    Sparse(Packed<F>),
}

/// How many numbers that are not 0 a row of `length` places may have at most for the packed form
/// to be the better one: over fractions for the memory, over residues also for the time, since
/// loops over residues take several places at once.
fn most_packed(kind: Kind, length: usize) -> usize {
    match kind {
        Kind::Prime(_) => length / 8,
        Kind::Rational => length / 2,
    }
}

impl<F: Field> Form<F> {
    /// These numbers at these of `size` places, and 0 elsewhere, in the better form.
    pub fn spread(
        alloc: Global,
        field: &F,
        size: u32,
        places: &[u32],
        numbers: &[F::Elem],
    ) -> Result<Form<F>, AllocError>
        requires { IsPacking size places.now (length numbers.now) }
        ensures { IfOk result (λ form. numbers_in F.number form ≡ spread size places.now (map F.number numbers.now)) }
    {
        if places.len() <= most_packed(field.kind(), size as usize) {
            Ok(Form::Sparse(Packed::spread(alloc, size, places, numbers)?))
        } else {
            Ok(Form::Dense(spread_out(alloc, field, size, places, numbers)?))
        }
    }

    /// As `spread`, of lists that are given.
    pub fn spread_vec(
        alloc: Global,
        field: &F,
        size: u32,
        places: Vec<u32>,
        numbers: Vec<F::Elem>,
    ) -> Result<Form<F>, AllocError>
        requires { IsPacking size places.items (length numbers.items) }
        ensures { IfOk result (λ form. numbers_in F.number form ≡ spread size places.items (map F.number numbers.items)) }
    {
        if places.len() <= most_packed(field.kind(), size as usize) {
            Ok(Form::Sparse(Packed::of_parts(size, places, numbers)))
        } else {
            Ok(Form::Dense(spread_out(alloc, field, size, &places, &numbers)?))
        }
    }

    /// The same numbers, packed where that is better. Where memory is wanting they stay as they are.
    pub fn packed(self, alloc: Global, field: &F) -> Form<F>
        requires few { length (numbers_in F.number self) < 2 ^ 32 }
        requires elements { AreElements (F.kind_of field.now) (numbers_in F.number self) }
        ensures { numbers_in F.number result ≡ numbers_in F.number self }
    {
        match self {
            Form::Dense(numbers) => {
                let most = most_packed(field.kind(), numbers.len());
                let Some(count) = places::count_filled(field, &numbers, most) else {
                    return Form::Dense(numbers);
                };
                match Packed::of(alloc, field, count, &numbers) {
                    Ok(packed) => Form::Sparse(packed),
                    Err(_) => Form::Dense(numbers),
                }
            }
            Form::Sparse(packed) => Form::Sparse(packed),
        }
    }

    /// Adds `c` times these numbers to the places at the front.
    pub fn axpy_to(&self, field: &F, row: &mut [F::Elem], c: F::Elem) -> Result<(), Unfit>
        requires at_most { length (numbers_in F.number self.now) ≤ length row.old }
        requires row { AreElements (F.kind_of field.now) (map F.number row.old) }
        requires factor { IsElement (F.kind_of field.now) (F.number c) }
        requires other { AreElements (F.kind_of field.now) (numbers_in F.number self.now) }
        ensures elements { AreElements (F.kind_of field.now) (map F.number row.new) }
        ensures value { Answers (λ _. map F.number row.new) result (axpy_of (F.kind_of field.now) (map F.number row.old) (F.number c) (numbers_in F.number self.now)) }
    {
        match self {
            Form::Dense(other) => places::axpy(field, row, c, other),
            Form::Sparse(packed) => packed.axpy_to(field, row, c),
        }
    }

    /// As `axpy_to`, to sums with marks.
    pub fn gain_to(
        &self,
        field: &F,
        sums: &mut [F::Sum],
        marks: &mut Marks,
        c: F::Elem,
    ) -> Result<(), Unfit>
        requires at_most { length (numbers_in F.number self.now) ≤ length sums.old }
        requires working { IsWorking (F.kind_of field.now) (F.has_room field.now) (F.summed field.now) marks.old sums.old }
        requires factor { IsElement (F.kind_of field.now) (F.number c) }
        requires other { AreElements (F.kind_of field.now) (numbers_in F.number self.now) }
        ensures working { IsWorking (F.kind_of field.now) (F.has_room field.now) (F.summed field.now) marks.new sums.new }
        ensures value { Answers (λ _. map (F.summed field.now) sums.new) result (axpy_of (F.kind_of field.now) (map (F.summed field.now) sums.old) (F.number c)
            (numbers_in F.number self.now)) }
    {
        match self {
            Form::Dense(other) => gain_each(field, sums, marks, c, other),
            Form::Sparse(packed) => packed.gain_to(field, sums, marks, c),
        }
    }
}
