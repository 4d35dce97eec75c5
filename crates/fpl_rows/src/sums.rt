ghost use Rattle.std.specs.Prelude.{◌≡◌, ◌≤◌, length, map};
ghost use Rattle.fpl_numbers.specs.Numbers.{IsElement};
ghost use Rattle.fpl_numbers.specs.Results.{Answers};
ghost use Rattle.fpl_scalar.specs.Vectors.{AreElements, axpy_of};
ghost use Rattle.fpl_rows.specs.Packing.{IsPacking, spread};
ghost use Rattle.fpl_rows.specs.Working.{IsWorking};

use crate::marks::Marks;
use fpl_scalar::{Field, Unfit};

/// Adds `c` times the numbers at some places, and marks these.
pub fn gain_at<F: Field>(
    field: &F,
    sums: &mut [F::Sum],
    marks: &mut Marks,
    c: F::Elem,
    places: &[u32],
    numbers: &[F::Elem],
) -> Result<(), Unfit>
    requires packing { IsPacking (length sums.old) places.now (length numbers.now) }
    requires working { IsWorking (F.kind_of field.now) (F.has_room field.now) (F.summed field.now) marks.old sums.old }
    requires factor { IsElement (F.kind_of field.now) (F.number c) }
    requires other { AreElements (F.kind_of field.now) (map F.number numbers.now) }
    ensures working { IsWorking (F.kind_of field.now) (F.has_room field.now) (F.summed field.now) marks.new sums.new }
    ensures value { Answers (λ _. map (F.summed field.now) sums.new) result (axpy_of (F.kind_of field.now) (map (F.summed field.now) sums.old) (F.number c)
        (spread (length sums.old) places.now (map F.number numbers.now))) }
{
    for k in 0..places.len() {
        let place = places[k] as usize;
        match field.fuse(sums[place], c, numbers[k]) {
            Ok(sum) => sums[place] = sum,
            Err(u) => return Err(u),
        }
        marks.mark(place);
    }
    Ok(())
}

/// Adds `c` times `other` to the places at the front, and marks those that it changes.
pub fn gain_each<F: Field>(
    field: &F,
    sums: &mut [F::Sum],
    marks: &mut Marks,
    c: F::Elem,
    other: &[F::Elem],
) -> Result<(), Unfit>
    requires at_most { length other.now ≤ length sums.old }
    requires working { IsWorking (F.kind_of field.now) (F.has_room field.now) (F.summed field.now) marks.old sums.old }
    requires factor { IsElement (F.kind_of field.now) (F.number c) }
    requires other { AreElements (F.kind_of field.now) (map F.number other.now) }
    ensures working { IsWorking (F.kind_of field.now) (F.has_room field.now) (F.summed field.now) marks.new sums.new }
    ensures value { Answers (λ _. map (F.summed field.now) sums.new) result (axpy_of (F.kind_of field.now) (map (F.summed field.now) sums.old) (F.number c)
        (map F.number other.now)) }
{
    for k in 0..other.len() {
        // a multiple of 0 adds nothing, and always fits
        if field.is_zero(other[k]) {
            continue;
        }
        match field.fuse(sums[k], c, other[k]) {
            Ok(sum) => sums[k] = sum,
            Err(u) => return Err(u),
        }
        marks.mark(k);
    }
    Ok(())
}
