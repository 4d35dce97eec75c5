ghost use Rattle.std.specs.Prelude.{◌≡◌, ◌≤◌, ◌<◌, ◌+◌, ◌-◌, ◌^◌, List, length, IfOk, IfSome, IfErr, OnOk, OnErr, IsTrue, ◌↔◌, None, slice_index_or, replicate, map, vec_len};
ghost use Rattle.fpl_numbers.specs.Numbers.{IsElement, residue};
ghost use Rattle.fpl_numbers.specs.Results.{Gives};
ghost use Rattle.fpl_scalar.specs.Vectors.{AreElements, axpy_of, scale_of};
ghost use Rattle.fpl_rows.specs.Positions.{lead_below, lead_of, next_of, added_at};
ghost use Rattle.fpl_rows.specs.Forms.{numbers_in};
ghost use Rattle.fpl_rows.specs.Packing.{IsPacking, spread};

use crate::form::Form;
use crate::packed::{Packed, zeros};
use crate::places;
use fpl_scalar::{Fault, Field};
use std::alloc::{AllocError, Global};
use std::marker::Model;

/// A vector, as its number at each position. Positions count from 1.
///
/// Where memory is wanting a row stays as it was. After an operation that doesn't fit it has its
/// length and no promised numbers.
#[derive(Drop)]
pub struct Row<F: Field> {
    // tells which element is 0
    field: F,
    form: Form<F>,
}

impl<F: Field> Model for Row<F> {
    ghost use Rattle.std.specs.Prelude.{List, length, ◌<◌, ◌^◌};
    ghost use Rattle.fpl_numbers.specs.declared.number.Num.{Num};
    ghost use Rattle.fpl_rows.specs.Forms.{numbers_in};

    ghost Value = { List Num };

    ghost view = { λ r. numbers_in F.number r.form };

    ghost invariant = { λ r. length (numbers_in F.number r.form) < 2 ^ 32 };
}

impl<F: Field> Row<F> {
    /// 0 at each of `n` positions.
    pub fn zero(alloc: Global, field: &F, n: u32) -> Result<Row<F>, AllocError>
        ensures value { IfOk result (λ r. r ≡ replicate n (residue 0)) }
        ensures elements { IfOk result (λ r. AreElements (F.kind_of field.now) r) }
    {
        let numbers = zeros(alloc, field, n)?;
        Ok(Row::from_vec(field, numbers))
    }

    /// The row with these numbers, the first at position 1.
    pub fn from_vec(field: &F, numbers: Vec<F::Elem>) -> Row<F>
        requires { vec_len numbers < 2 ^ 32 }
        ensures { result ≡ map F.number numbers.items }
    {
        Row {
            field: *field,
            form: Form::Dense(numbers),
        }
    }

    /// The row of `size` positions that has these numbers at these places, and 0 elsewhere, in
    /// the form that takes less memory. Places count from 0 and ascend: place k is position
    /// k + 1.
    pub fn spread(
        alloc: Global,
        field: &F,
        size: u32,
        places: &[u32],
        numbers: &[F::Elem],
    ) -> Result<Row<F>, AllocError>
        requires { IsPacking size places.now (length numbers.now) }
        ensures { IfOk result (λ r. r ≡ spread size places.now (map F.number numbers.now)) }
    {
        Ok(Row {
            field: *field,
            form: Form::spread(alloc, field, size, places, numbers)?,
        })
    }

    /// As `spread`, of lists that are given.
    pub fn spread_vec(
        alloc: Global,
        field: &F,
        size: u32,
        places: Vec<u32>,
        numbers: Vec<F::Elem>,
    ) -> Result<Row<F>, AllocError>
        requires { IsPacking size places.items (length numbers.items) }
        ensures { IfOk result (λ r. r ≡ spread size places.items (map F.number numbers.items)) }
    {
        Ok(Row {
            field: *field,
            form: Form::spread_vec(alloc, field, size, places, numbers)?,
        })
    }

    /// The row of `size` positions that has these numbers at these places, and 0 elsewhere, packed.
    pub(crate) fn packed_of(field: &F, size: u32, places: Vec<u32>, numbers: Vec<F::Elem>) -> Row<F>
        requires { IsPacking size places.items (length numbers.items) }
        ensures { result ≡ spread size places.items (map F.number numbers.items) }
    {
        Row {
            field: *field,
            form: Form::Sparse(Packed::of_parts(size, places, numbers)),
        }
    }

    /// Where the row is packed: some of its places, ascending, and the numbers at them. All others
    /// are 0.
    pub fn cells(&self) -> Option<(&[u32], &[F::Elem])>
        ensures packing { IfSome result (λ c. IsPacking (length self.now) c.0.now (length c.1.now)) }
        ensures value { IfSome result (λ c. spread (length self.now) c.0.now (map F.number c.1.now) ≡ self.now) }
    {
        match &self.form {
            Form::Dense(_) => None,
            Form::Sparse(packed) => Some(packed.cells()),
        }
    }

    /// How the row keeps its numbers.
    pub(crate) fn form(&self) -> &Form<F>
        ensures { numbers_in F.number result.now ≡ self.now }
    {
        &self.form
    }

    pub fn copy(&self, alloc: Global) -> Result<Row<F>, AllocError>
        ensures { IfOk result (λ r. r ≡ self.now) }
    {
        let form = match &self.form {
            Form::Dense(numbers) => Form::Dense(Vec::from_slice(alloc, numbers)?),
            Form::Sparse(packed) => Form::Sparse(packed.copy(alloc)?),
        };
        Ok(Row {
            field: self.field,
            form,
        })
    }

    pub fn len(&self) -> u32
        ensures value { result ≡ length self.now }
        ensures range { length self.now < 2 ^ 32 }
    {
        match &self.form {
            Form::Dense(numbers) => numbers.len() as u32,
            Form::Sparse(packed) => packed.len(),
        }
    }

    /// The same row, in the form that takes less memory: as it is where its numbers are seldom
    /// 0, or where memory is wanting. A row that is done with is best packed; one that is added
    /// to is unpacked first.
    pub fn pack(self, alloc: Global, field: &F) -> Row<F>
        requires { AreElements (F.kind_of field.now) self }
        ensures { result ≡ self }
    {
        let Row { field: own, form } = self;
        Row {
            field: own,
            form: form.packed(alloc, field),
        }
    }

    /// The number at position `s`.
    pub fn at(&self, s: u32) -> F::Elem
        requires { (1 ≤ s) × (s ≤ length self.now) }
        ensures { F.number result ≡ slice_index_or self.now (s - 1) (residue 0) }
    {
        match &self.form {
            Form::Dense(numbers) => numbers[s as usize - 1],
            Form::Sparse(packed) => packed.at(&self.field, s - 1),
        }
    }

    /// The greatest position whose number is not 0.
    pub fn lead(&self) -> Option<u32>
        ensures { result ≡ lead_of self.now }
    {
        self.lead_within(self.len())
    }

    /// The greatest position of at most `most` whose number is not 0.
    pub fn lead_within(&self, most: u32) -> Option<u32>
        requires { most ≤ length self.now }
        ensures { result ≡ lead_below self.now most }
    {
        match &self.form {
            Form::Dense(numbers) => {
                match places::lead_within(&self.field, numbers, most as usize) {
                    Some(s) => Some(s as u32),
                    None => None,
                }
            }
            Form::Sparse(packed) => packed.lead_within(&self.field, most),
        }
    }

    /// The least position above `after` whose number is not 0.
    pub fn next(&self, after: u32) -> Option<u32>
        ensures { result ≡ next_of self.now after }
    {
        match &self.form {
            Form::Dense(numbers) => match places::next(&self.field, numbers, after as usize) {
                Some(s) => Some(s as u32),
                None => None,
            },
            Form::Sparse(packed) => packed.next(&self.field, after),
        }
    }

    pub fn is_zero(&self) -> bool
        ensures { IsTrue result ↔ (lead_of self.now ≡ None) }
    {
        self.lead().is_none()
    }

    /// Adds `c` at position `s`.
    pub fn add_at(&mut self, field: &F, s: u32, c: F::Elem) -> Result<(), Fault>
        requires place { (1 ≤ s) × (s ≤ length self.old) }
        requires row { AreElements (F.kind_of field.now) self.old }
        requires added { IsElement (F.kind_of field.now) (F.number c) }
        ensures value { Gives result self.new (added_at (F.kind_of field.now) self.old (s - 1) (F.number c)) }
        ensures elements { OnOk result (AreElements (F.kind_of field.now) self.new) }
        ensures length { length self.new ≡ length self.old }
        ensures memory { IfErr result (λ fault. fault ≡ Fault.NoMemory → self.new ≡ self.old) }
    {
        let place = s as usize - 1;
        let done = match &mut self.form {
            Form::Dense(numbers) => places::add_at(field, numbers, place, c),
            Form::Sparse(packed) => {
                let mut numbers = packed.unpacked(field)?;
                let done = places::add_at(field, &mut numbers, place, c);
                self.form = Form::Dense(numbers);
                done
            }
        };
        match done {
            Ok(()) => Ok(()),
            Err(u) => Err(Fault::Unfit(u)),
        }
    }

    /// Adds `c` times `other`, by ascending position, product before sum.
    /// Positions past the end of `other` count as 0.
    pub fn axpy(&mut self, field: &F, c: F::Elem, other: &Row<F>) -> Result<(), Fault>
        requires at_most { length other.now ≤ length self.old }
        requires row { AreElements (F.kind_of field.now) self.old }
        requires factor { IsElement (F.kind_of field.now) (F.number c) }
        requires other { AreElements (F.kind_of field.now) other.now }
        ensures value { Gives result self.new (axpy_of (F.kind_of field.now) self.old (F.number c) other.now) }
        ensures elements { OnOk result (AreElements (F.kind_of field.now) self.new) }
        ensures length { length self.new ≡ length self.old }
        ensures memory { IfErr result (λ fault. fault ≡ Fault.NoMemory → self.new ≡ self.old) }
    {
        let done = match &mut self.form {
            Form::Dense(numbers) => other.form.axpy_to(field, numbers, c),
            Form::Sparse(packed) => {
                let mut numbers = packed.unpacked(field)?;
                let done = other.form.axpy_to(field, &mut numbers, c);
                self.form = Form::Dense(numbers);
                done
            }
        };
        match done {
            Ok(()) => Ok(()),
            Err(u) => Err(Fault::Unfit(u)),
        }
    }

    /// Multiplies the number at each position by `c`, by ascending position.
    pub fn scale(&mut self, field: &F, c: F::Elem) -> Result<(), Fault>
        requires row { AreElements (F.kind_of field.now) self.old }
        requires factor { IsElement (F.kind_of field.now) (F.number c) }
        ensures value { Gives result self.new (scale_of (F.kind_of field.now) (F.number c) self.old) }
        ensures elements { OnOk result (AreElements (F.kind_of field.now) self.new) }
        ensures length { length self.new ≡ length self.old }
        ensures memory { IfErr result (λ fault. fault ≡ Fault.NoMemory → self.new ≡ self.old) }
    {
        let done = match &mut self.form {
            Form::Dense(numbers) => places::scale(field, numbers, c),
            Form::Sparse(packed) => {
                let mut numbers = packed.unpacked(field)?;
                let done = places::scale(field, &mut numbers, c);
                self.form = Form::Dense(numbers);
                done
            }
        };
        match done {
            Ok(()) => Ok(()),
            Err(u) => Err(Fault::Unfit(u)),
        }
    }
}
