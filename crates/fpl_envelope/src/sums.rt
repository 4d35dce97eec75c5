//! Sums of residues, which always fit.
ghost use Rattle.std.specs.Prelude.{◌≡◌, ◌<◌, length, IfOk};
ghost use Rattle.math_linear.specs.Vector.{vplus, scale, place};
ghost use Rattle.fpl_numbers.specs.Numbers.{IsElement};
ghost use Rattle.fpl_numbers.specs.Kinds.{field_of, number_of};
ghost use Rattle.fpl_scalar.specs.Vectors.{AreElements};
ghost use Rattle.fpl_rows.specs.Meaning.{vector_in, IsRowOf};
ghost use Rattle.fpl_envelope.specs.Action.{IsOfResidues};

use fpl_rows::{Row, Work};
use fpl_scalar::Field;
use std::alloc::{AllocError, Global};

/// The product.
pub(crate) fn times<F: Field>(field: &F, a: F::Elem, b: F::Elem) -> F::Elem
    requires kind { IsOfResidues (F.kind_of field.now) }
    requires left { IsElement (F.kind_of field.now) (F.number a) }
    requires right { IsElement (F.kind_of field.now) (F.number b) }
    ensures element { IsElement (F.kind_of field.now) (F.number result) }
    ensures value { number_of (F.kind_of field.now) (F.number result)
        ≡ (field_of (F.kind_of field.now)).times (number_of (F.kind_of field.now) (F.number a)) (number_of (F.kind_of field.now) (F.number b)) }
{
    match field.mul(a, b) {
        Ok(product) => product,
        Err(_) => unreachable!(),
    }
}

/// Adds `c` at place `s`, which counts from 0.
pub(crate) fn add_at<F: Field>(sum: &mut Work<F>, s: u64, c: F::Elem)
    requires kind { IsOfResidues sum.old.kind }
    requires place { s < length sum.old.row }
    requires added { IsElement sum.old.kind (F.number c) }
    ensures kind { sum.new.kind ≡ sum.old.kind }
    ensures row { IsRowOf sum.old.kind (length sum.old.row) sum.new.row }
    ensures value { vector_in sum.old.kind sum.new.row
        ≡ vplus (field_of sum.old.kind) (vector_in sum.old.kind sum.old.row) (scale (field_of sum.old.kind) (number_of sum.old.kind (F.number c)) (place
        (field_of sum.old.kind) s)) }
{
    let _count = sum.len();
    match sum.add_at(s as u32 + 1, c) {
        Ok(()) => {}
        Err(_) => unreachable!(),
    }
}

/// Adds `c` times a row of the same length.
pub(crate) fn add_row<F: Field>(sum: &mut Work<F>, c: F::Elem, row: &Row<F>)
    requires kind { IsOfResidues sum.old.kind }
    requires factor { IsElement sum.old.kind (F.number c) }
    requires row { IsRowOf sum.old.kind (length sum.old.row) row.now }
    ensures kind { sum.new.kind ≡ sum.old.kind }
    ensures row { IsRowOf sum.old.kind (length sum.old.row) sum.new.row }
    ensures value { vector_in sum.old.kind sum.new.row
        ≡ vplus (field_of sum.old.kind) (vector_in sum.old.kind sum.old.row) (scale (field_of sum.old.kind) (number_of sum.old.kind (F.number c))
        (vector_in sum.old.kind row.now)) }
{
    let _count = sum.len();
    match sum.axpy(c, row) {
        Ok(()) => {}
        Err(_) => unreachable!(),
    }
}

/// The sum, as a row.
pub(crate) fn gathered<F: Field>(
    alloc: Global,
    field: &F,
    sum: &Work<F>,
) -> Result<Row<F>, AllocError>
    requires { F.kind_of field.now ≡ sum.now.kind }
    ensures { IfOk result (λ row. row ≡ sum.now.row) }
{
    let _count = sum.len();
    match sum.gather(alloc, field.one()) {
        Ok(row) => Ok(row),
        Err(_) => Err(AllocError),
    }
}
