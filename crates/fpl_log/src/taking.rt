ghost use Rattle.std.specs.Prelude.{◌≡◌, ◌<◌, ◌≤◌, ◌-◌, length, All, IfOk, IfSome, option_map, Some};
ghost use Rattle.fpl_numbers.specs.Numbers.{IsElement, negative_of};
ghost use Rattle.fpl_numbers.specs.Results.{GivesBy};
ghost use Rattle.fpl_scalar.specs.Vectors.{AreElements, axpy_of};
ghost use Rattle.fpl_rows.specs.Meaning.{IsRowOf, AreRows, vector_in};
ghost use Rattle.fpl_log.specs.Plain.{IsTermOf, term_row, conclude_of, terms_off, scaled_by, conclusion_in};

use crate::{Term, Terms};
use fpl_rows::{Row, Rows};
use fpl_scalar::{Fault, Field};
use std::alloc::Global;

/// Takes one term off.
fn take_term<F: Field>(
    field: &F,
    earlier: &Rows<F>,
    term: &Term,
    mut row: Row<F>,
) -> Result<Row<F>, Fault>
    requires elements { AreElements (F.kind_of field.now) row }
    requires earlier { AreRows (F.kind_of field.now) (length row) earlier.now }
    requires term { IsTermOf (F.kind_of field.now) (length earlier.now) term.now }
    ensures value { GivesBy (λ left. left) result (axpy_of (F.kind_of field.now) row (negative_of (F.kind_of field.now) term.now.factor) (term_row earlier.now term.now)) }
    ensures row { IfOk result (λ left. IsRowOf (F.kind_of field.now) (length row) left) }
{
    match earlier.get(term.step as usize - 1) {
        None => Ok(row),
        Some(other) => {
            let factor = field.neg(field.of(&term.factor));
            match row.axpy(field, factor, other) {
                Ok(()) => Ok(row),
                Err(fault) => Err(fault),
            }
        }
    }
}

/// Takes the terms off, in order.
fn take_terms<F: Field>(
    field: &F,
    earlier: &Rows<F>,
    terms: &Terms,
    start: Row<F>,
) -> Result<Row<F>, Fault>
    requires elements { AreElements (F.kind_of field.now) start }
    requires earlier { AreRows (F.kind_of field.now) (length start) earlier.now }
    requires terms { All (IsTermOf (F.kind_of field.now) (length earlier.now)) terms.now }
    ensures value { GivesBy (λ left. left) result (terms_off (F.kind_of field.now) earlier.now start terms.now) }
    ensures row { IfOk result (λ left. IsRowOf (F.kind_of field.now) (length start) left) }
{
    let mut left = start;
    for i in 0..terms.len() {
        match terms.get(i) {
            None => {}
            Some(term) => match take_term(field, earlier, &term, left) {
                Ok(next) => left = next,
                Err(fault) => return Err(fault),
            },
        }
    }
    Ok(left)
}

/// The conclusion of a step: from its start row each term is taken off, in order, as often as its
/// factor says; then the rest is multiplied by the scale, which a Close step has not.
pub fn conclude<F: Field>(
    _alloc: Global,
    field: &F,
    start: Row<F>,
    terms: &Terms,
    scale: Option<F::Elem>,
    earlier: &Rows<F>,
) -> Result<Row<F>, Fault>
    requires elements { AreElements (F.kind_of field.now) start }
    requires earlier { AreRows (F.kind_of field.now) (length start) earlier.now }
    requires terms { All (IsTermOf (F.kind_of field.now) (length earlier.now)) terms.now }
    requires scale { IfSome scale (λ k. IsElement (F.kind_of field.now) (F.number k)) }
    ensures value { GivesBy (λ row. row) result (conclude_of (F.kind_of field.now) earlier.now start terms.now (option_map F.number scale)) }
    ensures row { IfOk result (λ row. IsRowOf (F.kind_of field.now) (length start) row) }
    ensures means { IfOk result (λ row. vector_in (F.kind_of field.now) row ≡ conclusion_in (F.kind_of field.now) earlier.now start terms.now (option_map F.number scale)) }
{
    match take_terms(field, earlier, terms, start) {
        Err(fault) => Err(fault),
        Ok(left) => scale_by(field, scale, left),
    }
}

/// Multiplies by the scale, where there is one.
fn scale_by<F: Field>(field: &F, scale: Option<F::Elem>, mut row: Row<F>) -> Result<Row<F>, Fault>
    requires elements { AreElements (F.kind_of field.now) row }
    requires scale { IfSome scale (λ k. IsElement (F.kind_of field.now) (F.number k)) }
    ensures value { GivesBy (λ left. left) result (scaled_by (F.kind_of field.now) (option_map F.number scale) row) }
    ensures row { IfOk result (λ left. IsRowOf (F.kind_of field.now) (length row) left) }
{
    match scale {
        None => Ok(row),
        Some(k) => match row.scale(field, k) {
            Ok(()) => Ok(row),
            Err(fault) => Err(fault),
        },
    }
}
