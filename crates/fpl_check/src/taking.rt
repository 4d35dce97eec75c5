ghost use Rattle.std.specs.Prelude.{◌≡◌, ◌≤◌, ◌-◌, length, All, IfOk, IfSome, option_map};
ghost use Rattle.fpl_numbers.specs.Numbers.{IsElement, negative_of};
ghost use Rattle.fpl_numbers.specs.Results.{Gives, GivesBy};
ghost use Rattle.fpl_scalar.specs.Vectors.{axpy_of};
ghost use Rattle.fpl_rows.specs.Meaning.{AreRows, IsRowOf};
ghost use Rattle.fpl_log.specs.Plain.{IsTermOf, term_row, terms_off, scaled_by, conclude_of};

use fpl_echelon::gathered;
use fpl_log::{Term, Terms};
use fpl_rows::{Row, Rows, Work};
use fpl_scalar::{Fault, Field};
use std::alloc::Global;

/// Takes one term off.
fn take_term<F: Field>(
    field: &F,
    earlier: &Rows<F>,
    term: &Term,
    work: &mut Work<F>,
) -> Result<(), Fault>
    requires kind { work.old.kind ≡ F.kind_of field.now }
    requires earlier { AreRows (F.kind_of field.now) (length work.old.row) earlier.now }
    requires term { IsTermOf (F.kind_of field.now) (length earlier.now) term.now }
    ensures value { Gives result work.new.row (axpy_of (F.kind_of field.now) work.old.row (negative_of (F.kind_of field.now) term.now.factor) (term_row earlier.now term.now)) }
    ensures kind { work.new.kind ≡ F.kind_of field.now }
    ensures length { length work.new.row ≡ length work.old.row }
{
    match earlier.get(term.step as usize - 1) {
        None => Ok(()),
        Some(other) => {
            let factor = field.neg(field.of(&term.factor));
            match work.axpy(factor, other) {
                Ok(()) => Ok(()),
                Err(u) => Err(Fault::Unfit(u)),
            }
        }
    }
}

/// Takes the terms off, in order.
fn take_terms<F: Field>(
    field: &F,
    earlier: &Rows<F>,
    terms: &Terms,
    work: &mut Work<F>,
) -> Result<(), Fault>
    requires kind { work.old.kind ≡ F.kind_of field.now }
    requires earlier { AreRows (F.kind_of field.now) (length work.old.row) earlier.now }
    requires terms { All (IsTermOf (F.kind_of field.now) (length earlier.now)) terms.now }
    ensures value { Gives result work.new.row (terms_off (F.kind_of field.now) earlier.now work.old.row terms.now) }
    ensures kind { work.new.kind ≡ F.kind_of field.now }
    ensures length { length work.new.row ≡ length work.old.row }
{
    for i in 0..terms.len() {
        match terms.get(i) {
            None => {}
            Some(term) => match take_term(field, earlier, &term, work) {
                Ok(()) => {}
                Err(fault) => return Err(fault),
            },
        }
    }
    Ok(())
}

/// The row in work, times the scale where there is one.
fn scaled_row<F: Field>(
    alloc: Global,
    field: &F,
    scale: Option<F::Elem>,
    work: &Work<F>,
) -> Result<Row<F>, Fault>
    requires kind { work.now.kind ≡ F.kind_of field.now }
    requires scale { IfSome scale (λ k. IsElement (F.kind_of field.now) (F.number k)) }
    ensures value { GivesBy (λ row. row) result (scaled_by (F.kind_of field.now) (option_map F.number scale) work.now.row) }
    ensures row { IfOk result (λ row. IsRowOf (F.kind_of field.now) (length work.now.row) row) }
{
    // its clauses say that the numbers are elements
    let _count = work.len();
    match scale {
        None => match gathered(alloc, field, work) {
            Ok(row) => Ok(row),
            Err(fault) => Err(fault),
        },
        Some(k) => match work.gather(alloc, k) {
            Ok(scaled) => Ok(scaled),
            Err(fault) => Err(fault),
        },
    }
}

/// The conclusion of a step whose start row is in work, as `fpl_log::conclude` has it.
pub fn conclude_work<F: Field>(
    alloc: Global,
    field: &F,
    terms: &Terms,
    scale: Option<F::Elem>,
    earlier: &Rows<F>,
    work: &mut Work<F>,
) -> Result<Row<F>, Fault>
    requires kind { work.old.kind ≡ F.kind_of field.now }
    requires earlier { AreRows (F.kind_of field.now) (length work.old.row) earlier.now }
    requires terms { All (IsTermOf (F.kind_of field.now) (length earlier.now)) terms.now }
    requires scale { IfSome scale (λ k. IsElement (F.kind_of field.now) (F.number k)) }
    ensures value { GivesBy (λ row. row) result (conclude_of (F.kind_of field.now) earlier.now work.old.row terms.now (option_map F.number scale)) }
    ensures row { IfOk result (λ row. IsRowOf (F.kind_of field.now) (length work.old.row) row) }
    ensures kind { work.new.kind ≡ F.kind_of field.now }
    ensures length { length work.new.row ≡ length work.old.row }
{
    match take_terms(field, earlier, terms, work) {
        Err(fault) => Err(fault),
        Ok(()) => scaled_row(alloc, field, scale, work),
    }
}
