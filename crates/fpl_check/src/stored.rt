ghost use Rattle.std.specs.Prelude.{◌≡◌, ◌+◌, ◌<◌, ◌^◌, ℕ, true, length, map, slice_get, slice_index_or, Some};
ghost use Rattle.fpl_numbers.specs.Numbers.{IsElement};
ghost use Rattle.fpl_scalar.specs.Vectors.{AreElements};
ghost use Rattle.fpl_rows.specs.Meaning.{IsRowOf};
ghost use Rattle.fpl_check.specs.Refusal.{GivesCheck};
ghost use Rattle.fpl_check.specs.Premises.{AreCoefficientsOf};
ghost use Rattle.fpl_check.specs.ClosedRows.{is_formed, test_forms, stored_row, test_same};
ghost use Rattle.fpl_check.specs.Filled.{least_of, symbol_of, number_if, cell_at, AreCells};

use crate::remainder::is_zero;
use crate::{CheckFault, Spot, Why};
use fpl_log::{ClosedList, ClosedRow};
use fpl_rows::Row;
use fpl_scalar::Field;

/// Whether the symbols of coefficients ascend up to at most `n`, and no number is 0.
fn is_formed(n: u32, row: &ClosedRow) -> bool
    ensures { result ≡ is_formed n 0 row.now }
{
    let mut after = 0;
    for i in 0..row.len() {
        match row.get(i) {
            None => {}
            Some(c) => {
                if c.symbol <= after || c.symbol > n || is_zero(&c.number) {
                    return false;
                }
                after = c.symbol;
            }
        }
    }
    true
}

/// Tests that each closed row tells its numbers by ascending symbols from 1 to `n`, none of them 0.
pub fn test_forms(n: u32, rows: &ClosedList) -> Result<(), CheckFault>
    requires { length rows.now < 2 ^ 32 }
    ensures { GivesCheck (λ done. done) result (test_forms n 1 rows.now) }
{
    for k in 0..rows.len() {
        match rows.get(k) {
            None => {}
            Some(row) => {
                if !is_formed(n, row) {
                    return Err(CheckFault::Bad {
                        spot: Spot::Closed(k as u32 + 1),
                        why: Why::RowForm,
                    });
                }
            }
        }
    }
    Ok(())
}

/// The symbol of coefficient `i`, counted from 0.
fn symbol_at(row: &ClosedRow, i: usize) -> Option<u32>
    ensures { result ≡ symbol_of (slice_get row.now i) }
{
    match row.get(i) {
        None => None,
        Some(c) => Some(c.symbol),
    }
}

/// The number of coefficient `i`, counted from 0, if it is that of symbol `s`; else 0.
fn number_at<F: Field>(field: &F, row: &ClosedRow, i: usize, s: u32) -> F::Elem
    requires { AreCoefficientsOf (F.kind_of field.now) row.now }
    ensures { F.number result ≡ number_if s (slice_get row.now i) }
{
    match row.get(i) {
        Some(c) if c.symbol == s => field.of(&c.number),
        _ => field.zero(),
    }
}

/// The lesser of two symbols.
fn least(first: Option<u32>, second: Option<u32>) -> Option<u32>
    ensures { result ≡ least_of first second }
{
    match (first, second) {
        (Some(s), Some(t)) => { if s <= t { Some(s) } else { Some(t) } }
        (Some(s), None) => Some(s),
        (None, other) => other,
    }
}

/// Whether coefficient `i`, counted from 0, is this number at this place.
fn is_cell<F: Field>(field: &F, row: &ClosedRow, i: usize, place: u32, number: F::Elem) -> bool
    requires coefficients { AreCoefficientsOf (F.kind_of field.now) row.now }
    requires number { IsElement (F.kind_of field.now) (F.number number) }
    requires fits { place + 1 < 2 ^ 32 }
    ensures { result ≡ true → slice_get row.now i ≡ Some (cell_at place (F.number number)) }
{
    match row.get(i) {
        None => false,
        Some(c) => c.symbol == place + 1 && field.same(field.of(&c.number), number),
    }
}

/// Whether the coefficients are these numbers at these places.
fn are_cells<F: Field>(field: &F, stored: &ClosedRow, places: &[u32], numbers: &[F::Elem]) -> bool
    requires coefficients { AreCoefficientsOf (F.kind_of field.now) stored.now }
    requires same { length places.now ≡ length numbers.now }
    requires elements { AreElements (F.kind_of field.now) (map F.number numbers.now) }
    requires fits { (i : ℕ) → i < length places.now → slice_index_or places.now i 0 + 1 < 2 ^ 32 }
    ensures count { result ≡ true → length stored.now ≡ length places.now }
    ensures cells { result ≡ true → AreCells stored.now places.now (map F.number numbers.now) (length places.now) }
{
    if stored.len() != places.len() {
        return false;
    }
    for i in 0..places.len() {
        if !is_cell(field, stored, i, places[i], numbers[i]) {
            return false;
        }
    }
    true
}

/// Whether a closed row tells what a packed row is, number by number. Where the row is not packed
/// the answer is no.
fn tells_same<F: Field>(field: &F, stored: &ClosedRow, concluded: &Row<F>) -> bool
    requires coefficients { AreCoefficientsOf (F.kind_of field.now) stored.now }
    requires elements { AreElements (F.kind_of field.now) concluded.now }
    ensures { result ≡ true → stored_row (length concluded.now) stored.now ≡ concluded.now }
{
    // its clause bounds the places
    let _count = concluded.len();
    match concluded.cells() {
        Some((places, numbers)) => are_cells(field, stored, places, numbers),
        None => false,
    }
}

/// Tests that closed row `k` is a conclusion.
pub fn test_same<F: Field>(
    field: &F,
    n: u32,
    k: u32,
    stored: &ClosedRow,
    concluded: &Row<F>,
) -> Result<(), CheckFault>
    requires formed { is_formed n 0 stored.now ≡ true }
    requires coefficients { AreCoefficientsOf (F.kind_of field.now) stored.now }
    requires concluded { IsRowOf (F.kind_of field.now) n concluded.now }
    ensures { GivesCheck (λ done. done) result (test_same k 1 (stored_row n stored.now) concluded.now) }
{
    if tells_same(field, stored, concluded) {
        return Ok(());
    }
    let mut i = 0;
    let mut after = 0;
    'symbols: loop {
        let next = symbol_at(stored, i);
        // where both are 0 they are the same
        match least(next, concluded.next(after)) {
            None => return Ok(()),
            Some(s) => {
                let left = number_at(field, stored, i, s);
                let right = concluded.at(s);
                if !field.same(left, right) {
                    return Err(CheckFault::Bad {
                        spot: Spot::Closed(k),
                        why: Why::Differs {
                            symbol: s,
                            stored: field.num(left),
                            concluded: field.num(right),
                        },
                    });
                }
                if next == Some(s) {
                    i += 1;
                }
                after = s;
            }
        }
    }
}
