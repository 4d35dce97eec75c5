ghost use Rattle.std.specs.Prelude.{ℕ, ◌≡◌, ◌<◌, ◌-◌, ◌^◌, ◌++◌, length, map, slice_index_or, All, IfOk, OnOk, Some};
ghost use Rattle.fpl_numbers.specs.Numbers.{IsElement};
ghost use Rattle.fpl_scalar.specs.Vectors.{AreElements};
ghost use Rattle.fpl_rows.specs.Cells.{by_cell};
ghost use Rattle.fpl_complete.specs.Cells.{coefficient_at, cell_if};
ghost use Rattle.plain_weights.specs.Section.{coefficients_from, closed_list};

use fpl_log::{ClosedList, ClosedRow, Coefficient, Section, StepList};
use fpl_rows::{Row, Rows};
use fpl_scalar::Field;
use std::alloc::{AllocError, Global};

/// The numbers of a row that are not 0, each with its symbol, from one position to the next.
fn coefficients_by_position<F: Field>(
    alloc: Global,
    field: &F,
    row: &Row<F>,
) -> Result<ClosedRow, AllocError>
    requires { AreElements (F.kind_of field.now) row.now }
    ensures { IfOk result (λ kept. kept ≡ coefficients_from 1 row.now) }
{
    let mut kept = ClosedRow::new(alloc);
    let mut after = 0;
    while let Some(symbol) = row.next(after) {
        let number = field.num(row.at(symbol));
        kept.push(Coefficient { symbol, number })?;
        after = symbol;
    }
    Ok(kept)
}

/// Keeps the number at a place, which counts from 0, with its symbol, where it is not 0.
fn put_cell<F: Field>(
    field: &F,
    place: u32,
    number: F::Elem,
    kept: &mut ClosedRow,
) -> Result<(), AllocError>
    requires below { place < 2 ^ 32 - 1 }
    requires element { IsElement (F.kind_of field.now) (F.number number) }
    ensures { OnOk result (kept.new ≡ kept.old ++ cell_if place (F.number number)) }
{
    if field.is_zero(number) {
        return Ok(());
    }
    let symbol = place + 1;
    let number = field.num(number);
    kept.push(Coefficient { symbol, number })
}

/// The numbers at some places that are not 0, each with its symbol. Places count from 0.
fn coefficients_at<F: Field>(
    alloc: Global,
    field: &F,
    places: &[u32],
    numbers: &[F::Elem],
) -> Result<ClosedRow, AllocError>
    requires same { length places.now ≡ length numbers.now }
    requires below { (k : ℕ) → k < length places.now → slice_index_or places.now k 0 < 2 ^ 32 - 1 }
    requires elements { AreElements (F.kind_of field.now) (map F.number numbers.now) }
    ensures { IfOk result (λ kept. kept ≡ by_cell coefficient_at 0 places.now (map F.number numbers.now)) }
{
    let mut kept = ClosedRow::with_capacity(alloc, places.len())?;
    for k in 0..places.len() {
        match put_cell(field, places[k], numbers[k], &mut kept) {
            Ok(()) => {}
            Err(refusal) => return Err(refusal),
        }
    }
    Ok(kept)
}

/// The numbers of a row that are not 0, each with its symbol.
fn coefficients_of<F: Field>(
    alloc: Global,
    field: &F,
    row: &Row<F>,
) -> Result<ClosedRow, AllocError>
    requires { AreElements (F.kind_of field.now) row.now }
    ensures { IfOk result (λ kept. kept ≡ coefficients_from 1 row.now) }
{
    // its clause bounds the places
    let _count = row.len();
    match row.cells() {
        Some((places, numbers)) => coefficients_at(alloc, field, places, numbers),
        None => coefficients_by_position(alloc, field, row),
    }
}

/// Closed rows, each as its coefficients.
fn list_of<F: Field>(alloc: Global, field: &F, rows: &Rows<F>) -> Result<ClosedList, AllocError>
    requires { All (AreElements (F.kind_of field.now)) rows.now }
    ensures { IfOk result (λ list. list ≡ closed_list rows.now) }
{
    let mut list = ClosedList::with_capacity(alloc, rows.len())?;
    for i in 0..rows.len() {
        match rows.get(i) {
            None => {}
            Some(row) => list.push(coefficients_of(alloc, field, row)?)?,
        }
    }
    Ok(list)
}

/// The section of a weight: of `origins` origins these steps were recorded, and made these rows.
pub fn section_of<F: Field>(
    alloc: Global,
    field: &F,
    weight: u32,
    origins: u64,
    steps: StepList,
    rows: &Rows<F>,
) -> Result<Section, AllocError>
    requires { All (AreElements (F.kind_of field.now)) rows.now }
    ensures { IfOk result (λ s. s ≡ record { weight = weight; origins = Some origins; steps = steps; closed = closed_list rows.now }) }
{
    let closed = list_of(alloc, field, rows)?;
    Ok(Section {
        weight,
        origins: Some(origins),
        steps,
        closed,
    })
}
