//! The cocycles that represent H2.
ghost use Rattle.std.specs.Prelude.{◌≡◌, ◌++◌, ◌∷◌, [], IfOk, OnOk};
ghost use Rattle.fpl_rows.specs.Meaning.{pivot_of};
ghost use Rattle.plain_cohomology.specs.Plain.{is_pivot, chosen};

use fpl_rows::{Row, Rows};
use fpl_scalar::Field;
use std::alloc::{AllocError, Global};

/// The place, from 0, of the lead of a row.
fn pivot<F: Field>(row: &Row<F>) -> u32
    ensures { result ≡ pivot_of row.now }
{
    row.lead().unwrap_or(1).saturating_sub(1)
}

/// Whether one of the rows has its pivot at place `q`, from 0.
fn is_pivot<F: Field>(rows: &Rows<F>, q: u32) -> bool
    ensures { result ≡ is_pivot rows.now q }
{
    for k in 0..rows.len() {
        if let Some(row) = rows.get(k) {
            if pivot(row) == q {
                return true;
            }
        }
    }
    false
}

/// Puts a cocycle last whose pivot is no pivot of the coboundaries.
fn push_chosen<F: Field>(
    alloc: Global,
    coboundaries: &Rows<F>,
    row: &Row<F>,
    rows: &mut Rows<F>,
) -> Result<(), AllocError>
    ensures { OnOk result (rows.new ≡ rows.old ++ chosen (row.now ∷ []) coboundaries.now) }
{
    if !is_pivot(coboundaries, pivot(row)) {
        rows.push(row.copy(alloc)?)?;
    }
    Ok(())
}

/// The cocycles whose pivot is no pivot of the coboundaries, both closed rows.
pub(crate) fn chosen<F: Field>(
    alloc: Global,
    cocycles: &Rows<F>,
    coboundaries: &Rows<F>,
) -> Result<Rows<F>, AllocError>
    ensures { IfOk result (λ rows. rows ≡ chosen cocycles.now coboundaries.now) }
{
    let mut rows = Rows::new(alloc);
    for k in 0..cocycles.len() {
        if let Some(row) = cocycles.get(k) {
            push_chosen(alloc, coboundaries, row, &mut rows)?;
        }
    }
    Ok(rows)
}
