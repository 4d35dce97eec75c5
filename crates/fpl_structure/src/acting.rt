//! The basis elements with which brackets are taken.
ghost use Rattle.std.specs.Prelude.{◌≡◌, ◌≤◌, ◌-◌, length, nat_eq, if◌then◌else◌, IfOk};
ghost use Rattle.fpl_numbers.specs.Numbers.{residue};
ghost use Rattle.fpl_rows.specs.Meaning.{IsRowOf};
ghost use Rattle.plain_structure.specs.Plain.{acts, unit_row};

use fpl_rows::Row;
use fpl_scalar::{Field, Kind};
use fpl_table::{Symbol, Table};
use std::alloc::{AllocError, Global};

/// Whether brackets are taken with basis element `i`, which counts from 1: with each over
/// fractions, with the generators alone over a prime.
pub(crate) fn acts<F: Field>(table: &Table<F>, i: u32) -> bool
    requires { (1 ≤ i) × (i ≤ length table.now.basis) }
    ensures { result ≡ acts table.now (i - 1) }
{
    match table.field().kind() {
        Kind::Rational => true,
        Kind::Prime(_) => match table.basis(i).symbol {
            Symbol::Gen(_) => true,
            Symbol::Pair(_, _) => false,
        },
    }
}

/// 1 where the places are the same, and else 0.
fn unit_number<F: Field>(field: &F, i: u32, s: u32) -> F::Elem
    ensures { F.number result ≡ (if nat_eq i s then residue 1 else residue 0) }
{
    if i == s { field.one() } else { field.zero() }
}

/// 1 at position `i`, over the basis.
pub(crate) fn unit<F: Field>(alloc: Global, table: &Table<F>, i: u32) -> Result<Row<F>, AllocError>
    requires { (1 ≤ i) × (i ≤ length table.now.basis) }
    ensures value { IfOk result (λ row. row ≡ unit_row (length table.now.basis) (i - 1)) }
    ensures row { IfOk result (λ row. IsRowOf table.now.kind (length table.now.basis) row) }
{
    let n = table.basis_len();
    let mut numbers = Vec::with_capacity(alloc, n as usize)?;
    for s in 0..n {
        numbers.push(unit_number(table.field(), i - 1, s))?;
    }
    Ok(Row::from_vec(table.field(), numbers).pack(alloc, table.field()))
}
