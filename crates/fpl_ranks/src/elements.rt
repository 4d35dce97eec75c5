//! The matrices of the basis elements.
ghost use Rattle.std.specs.Prelude.{◌≡◌, ◌<◌, ◌≤◌, ◌-◌, length, IfOk};
ghost use Rattle.fpl_ranks.specs.Ranks.{IsFor, basis_matrix, AreBasisMatrices};

use fpl_matrices::{Assignment, Matrix, bracket};
use fpl_scalar::Residue;
use fpl_table::{Symbol, Table};
use sqlite_items::Items;
use std::alloc::{AllocError, Global};

// The matrix of basis element `i`, from those of the basis elements before it.
fn basis_matrix(
    alloc: Global,
    table: &Table<Residue>,
    a: &Assignment,
    before: &[Matrix],
    i: u32,
) -> Result<Matrix, AllocError>
    requires whose { IsFor table.now a.now }
    requires within { (1 ≤ i) × (i ≤ length table.now.basis) }
    requires before { AreBasisMatrices a.now table.now (i - 1) before.now }
    ensures { IfOk result (λ x. x ≡ basis_matrix a.now table.now (i - 1)) }
{
    match table.basis(i).symbol {
        Symbol::Gen(g) => a.matrix(g).copy(alloc),
        Symbol::Pair(j, k) => bracket(alloc, &before[j as usize - 1], &before[k as usize - 1]),
    }
}

/// The matrices of the basis elements, in order: a generator's is given, and a bracket's is the bracket of two
/// that stand before it.
pub(crate) fn basis_matrices(
    alloc: Global,
    table: &Table<Residue>,
    a: &Assignment,
) -> Result<Items<Matrix>, AllocError>
    requires { IsFor table.now a.now }
    ensures { IfOk result (λ xs. AreBasisMatrices a.now table.now (length table.now.basis) xs) }
{
    let mut matrices = Items::new(alloc);
    for i in 0..table.basis_len() {
        let x = basis_matrix(alloc, table, a, matrices.as_slice(), i + 1)?;
        matrices.push(x)?;
    }
    Ok(matrices)
}
