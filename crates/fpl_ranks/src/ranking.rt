//! The ranks of the weights.
ghost use Rattle.std.specs.Prelude.{◌≡◌, ◌<◌, ◌≤◌, ◌+◌, ◌-◌, ◌*◌, ◌^◌, ◌++◌, ◌∷◌, [], ℕ, List, Ok, length, map, slice_range, All, IfOk, OnOk, OnErr};
ghost use Rattle.fpl_numbers.specs.declared.number.Num.{Num};
ghost use Rattle.fpl_numbers.specs.Results.{GivesBy};
ghost use Rattle.fpl_rows.specs.Meaning.{IsRowOf, AreRows};
ghost use Rattle.fpl_model.specs.declared.presentation.Presentation.{Presentation};
ghost use Rattle.plain_tables.specs.Holds.{Holds};
ghost use Rattle.plain_spans.specs.Plain.{span_of};
ghost use Rattle.fpl_matrices.specs.Matrices.{IsAssignment};
ghost use Rattle.fpl_matrices.specs.Laws.{NoneBroken};
ghost use Rattle.fpl_ranks.specs.Ranks.{IsFor, AreBasisMatrices, IsOver, row_of, rank_at, ranks_of, AreRanks};

use crate::elements::basis_matrices;
use crate::leading::may_lead;
use crate::putting::closed_rows;
use fpl_matrices::{Assignment, Matrix};
use fpl_rows::{Row, Rows};
use fpl_scalar::{Fault, Residue};
use fpl_steps::Steps;
use fpl_table::Table;
use std::alloc::{AllocError, Global};
use std::sync::ledger::Ledger;

// The numbers of a matrix as one row.
fn row_of(alloc: Global, table: &Table<Residue>, x: &Matrix) -> Result<Row<Residue>, AllocError>
    requires { IsOver table.now.kind (length x.now.numbers) x.now }
    ensures value { IfOk result (λ row. row ≡ row_of x.now) }
    ensures row { IfOk result (λ row. IsRowOf table.now.kind (length x.now.numbers) row) }
{
    let numbers = x.copy(alloc)?.into_numbers();
    Ok(Row::from_vec(table.field(), numbers))
}

// The numbers of each matrix as one row.
fn rows_of(
    alloc: Global,
    table: &Table<Residue>,
    places: u32,
    matrices: &[Matrix],
) -> Result<Rows<Residue>, AllocError>
    requires { All (IsOver table.now.kind places) matrices.now }
    ensures value { IfOk result (λ rows. rows ≡ map row_of matrices.now) }
    ensures rows { IfOk result (λ rows. AreRows table.now.kind places rows) }
{
    let mut rows = Rows::new(alloc);
    for x in matrices {
        rows.push(row_of(alloc, table, x)?)?;
    }
    Ok(rows)
}

fn part(matrices: &[Matrix], from: u32, to: u32) -> &[Matrix]
    requires { (from ≤ to) × (to ≤ length matrices.now) }
    ensures { result.now ≡ slice_range matrices.now from to }
{
    &matrices[from as usize..to as usize]
}

// The rank of weight `w`.
fn rank<L: Ledger>(
    alloc: Global,
    table: &Table<Residue>,
    a: &Assignment,
    matrices: &[Matrix],
    w: u32,
    steps: &mut Steps<L>,
) -> Result<usize, Fault>
    requires whose { IsFor table.now a.now }
    requires weight { (1 ≤ w) × (w ≤ table.now.weight) }
    requires matrices { AreBasisMatrices a.now table.now (length table.now.basis) matrices.now }
    ensures value { GivesBy (λ (rank : ℕ). rank) result (rank_at a.now table.now w) }
    ensures rises { steps.old ≤ steps.new }
{
    let size = a.shape().size();
    let weight = part(matrices, table.through(w - 1), table.through(w));
    let rows = rows_of(alloc, table, size * size, weight)?;
    let mut flags = may_lead(alloc, table, a.shape(), &rows)?;
    match closed_rows(alloc, table, size * size, &rows, &mut flags, steps) {
        Ok(closed) => Ok(closed.len()),
        Err(fault) => Err(fault),
    }
}

/// The ranks of the weights of the table, from weight 1: the dimension of the span of the matrices of the basis
/// elements of the weight. Where the matrices respect the presentation, that is the dimension of the span of the
/// matrices of all expressions of the weight.
///
/// Over a prime each operation fits.
pub fn ranks<L: Ledger>(
    alloc: Global,
    table: &Table<Residue>,
    a: &Assignment,
    steps: &mut Steps<L>,
) -> Result<Vec<usize>, Fault>
    requires { IsFor table.now a.now }
    ensures value { GivesBy (λ ranks. ranks.items) result (ranks_of a.now table.now) }
    ensures means { (p : Presentation) → Holds p table.now → IsAssignment p a.now → NoneBroken p a.now →
        IfOk result (λ ranks. AreRanks p a.now table.now ranks.items) }
    ensures rises { steps.old ≤ steps.new }
{
    let matrices = basis_matrices(alloc, table, a)?;
    let mut ranks = Vec::new(alloc);
    for w in 0..table.weight() {
        match rank(alloc, table, a, matrices.as_slice(), w + 1, steps) {
            Ok(rank) => push(&mut ranks, rank)?,
            Err(fault) => return Err(fault),
        }
    }
    Ok(ranks)
}

fn push(ranks: &mut Vec<usize>, rank: usize) -> Result<(), AllocError>
    ensures { OnOk result (ranks.new.items ≡ ranks.old.items ++ rank ∷ []) }
{
    ranks.push(rank)?;
    Ok(())
}
