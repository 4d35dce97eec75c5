//! Brackets of basis elements, as forms over the basis.
ghost use Rattle.std.specs.Prelude.{◌≡◌, ◌≤◌, ◌<◌, ◌+◌, length, map, get_or, All, IfOk, OnOk};
ghost use Rattle.math_algebra.specs.Table.{IsRegular};
ghost use Rattle.fpl_table.specs.Plain.{plain_basis, table_in};
ghost use Rattle.fpl_forms.specs.Ledgers.{Grows};
ghost use Rattle.fpl_forms.specs.Forms.{IsWork};
ghost use Rattle.fpl_forms.specs.Combining.{AreRows, lefts, pair_of, atom_of};
ghost use Rattle.fpl_table_facts.specs.Known.{IsKnown, IsFormOf};

use crate::known::{Known, symbol_form};
use fpl_facts::{square, swapped};
use fpl_forms::{Fact, Ledger, Term};
use fpl_model::{Expr, Parity};
use fpl_table::Symbol;
use std::alloc::{AllocError, Global};

/// The bracket of a regular pair.
fn regular<'a>(
    alloc: Global,
    ledger: &Ledger<'a>,
    known: &Known,
    i: u32,
    j: u32,
) -> Result<Fact, AllocError>
    requires known { IsKnown ledger.now known.now }
    requires first { i < length known.now.basis.items }
    requires second { j < length known.now.basis.items }
    requires regular { IsRegular (table_in known.now.table.kind known.now.table) i j }
    requires weight { (plain_basis known.now.table i).weight + (plain_basis known.now.table j).weight ≤ known.now.table.weight }
    ensures { IfOk result (λ f. IsFormOf ledger.now known.now.basis.items (Expr.Br (get_or known.now.basis.items i Expr.Zero) (get_or known.now.basis.items j Expr.Zero)) f) }
{
    let left = known.table.basis(i + 1).weight;
    let right = known.table.basis(j + 1).weight;
    symbol_form(
        alloc,
        ledger,
        known,
        left + right,
        Symbol::Pair(i + 1, j + 1),
    )
}

/// The bracket of a basis element with an earlier one.
fn exchanged<'a>(
    alloc: Global,
    ledger: &mut Ledger<'a>,
    known: &Known,
    i: u32,
    j: u32,
) -> Result<Fact, AllocError>
    requires known { IsKnown ledger.old known.now }
    requires first { i < length known.now.basis.items }
    requires second { j < i }
    requires weight { (plain_basis known.now.table i).weight + (plain_basis known.now.table j).weight ≤ known.now.table.weight }
    ensures grows { OnOk result (Grows ledger.old ledger.new) }
    ensures form { IfOk result (λ f. IsFormOf ledger.new known.now.basis.items (Expr.Br (get_or known.now.basis.items i Expr.Zero) (get_or known.now.basis.items j Expr.Zero)) f) }
{
    ledger.sound();
    let turned = regular(alloc, ledger, known, j, i)?;
    let parities = (
        known.table.basis(i + 1).parity,
        known.table.basis(j + 1).parity,
    );
    let left = &known.basis[i as usize];
    let right = &known.basis[j as usize];
    let fact = swapped(alloc, ledger, &known.basis, parities, left, right, &turned)?;
    Ok(fact)
}

/// The bracket of a basis element with itself.
fn itself<'a>(
    alloc: Global,
    ledger: &mut Ledger<'a>,
    known: &Known,
    i: u32,
) -> Result<Fact, AllocError>
    requires known { IsKnown ledger.old known.now }
    requires within { i < length known.now.basis.items }
    requires weight { (plain_basis known.now.table i).weight + (plain_basis known.now.table i).weight ≤ known.now.table.weight }
    ensures grows { OnOk result (Grows ledger.old ledger.new) }
    ensures form { IfOk result (λ f. IsFormOf ledger.new known.now.basis.items (Expr.Br (get_or known.now.basis.items i Expr.Zero) (get_or known.now.basis.items i Expr.Zero)) f) }
{
    match known.table.basis(i + 1).parity {
        Parity::Odd => regular(alloc, ledger, known, i, i),
        Parity::Even => square(alloc, ledger, &known.basis, &known.basis[i as usize]),
    }
}

/// The bracket of two basis elements, which count from 0, where their weights sum to one of the table's weights.
pub(crate) fn product<'a>(
    alloc: Global,
    ledger: &mut Ledger<'a>,
    known: &Known,
    i: u32,
    j: u32,
) -> Result<Fact, AllocError>
    requires known { IsKnown ledger.old known.now }
    requires first { i < length known.now.basis.items }
    requires second { j < length known.now.basis.items }
    requires weight { (plain_basis known.now.table i).weight + (plain_basis known.now.table j).weight ≤ known.now.table.weight }
    ensures grows { OnOk result (Grows ledger.old ledger.new) }
    ensures form { IfOk result (λ f. IsFormOf ledger.new known.now.basis.items (Expr.Br (get_or known.now.basis.items i Expr.Zero) (get_or known.now.basis.items j Expr.Zero)) f) }
{
    if i < j {
        return regular(alloc, ledger, known, i, j);
    }
    if j < i {
        return exchanged(alloc, ledger, known, i, j);
    }
    itself(alloc, ledger, known, i)
}

/// The brackets of the atom of a term with those of others.
fn products_with<'a>(
    alloc: Global,
    ledger: &mut Ledger<'a>,
    known: &Known,
    s: Term,
    second: &[Term],
) -> Result<Vec<Fact>, AllocError>
    requires known { IsKnown ledger.old known.now }
    requires first { s.atom < length known.now.basis.items }
    requires second { All (λ t. t.atom < length known.now.basis.items) second.now }
    requires weights { All (λ t. (plain_basis known.now.table s.atom).weight + (plain_basis known.now.table t.atom).weight ≤ known.now.table.weight) second.now }
    ensures grows { OnOk result (Grows ledger.old ledger.new) }
    ensures works { IfOk result (λ fs. All (IsWork ledger.new known.now.basis.items) fs.items) }
    ensures lefts { IfOk result (λ fs. lefts ledger.new fs.items ≡ map (pair_of known.now.basis.items (atom_of known.now.basis.items s)) second.now) }
{
    let mut all = Vec::new(alloc);
    for i in 0..second.len() {
        let t = second[i];
        let next = product(alloc, ledger, known, s.atom, t.atom)?;
        all.push(next)?;
    }
    Ok(all)
}

/// The brackets of the atoms of some terms with those of others, row by row.
pub(crate) fn products<'a>(
    alloc: Global,
    ledger: &mut Ledger<'a>,
    known: &Known,
    first: &[Term],
    second: &[Term],
) -> Result<Vec<Vec<Fact>>, AllocError>
    requires known { IsKnown ledger.old known.now }
    requires first { All (λ t. t.atom < length known.now.basis.items) first.now }
    requires second { All (λ t. t.atom < length known.now.basis.items) second.now }
    requires weights { All (λ s. All (λ t. (plain_basis known.now.table s.atom).weight + (plain_basis known.now.table t.atom).weight ≤ known.now.table.weight) second.now) first.now }
    ensures grows { OnOk result (Grows ledger.old ledger.new) }
    ensures rows { IfOk result (λ rows. AreRows ledger.new known.now.basis.items known.now.basis.items first.now second.now (map (λ r. r.items) rows.items)) }
{
    let mut all = Vec::new(alloc);
    for i in 0..first.len() {
        let s = first[i];
        let row = products_with(alloc, ledger, known, s, second)?;
        all.push(row)?;
    }
    Ok(all)
}
