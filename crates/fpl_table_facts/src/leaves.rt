//! Outermost brackets of basis elements, over the symbols of the weight after a table's.
ghost use Rattle.std.specs.Prelude.{◌≡◌, ◌<◌, ◌+◌, suc, length, map, get_or, All, IfOk, OnOk};
ghost use Rattle.math_linear.specs.Vector.{place};
ghost use Rattle.math_algebra.specs.Symbols.{place_of};
ghost use Rattle.math_algebra.specs.Table.{IsRegular};
ghost use Rattle.math_algebra.specs.Tree.{even};
ghost use Rattle.fpl_numbers.specs.Kinds.{field_of};
ghost use Rattle.fpl_table.specs.Plain.{plain_basis, symbol_in, symbols_in, table_in};
ghost use Rattle.fpl_table.specs.Shape.{IsNumbered};
ghost use Rattle.fpl_forms.specs.Ledgers.{Grows};
ghost use Rattle.fpl_forms.specs.Forms.{IsWork};
ghost use Rattle.fpl_forms.specs.Combining.{lefts, pair_of, atom_of};
ghost use Rattle.fpl_table_facts.specs.Known.{IsKnown, IsNext, symbol_expr};
ghost use Rattle.fpl_table_facts.specs.Rows.{IsRow, AreLeaves, AreLeavesOf, pair_leaf};

use crate::known::{Known, Next};
use fpl_facts::{square, swapped};
use fpl_forms::{Fact, Ledger, Term};
use fpl_model::{Expr, Parity};
use fpl_table::Symbol;
use std::alloc::{AllocError, Global};

/// The place of a symbol of the next weight, counted from 0.
fn place_in(next: &Next, x: Symbol) -> u32
    requires numbered { IsNumbered x }
    requires listed { place_of (symbol_in x) next.now.symbols.symbols < length next.now.symbols.symbols }
    ensures { result ≡ place_of (symbol_in x) next.now.symbols.symbols }
{
    match next.symbols.number(x) {
        Some(s) => s - 1,
        None => unreachable!(),
    }
}

/// A symbol, once.
pub(crate) fn symbol_once<'a>(
    ledger: &mut Ledger<'a>,
    known: &Known,
    next: &Next,
    x: Symbol,
) -> Result<Fact, AllocError>
    requires next { IsNext ledger.old known.now next.now }
    requires numbered { IsNumbered x }
    requires listed { place_of (symbol_in x) (symbols_in known.now.table) < length (symbols_in known.now.table) }
    ensures grows { OnOk result (Grows ledger.old ledger.new) }
    ensures row { IfOk result (λ f. IsRow ledger.new next.now (symbol_expr known.now.basis.items (symbol_in x))
        (place (field_of ledger.new.presentation.field) (place_of (symbol_in x) (symbols_in known.now.table))) f) }
{
    let _ = known;
    let s = place_in(next, x);
    let row = ledger.unit(&next.trees, s)?;
    ledger.sound();
    Ok(row)
}

/// The outermost bracket of a regular pair.
fn regular_leaf<'a>(
    ledger: &mut Ledger<'a>,
    known: &Known,
    next: &Next,
    i: u32,
    j: u32,
) -> Result<Fact, AllocError>
    requires known { IsKnown ledger.old known.now }
    requires next { IsNext ledger.old known.now next.now }
    requires first { i < length known.now.basis.items }
    requires second { j < length known.now.basis.items }
    requires regular { IsRegular (table_in known.now.table.kind known.now.table) i j }
    requires weight { (plain_basis known.now.table i).weight + (plain_basis known.now.table j).weight ≡ suc known.now.table.weight }
    ensures grows { OnOk result (Grows ledger.old ledger.new) }
    ensures row { IfOk result (λ f. IsRow ledger.new next.now (Expr.Br (get_or known.now.basis.items i Expr.Zero) (get_or known.now.basis.items j Expr.Zero))
        (pair_leaf ledger.new.presentation known.now.table i j) f) }
{
    let _ = &known.table;
    let row = symbol_once(ledger, known, next, Symbol::Pair(i + 1, j + 1))?;
    Ok(row)
}

/// The outermost bracket of a basis element with an earlier one.
fn exchanged_leaf<'a>(
    alloc: Global,
    ledger: &mut Ledger<'a>,
    known: &Known,
    next: &Next,
    i: u32,
    j: u32,
) -> Result<Fact, AllocError>
    requires known { IsKnown ledger.old known.now }
    requires next { IsNext ledger.old known.now next.now }
    requires first { i < length known.now.basis.items }
    requires second { j < i }
    requires weight { (plain_basis known.now.table i).weight + (plain_basis known.now.table j).weight ≡ suc known.now.table.weight }
    ensures grows { OnOk result (Grows ledger.old ledger.new) }
    ensures row { IfOk result (λ f. IsRow ledger.new next.now (Expr.Br (get_or known.now.basis.items i Expr.Zero) (get_or known.now.basis.items j Expr.Zero))
        (pair_leaf ledger.new.presentation known.now.table i j) f) }
{
    let turned = regular_leaf(ledger, known, next, j, i)?;
    let parities = (
        known.table.basis(i + 1).parity,
        known.table.basis(j + 1).parity,
    );
    let left = &known.basis[i as usize];
    let right = &known.basis[j as usize];
    let row = swapped(alloc, ledger, &next.trees, parities, left, right, &turned)?;
    ledger.sound();
    Ok(row)
}

/// The outermost bracket of an even basis element with itself.
fn even_leaf<'a>(
    alloc: Global,
    ledger: &mut Ledger<'a>,
    known: &Known,
    next: &Next,
    i: u32,
) -> Result<Fact, AllocError>
    requires known { IsKnown ledger.old known.now }
    requires next { IsNext ledger.old known.now next.now }
    requires within { i < length known.now.basis.items }
    requires even { (plain_basis known.now.table i).parity ≡ even }
    requires weight { (plain_basis known.now.table i).weight + (plain_basis known.now.table i).weight ≡ suc known.now.table.weight }
    ensures grows { OnOk result (Grows ledger.old ledger.new) }
    ensures row { IfOk result (λ f. IsRow ledger.new next.now (Expr.Br (get_or known.now.basis.items i Expr.Zero) (get_or known.now.basis.items i Expr.Zero))
        (pair_leaf ledger.new.presentation known.now.table i i) f) }
{
    let row = square(alloc, ledger, &next.trees, &known.basis[i as usize])?;
    ledger.sound();
    Ok(row)
}

/// The bracket of two basis elements, which count from 0, whose weights sum to the weight after the table's.
pub(crate) fn leaf<'a>(
    alloc: Global,
    ledger: &mut Ledger<'a>,
    known: &Known,
    next: &Next,
    i: u32,
    j: u32,
) -> Result<Fact, AllocError>
    requires known { IsKnown ledger.old known.now }
    requires next { IsNext ledger.old known.now next.now }
    requires first { i < length known.now.basis.items }
    requires second { j < length known.now.basis.items }
    requires weight { (plain_basis known.now.table i).weight + (plain_basis known.now.table j).weight ≡ suc known.now.table.weight }
    ensures grows { OnOk result (Grows ledger.old ledger.new) }
    ensures row { IfOk result (λ f. IsRow ledger.new next.now (Expr.Br (get_or known.now.basis.items i Expr.Zero) (get_or known.now.basis.items j Expr.Zero))
        (pair_leaf ledger.new.presentation known.now.table i j) f) }
{
    if i < j {
        return regular_leaf(ledger, known, next, i, j);
    }
    if j < i {
        return exchanged_leaf(alloc, ledger, known, next, i, j);
    }
    match known.table.basis(i + 1).parity {
        Parity::Odd => regular_leaf(ledger, known, next, i, j),
        Parity::Even => even_leaf(alloc, ledger, known, next, i),
    }
}

/// The outermost brackets of the atom of a term with those of others.
fn leaves_with<'a>(
    alloc: Global,
    ledger: &mut Ledger<'a>,
    known: &Known,
    next: &Next,
    s: Term,
    second: &[Term],
) -> Result<Vec<Fact>, AllocError>
    requires known { IsKnown ledger.old known.now }
    requires next { IsNext ledger.old known.now next.now }
    requires first { s.atom < length known.now.basis.items }
    requires second { All (λ t. t.atom < length known.now.basis.items) second.now }
    requires weights { All (λ t. (plain_basis known.now.table s.atom).weight + (plain_basis known.now.table t.atom).weight ≡ suc known.now.table.weight) second.now }
    ensures grows { OnOk result (Grows ledger.old ledger.new) }
    ensures leaves { IfOk result (λ fs. AreLeavesOf ledger.new known.now next.now s second.now fs.items) }
{
    let mut all = Vec::new(alloc);
    for i in 0..second.len() {
        let t = second[i];
        let row = leaf(alloc, ledger, known, next, s.atom, t.atom)?;
        all.push(row)?;
    }
    Ok(all)
}

/// The outermost brackets of the atoms of some terms with those of others, row by row.
pub(crate) fn leaves<'a>(
    alloc: Global,
    ledger: &mut Ledger<'a>,
    known: &Known,
    next: &Next,
    first: &[Term],
    second: &[Term],
) -> Result<Vec<Vec<Fact>>, AllocError>
    requires known { IsKnown ledger.old known.now }
    requires next { IsNext ledger.old known.now next.now }
    requires first { All (λ t. t.atom < length known.now.basis.items) first.now }
    requires second { All (λ t. t.atom < length known.now.basis.items) second.now }
    requires weights { All (λ s. All (λ t. (plain_basis known.now.table s.atom).weight + (plain_basis known.now.table t.atom).weight ≡ suc known.now.table.weight) second.now) first.now }
    ensures grows { OnOk result (Grows ledger.old ledger.new) }
    ensures rows { IfOk result (λ rows. AreLeaves ledger.new known.now next.now first.now second.now (map (λ r. r.items) rows.items)) }
{
    let mut all = Vec::new(alloc);
    for i in 0..first.len() {
        let s = first[i];
        let row = leaves_with(alloc, ledger, known, next, s, second)?;
        all.push(row)?;
    }
    Ok(all)
}
