//! Brackets of the weight after a table's, as forms over its symbols.
ghost use Rattle.std.specs.Prelude.{◌≡◌, ◌≢◌, ◌<◌, ◌^◌, IfOk, OnOk};
ghost use Rattle.math_algebra.specs.Degrees.{any};
ghost use Rattle.fpl_model.specs.Meaning.{plain};
ghost use Rattle.fpl_model.specs.Sound.{IsSound, count_tree};
ghost use Rattle.fpl_forms.specs.Ledgers.{IsExpr, Grows};
ghost use Rattle.fpl_table_facts.specs.Known.{IsKnown, IsFormOf, IsNext, IsReached, weight_in};
ghost use Rattle.fpl_table_facts.specs.Rows.{IsRow, IsDue, expr_row};

use crate::known::{Known, Next};
use crate::leaves::leaves;
use crate::values::{is_void, value};
use fpl_facts::{void_left, void_right};
use fpl_forms::{Fact, Ledger};
use fpl_model::{Expr, Presentation};
use std::alloc::{AllocError, Global};

/// The row of a bracket whose left member has no weight.
fn void_left_row<'a>(
    alloc: Global,
    ledger: &mut Ledger<'a>,
    known: &Known,
    next: &Next,
    a: &Expr,
    left: &Fact,
    b: &Expr,
) -> Result<Fact, AllocError>
    requires known { IsKnown ledger.old known.now }
    requires next { IsNext ledger.old known.now next.now }
    requires left { IsExpr ledger.old.presentation a.now }
    requires right { IsExpr ledger.old.presentation b.now }
    requires void { weight_in ledger.old.presentation a.now ≡ any }
    requires form { IsFormOf ledger.old known.now.basis.items a.now left.now }
    ensures grows { OnOk result (Grows ledger.old ledger.new) }
    ensures known { OnOk result (IsKnown ledger.new known.now) }
    ensures next { OnOk result (IsNext ledger.new known.now next.now) }
    ensures row { IfOk result (λ f. IsRow ledger.new next.now (Expr.Br a.now b.now) (expr_row ledger.new.presentation known.now.table (Expr.Br a.now b.now)) f) }
{
    let _ = known;
    let _ = a;
    ledger.sound();
    let row = void_left(alloc, ledger, &next.trees, left, b)?;
    Ok(row)
}

/// The row of a bracket whose right member has no weight.
fn void_right_row<'a>(
    alloc: Global,
    ledger: &mut Ledger<'a>,
    known: &Known,
    next: &Next,
    a: &Expr,
    b: &Expr,
    right: &Fact,
) -> Result<Fact, AllocError>
    requires known { IsKnown ledger.old known.now }
    requires next { IsNext ledger.old known.now next.now }
    requires left { IsExpr ledger.old.presentation a.now }
    requires right { IsExpr ledger.old.presentation b.now }
    requires void { weight_in ledger.old.presentation b.now ≡ any }
    requires form { IsFormOf ledger.old known.now.basis.items b.now right.now }
    ensures grows { OnOk result (Grows ledger.old ledger.new) }
    ensures known { OnOk result (IsKnown ledger.new known.now) }
    ensures next { OnOk result (IsNext ledger.new known.now next.now) }
    ensures row { IfOk result (λ f. IsRow ledger.new next.now (Expr.Br a.now b.now) (expr_row ledger.new.presentation known.now.table (Expr.Br a.now b.now)) f) }
{
    let _ = known;
    let _ = b;
    ledger.sound();
    let row = void_right(alloc, ledger, &next.trees, a, right)?;
    Ok(row)
}

/// The row of a bracket whose members have weights, from their forms over the basis.
fn bracket_row<'a>(
    alloc: Global,
    ledger: &mut Ledger<'a>,
    known: &Known,
    next: &Next,
    a: &Expr,
    b: &Expr,
    left: &Fact,
    right: &Fact,
) -> Result<Fact, AllocError>
    requires known { IsKnown ledger.old known.now }
    requires next { IsNext ledger.old known.now next.now }
    requires some_a { weight_in ledger.old.presentation a.now ≢ any }
    requires some_b { weight_in ledger.old.presentation b.now ≢ any }
    requires due { IsDue ledger.old.presentation known.now.table.weight (Expr.Br a.now b.now) }
    requires left { IsFormOf ledger.old known.now.basis.items a.now left.now }
    requires right { IsFormOf ledger.old known.now.basis.items b.now right.now }
    ensures grows { OnOk result (Grows ledger.old ledger.new) }
    ensures known { OnOk result (IsKnown ledger.new known.now) }
    ensures next { OnOk result (IsNext ledger.new known.now next.now) }
    ensures row { IfOk result (λ f. IsRow ledger.new next.now (Expr.Br a.now b.now)
        (expr_row ledger.new.presentation known.now.table (Expr.Br a.now b.now)) f) }
{
    let _ = a;
    let _ = b;
    ledger.sound();
    let rows = leaves(alloc, ledger, known, next, &left.terms, &right.terms)?;
    ledger.sound();
    let row = ledger.bracket(&known.basis, &next.trees, left, right, &rows)?;
    Ok(row)
}

/// The members of a bracket of the weight after the table's, or of none, are expressions.
fn pair_over(p: &Presentation, known: &Known, a: &Expr, b: &Expr)
    requires due { IsDue p.now known.now.table.weight (Expr.Br a.now b.now) }
    ensures left { IsExpr p.now a.now }
    ensures right { IsExpr p.now b.now }
    ensures few_left { count_tree (plain a.now) < 2 ^ 40 }
    ensures few_right { count_tree (plain b.now) < 2 ^ 40 }
{
    let _ = p;
    let _ = known;
    let _ = a;
    let _ = b;
}

/// What has no weight is reached.
fn void_reached(p: &Presentation, known: &Known, a: &Expr)
    requires over { IsExpr p.now a.now }
    requires few { count_tree (plain a.now) < 2 ^ 40 }
    requires void { weight_in p.now a.now ≡ any }
    ensures { IsReached p.now known.now.table.weight a.now }
{
    let _ = p;
    let _ = known;
    let _ = a;
}

/// So are the members of such a bracket that both have weights.
fn pair_reached(p: &Presentation, known: &Known, a: &Expr, b: &Expr)
    requires sound { IsSound p.now }
    requires due { IsDue p.now known.now.table.weight (Expr.Br a.now b.now) }
    requires some_a { weight_in p.now a.now ≢ any }
    requires some_b { weight_in p.now b.now ≢ any }
    ensures left { IsReached p.now known.now.table.weight a.now }
    ensures right { IsReached p.now known.now.table.weight b.now }
{
    let _ = p;
    let _ = known;
    let _ = a;
    let _ = b;
}

/// The row of a bracket both of whose members have weights.
fn weighty_row<'a>(
    alloc: Global,
    ledger: &mut Ledger<'a>,
    p: &Presentation,
    known: &Known,
    next: &Next,
    a: &Expr,
    b: &Expr,
) -> Result<Fact, AllocError>
    requires presentation { p.now ≡ ledger.old.presentation }
    requires known { IsKnown ledger.old known.now }
    requires next { IsNext ledger.old known.now next.now }
    requires due { IsDue p.now known.now.table.weight (Expr.Br a.now b.now) }
    requires some_a { weight_in p.now a.now ≢ any }
    requires some_b { weight_in p.now b.now ≢ any }
    ensures grows { OnOk result (Grows ledger.old ledger.new) }
    ensures known { OnOk result (IsKnown ledger.new known.now) }
    ensures next { OnOk result (IsNext ledger.new known.now next.now) }
    ensures row { IfOk result (λ f. IsRow ledger.new next.now (Expr.Br a.now b.now)
        (expr_row ledger.new.presentation known.now.table (Expr.Br a.now b.now)) f) }
{
    pair_reached(p, known, a, b);
    let left = value(alloc, ledger, p, known, a)?;
    let right = value(alloc, ledger, p, known, b)?;
    let row = bracket_row(alloc, ledger, known, next, a, b, &left, &right)?;
    Ok(row)
}

/// The row of a bracket.
pub(crate) fn pair_row<'a>(
    alloc: Global,
    ledger: &mut Ledger<'a>,
    p: &Presentation,
    known: &Known,
    next: &Next,
    a: &Expr,
    b: &Expr,
) -> Result<Fact, AllocError>
    requires presentation { p.now ≡ ledger.old.presentation }
    requires known { IsKnown ledger.old known.now }
    requires next { IsNext ledger.old known.now next.now }
    requires due { IsDue p.now known.now.table.weight (Expr.Br a.now b.now) }
    ensures grows { OnOk result (Grows ledger.old ledger.new) }
    ensures known { OnOk result (IsKnown ledger.new known.now) }
    ensures next { OnOk result (IsNext ledger.new known.now next.now) }
    ensures row { IfOk result (λ f. IsRow ledger.new next.now (Expr.Br a.now b.now) (expr_row ledger.new.presentation known.now.table (Expr.Br a.now b.now)) f) }
{
    pair_over(p, known, a, b);
    if is_void(p, a) {
        void_reached(p, known, a);
        let left = value(alloc, ledger, p, known, a)?;
        let row = void_left_row(alloc, ledger, known, next, a, &left, b)?;
        return Ok(row);
    }
    if is_void(p, b) {
        void_reached(p, known, b);
        let right = value(alloc, ledger, p, known, b)?;
        let row = void_right_row(alloc, ledger, known, next, a, b, &right)?;
        return Ok(row);
    }
    weighty_row(alloc, ledger, p, known, next, a, b)
}
