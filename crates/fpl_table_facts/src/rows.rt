//! Expressions of the weight after a table's, as forms over its symbols.
ghost use Rattle.std.specs.Prelude.{◌≡◌, ◌<◌, All, IfOk, OnOk};
ghost use Rattle.fpl_numbers.specs.Numbers.{IsElement};
ghost use Rattle.fpl_numbers.specs.declared.number.Num.{Num};
ghost use Rattle.fpl_forms.specs.Ledgers.{Grows};
ghost use Rattle.fpl_table_facts.specs.Known.{IsKnown, IsNext};
ghost use Rattle.fpl_table_facts.specs.Rows.{IsRow, IsDue, AreRowsOf, expr_row};

use crate::bracket_rows::pair_row;
use crate::known::{Known, Next};
use crate::leaves::symbol_once;
use fpl_facts::residue_part;
use fpl_forms::{Fact, Ledger};
use fpl_model::{Expr, Exprs, Presentation};
use fpl_numbers::Num;
use fpl_table::Symbol;
use std::alloc::{AllocError, Global};

/// The row of a generator.
fn generator_row<'a>(
    ledger: &mut Ledger<'a>,
    p: &Presentation,
    known: &Known,
    next: &Next,
    g: u32,
) -> Result<Fact, AllocError>
    requires presentation { p.now ≡ ledger.old.presentation }
    requires known { IsKnown ledger.old known.now }
    requires next { IsNext ledger.old known.now next.now }
    requires due { IsDue p.now known.now.table.weight (Expr.Gen g) }
    ensures grows { OnOk result (Grows ledger.old ledger.new) }
    ensures known { OnOk result (IsKnown ledger.new known.now) }
    ensures next { OnOk result (IsNext ledger.new known.now next.now) }
    ensures row { IfOk result (λ f. IsRow ledger.new next.now (Expr.Gen g) (expr_row ledger.new.presentation known.now.table (Expr.Gen g)) f) }
{
    let _ = p;
    let row = symbol_once(ledger, known, next, Symbol::Gen(g))?;
    Ok(row)
}

/// The row of 0.
fn zero_row<'a>(ledger: &mut Ledger<'a>, known: &Known, next: &Next) -> Result<Fact, AllocError>
    requires known { IsKnown ledger.old known.now }
    requires next { IsNext ledger.old known.now next.now }
    ensures grows { OnOk result (Grows ledger.old ledger.new) }
    ensures known { OnOk result (IsKnown ledger.new known.now) }
    ensures next { OnOk result (IsNext ledger.new known.now next.now) }
    ensures row { IfOk result (λ f. IsRow ledger.new next.now Expr.Zero (expr_row ledger.new.presentation known.now.table Expr.Zero) f) }
{
    let _ = known;
    let row = ledger.nothing(&next.trees)?;
    ledger.sound();
    Ok(row)
}

/// The row of a sum, from those of its members.
fn sum_row<'a>(
    ledger: &mut Ledger<'a>,
    known: &Known,
    next: &Next,
    members: &Exprs,
    facts: &[Fact],
) -> Result<Fact, AllocError>
    requires known { IsKnown ledger.old known.now }
    requires next { IsNext ledger.old known.now next.now }
    requires facts { AreRowsOf ledger.old known.now next.now members.now facts.now }
    ensures grows { OnOk result (Grows ledger.old ledger.new) }
    ensures known { OnOk result (IsKnown ledger.new known.now) }
    ensures next { OnOk result (IsNext ledger.new known.now next.now) }
    ensures row { IfOk result (λ f. IsRow ledger.new next.now (Expr.Sum members.now) (expr_row ledger.new.presentation known.now.table (Expr.Sum members.now)) f) }
{
    let _ = known;
    let _ = members;
    ledger.sound();
    let row = ledger.sum(&next.trees, facts)?;
    Ok(row)
}

/// The row of a multiple.
fn multiple_row<'a>(
    ledger: &mut Ledger<'a>,
    known: &Known,
    next: &Next,
    number: Num,
    e: &Expr,
    factor: &Fact,
) -> Result<Fact, AllocError>
    requires known { IsKnown ledger.old known.now }
    requires next { IsNext ledger.old known.now next.now }
    requires number { IsElement ledger.old.presentation.field number }
    requires factor { IsRow ledger.old next.now e.now (expr_row ledger.old.presentation known.now.table e.now) factor.now }
    ensures grows { OnOk result (Grows ledger.old ledger.new) }
    ensures known { OnOk result (IsKnown ledger.new known.now) }
    ensures next { OnOk result (IsNext ledger.new known.now next.now) }
    ensures row { IfOk result (λ f. IsRow ledger.new next.now (Expr.Times number e.now) (expr_row ledger.new.presentation known.now.table (Expr.Times number e.now)) f) }
{
    let _ = known;
    let _ = e;
    ledger.sound();
    let residue = residue_part(ledger.prime(), number);
    let row = ledger.times(&next.trees, residue, factor)?;
    Ok(row)
}

/// The members of a sum have no weight, or the one after the table's.
fn members_due(p: &Presentation, known: &Known, e: &Expr, members: &Exprs)
    requires sum { e.now ≡ Expr.Sum members.now }
    requires due { IsDue p.now known.now.table.weight e.now }
    ensures { All (IsDue p.now known.now.table.weight) members.now }
{
    let _ = p;
    let _ = known;
    let _ = e;
    let _ = members;
}

/// So has what is multiplied.
fn factor_due(p: &Presentation, known: &Known, e: &Expr, c: Num, factor: &Expr)
    requires multiple { e.now ≡ Expr.Times c factor.now }
    requires due { IsDue p.now known.now.table.weight e.now }
    ensures number { IsElement p.now.field c }
    ensures due { IsDue p.now known.now.table.weight factor.now }
{
    let _ = p;
    let _ = known;
    let _ = e;
    let _ = c;
    let _ = factor;
}

/// The row over the symbols of an expression that has no weight, or the one after the table's.
#[cycle(rowing)]
pub fn row<'a>(
    alloc: Global,
    ledger: &mut Ledger<'a>,
    p: &Presentation,
    known: &Known,
    next: &Next,
    e: &Expr,
) -> Result<Fact, AllocError>
    requires presentation { p.now ≡ ledger.old.presentation }
    requires known { IsKnown ledger.old known.now }
    requires next { IsNext ledger.old known.now next.now }
    requires due { IsDue p.now known.now.table.weight e.now }
    ensures grows { OnOk result (Grows ledger.old ledger.new) }
    ensures known { OnOk result (IsKnown ledger.new known.now) }
    ensures next { OnOk result (IsNext ledger.new known.now next.now) }
    ensures row { IfOk result (λ f. IsRow ledger.new next.now e.now (expr_row ledger.new.presentation known.now.table e.now) f) }
{
    match e {
        Expr::Gen(g) => generator_row(ledger, p, known, next, *g),
        Expr::Zero => zero_row(ledger, known, next),
        Expr::Sum(members) => {
            let members = members.get();
            members_due(p, known, e, members);
            let facts = rows(alloc, ledger, p, known, next, members)?;
            sum_row(ledger, known, next, members, &facts)
        }
        Expr::Times(c, factor) => {
            let factor = factor.get();
            factor_due(p, known, e, c.number(), factor);
            let fact = row(alloc, ledger, p, known, next, factor)?;
            multiple_row(ledger, known, next, c.number(), factor, &fact)
        }
        Expr::Br(a, b) => pair_row(alloc, ledger, p, known, next, a.get(), b.get()),
    }
}

/// The rows over the symbols of some such expressions, in order.
#[cycle(rowing)]
fn rows<'a>(
    alloc: Global,
    ledger: &mut Ledger<'a>,
    p: &Presentation,
    known: &Known,
    next: &Next,
    members: &Exprs,
) -> Result<Vec<Fact>, AllocError>
    requires presentation { p.now ≡ ledger.old.presentation }
    requires known { IsKnown ledger.old known.now }
    requires next { IsNext ledger.old known.now next.now }
    requires due { All (IsDue p.now known.now.table.weight) members.now }
    ensures grows { OnOk result (Grows ledger.old ledger.new) }
    ensures known { OnOk result (IsKnown ledger.new known.now) }
    ensures next { OnOk result (IsNext ledger.new known.now next.now) }
    ensures rows { IfOk result (λ fs. AreRowsOf ledger.new known.now next.now members.now fs.items) }
{
    let mut all = Vec::new(alloc);
    for e in members.as_slice() {
        let one = row(alloc, ledger, p, known, next, e)?;
        all.push(one)?;
    }
    Ok(all)
}
