//! Expressions as forms over the basis.
ghost use Rattle.std.specs.Prelude.{◌≡◌, ◌≢◌, ◌≤◌, ◌+◌, ◌<◌, ◌^◌, true, false, [], All, IfOk, IsTrue, OnOk};
ghost use Rattle.fpl_numbers.specs.Numbers.{IsElement};
ghost use Rattle.fpl_numbers.specs.declared.number.Num.{Num};
ghost use Rattle.math_algebra.specs.Degrees.{any, exact};
ghost use Rattle.fpl_model.specs.Meaning.{plain};
ghost use Rattle.fpl_model.specs.Sound.{HaveWeights, count_tree};
ghost use Rattle.fpl_forms.specs.Ledgers.{IsExpr, Grows};
ghost use Rattle.fpl_forms.specs.Forms.{IsWork};
ghost use Rattle.fpl_forms.specs.Combining.{lefts};
ghost use Rattle.fpl_table_facts.specs.Known.{IsKnown, IsFormOf, IsReached, is_reached, weight_in};

use crate::known::{Known, symbol_form};
use crate::products::products;
use fpl_facts::{residue_part, void_left, void_right};
use fpl_forms::{Fact, Ledger};
use fpl_model::{Degree, Expr, Exprs, Presentation};
use fpl_numbers::Num;
use fpl_table::Symbol;
use std::alloc::{AllocError, Global};

/// Whether an expression has no weight, as 0 and brackets with 0.
pub(crate) fn is_void(p: &Presentation, e: &Expr) -> bool
    requires weights { HaveWeights p.now.generators }
    requires over { IsExpr p.now e.now }
    requires few { count_tree (plain e.now) < 2 ^ 40 }
    ensures void { IsTrue result → weight_in p.now e.now ≡ any }
    ensures some { result ≡ false → weight_in p.now e.now ≢ any }
{
    matches!(p.weight_of(e), Degree::Any)
}

/// The form of a generator.
fn generator_form<'a>(
    alloc: Global,
    ledger: &Ledger<'a>,
    p: &Presentation,
    known: &Known,
    g: u32,
) -> Result<Fact, AllocError>
    requires presentation { p.now ≡ ledger.now.presentation }
    requires known { IsKnown ledger.now known.now }
    requires reached { IsReached p.now known.now.table.weight (Expr.Gen g) }
    ensures { IfOk result (λ f. IsFormOf ledger.now known.now.basis.items (Expr.Gen g) f) }
{
    let weight = p.generators.as_slice()[g as usize - 1].weight;
    symbol_form(alloc, ledger, known, weight, Symbol::Gen(g))
}

/// The form of 0.
fn zero_form<'a>(ledger: &mut Ledger<'a>, known: &Known) -> Result<Fact, AllocError>
    requires known { IsKnown ledger.old known.now }
    ensures grows { OnOk result (Grows ledger.old ledger.new) }
    ensures known { OnOk result (IsKnown ledger.new known.now) }
    ensures form { IfOk result (λ f. IsFormOf ledger.new known.now.basis.items Expr.Zero f) }
{
    let fact = ledger.nothing(&known.basis)?;
    Ok(fact)
}

/// The form of a sum, from those of its members.
fn sum_form<'a>(ledger: &mut Ledger<'a>, known: &Known, facts: &[Fact]) -> Result<Fact, AllocError>
    requires known { IsKnown ledger.old known.now }
    requires facts { All (IsWork ledger.old known.now.basis.items) facts.now }
    ensures grows { OnOk result (Grows ledger.old ledger.new) }
    ensures known { OnOk result (IsKnown ledger.new known.now) }
    ensures form { IfOk result (λ f. IsFormOf ledger.new known.now.basis.items (Expr.Sum (lefts ledger.old facts.now)) f) }
{
    ledger.sound();
    let fact = ledger.sum(&known.basis, facts)?;
    Ok(fact)
}

/// The form of a multiple.
fn multiple_form<'a>(
    ledger: &mut Ledger<'a>,
    known: &Known,
    number: Num,
    e: &Expr,
    factor: &Fact,
) -> Result<Fact, AllocError>
    requires known { IsKnown ledger.old known.now }
    requires number { IsElement ledger.old.presentation.field number }
    requires factor { IsFormOf ledger.old known.now.basis.items e.now factor.now }
    ensures grows { OnOk result (Grows ledger.old ledger.new) }
    ensures known { OnOk result (IsKnown ledger.new known.now) }
    ensures form { IfOk result (λ f. IsFormOf ledger.new known.now.basis.items (Expr.Times number e.now) f) }
{
    let _ = e;
    ledger.sound();
    let residue = residue_part(ledger.prime(), number);
    let fact = ledger.times(&known.basis, residue, factor)?;
    Ok(fact)
}

/// The form of a bracket whose left member has no weight.
fn void_left_form<'a>(
    alloc: Global,
    ledger: &mut Ledger<'a>,
    known: &Known,
    a: &Expr,
    left: &Fact,
    b: &Expr,
) -> Result<Fact, AllocError>
    requires known { IsKnown ledger.old known.now }
    requires left { IsExpr ledger.old.presentation a.now }
    requires right { IsExpr ledger.old.presentation b.now }
    requires void { weight_in ledger.old.presentation a.now ≡ any }
    requires form { IsFormOf ledger.old known.now.basis.items a.now left.now }
    ensures grows { OnOk result (Grows ledger.old ledger.new) }
    ensures known { OnOk result (IsKnown ledger.new known.now) }
    ensures form { IfOk result (λ f. IsFormOf ledger.new known.now.basis.items (Expr.Br a.now b.now) f) }
{
    let _ = a;
    ledger.sound();
    let fact = void_left(alloc, ledger, &known.basis, left, b)?;
    Ok(fact)
}

/// The form of a bracket whose right member has no weight.
fn void_right_form<'a>(
    alloc: Global,
    ledger: &mut Ledger<'a>,
    known: &Known,
    a: &Expr,
    b: &Expr,
    right: &Fact,
) -> Result<Fact, AllocError>
    requires known { IsKnown ledger.old known.now }
    requires left { IsExpr ledger.old.presentation a.now }
    requires right { IsExpr ledger.old.presentation b.now }
    requires void { weight_in ledger.old.presentation b.now ≡ any }
    requires form { IsFormOf ledger.old known.now.basis.items b.now right.now }
    ensures grows { OnOk result (Grows ledger.old ledger.new) }
    ensures known { OnOk result (IsKnown ledger.new known.now) }
    ensures form { IfOk result (λ f. IsFormOf ledger.new known.now.basis.items (Expr.Br a.now b.now) f) }
{
    let _ = b;
    ledger.sound();
    let fact = void_right(alloc, ledger, &known.basis, a, right)?;
    Ok(fact)
}

/// The form of a bracket whose members have weights, from theirs.
fn bracket_form<'a>(
    alloc: Global,
    ledger: &mut Ledger<'a>,
    known: &Known,
    a: &Expr,
    b: &Expr,
    left: &Fact,
    right: &Fact,
) -> Result<Fact, AllocError>
    requires known { IsKnown ledger.old known.now }
    requires first { IsExpr ledger.old.presentation a.now }
    requires second { IsExpr ledger.old.presentation b.now }
    requires some_a { weight_in ledger.old.presentation a.now ≢ any }
    requires some_b { weight_in ledger.old.presentation b.now ≢ any }
    requires weight { is_reached known.now.table.weight (weight_in ledger.old.presentation (Expr.Br a.now b.now)) ≡ true }
    requires left { IsFormOf ledger.old known.now.basis.items a.now left.now }
    requires right { IsFormOf ledger.old known.now.basis.items b.now right.now }
    ensures grows { OnOk result (Grows ledger.old ledger.new) }
    ensures known { OnOk result (IsKnown ledger.new known.now) }
    ensures form { IfOk result (λ f. IsFormOf ledger.new known.now.basis.items (Expr.Br a.now b.now) f) }
{
    let _ = a;
    let _ = b;
    ledger.sound();
    let rows = products(alloc, ledger, known, &left.terms, &right.terms)?;
    let fact = ledger.bracket(&known.basis, &known.basis, left, right, &rows)?;
    Ok(fact)
}

/// The members of a sum have no weight, or one of the table's.
fn members_reached(p: &Presentation, known: &Known, e: &Expr, members: &Exprs)
    requires sum { e.now ≡ Expr.Sum members.now }
    requires reached { IsReached p.now known.now.table.weight e.now }
    ensures { All (IsReached p.now known.now.table.weight) members.now }
{
    let _ = p;
    let _ = known;
    let _ = e;
    let _ = members;
}

/// So has what is multiplied.
fn factor_reached(p: &Presentation, known: &Known, e: &Expr, c: Num, factor: &Expr)
    requires multiple { e.now ≡ Expr.Times c factor.now }
    requires reached { IsReached p.now known.now.table.weight e.now }
    ensures number { IsElement p.now.field c }
    ensures reached { IsReached p.now known.now.table.weight factor.now }
{
    let _ = p;
    let _ = known;
    let _ = e;
    let _ = c;
    let _ = factor;
}

/// So have the members of a bracket that both have weights.
fn pair_reached(p: &Presentation, known: &Known, e: &Expr, a: &Expr, b: &Expr)
    requires bracket { e.now ≡ Expr.Br a.now b.now }
    requires reached { IsReached p.now known.now.table.weight e.now }
    requires some_a { weight_in p.now a.now ≢ any }
    requires some_b { weight_in p.now b.now ≢ any }
    ensures left { IsReached p.now known.now.table.weight a.now }
    ensures right { IsReached p.now known.now.table.weight b.now }
    ensures weight { is_reached known.now.table.weight (weight_in p.now (Expr.Br a.now b.now)) ≡ true }
{
    let _ = p;
    let _ = known;
    let _ = e;
    let _ = a;
    let _ = b;
}

/// The form over the basis of an expression that has no weight, or one of the table's.
#[cycle(valuing)]
pub fn value<'a>(
    alloc: Global,
    ledger: &mut Ledger<'a>,
    p: &Presentation,
    known: &Known,
    e: &Expr,
) -> Result<Fact, AllocError>
    requires presentation { p.now ≡ ledger.old.presentation }
    requires known { IsKnown ledger.old known.now }
    requires reached { IsReached p.now known.now.table.weight e.now }
    ensures grows { OnOk result (Grows ledger.old ledger.new) }
    ensures known { OnOk result (IsKnown ledger.new known.now) }
    ensures form { IfOk result (λ f. IsFormOf ledger.new known.now.basis.items e.now f) }
{
    match e {
        Expr::Gen(g) => generator_form(alloc, ledger, p, known, *g),
        Expr::Zero => zero_form(ledger, known),
        Expr::Sum(members) => {
            let members = members.get();
            members_reached(p, known, e, members);
            let facts = values(alloc, ledger, p, known, members)?;
            sum_form(ledger, known, &facts)
        }
        Expr::Times(c, factor) => {
            let factor = factor.get();
            factor_reached(p, known, e, c.number(), factor);
            let fact = value(alloc, ledger, p, known, factor)?;
            multiple_form(ledger, known, c.number(), factor, &fact)
        }
        Expr::Br(a, b) => {
            let a = a.get();
            let b = b.get();
            if is_void(p, a) {
                let left = value(alloc, ledger, p, known, a)?;
                return void_left_form(alloc, ledger, known, a, &left, b);
            }
            if is_void(p, b) {
                let right = value(alloc, ledger, p, known, b)?;
                return void_right_form(alloc, ledger, known, a, b, &right);
            }
            pair_reached(p, known, e, a, b);
            let left = value(alloc, ledger, p, known, a)?;
            let right = value(alloc, ledger, p, known, b)?;
            let fact = bracket_form(alloc, ledger, known, a, b, &left, &right)?;
            Ok(fact)
        }
    }
}

/// The forms over the basis of some such expressions, in order.
#[cycle(valuing)]
fn values<'a>(
    alloc: Global,
    ledger: &mut Ledger<'a>,
    p: &Presentation,
    known: &Known,
    members: &Exprs,
) -> Result<Vec<Fact>, AllocError>
    requires presentation { p.now ≡ ledger.old.presentation }
    requires known { IsKnown ledger.old known.now }
    requires reached { All (IsReached p.now known.now.table.weight) members.now }
    ensures grows { OnOk result (Grows ledger.old ledger.new) }
    ensures known { OnOk result (IsKnown ledger.new known.now) }
    ensures works { IfOk result (λ fs. All (IsWork ledger.new known.now.basis.items) fs.items) }
    ensures lefts { IfOk result (λ fs. lefts ledger.new fs.items ≡ members.now) }
{
    let mut all = Vec::new(alloc);
    for e in members.as_slice() {
        let next = value(alloc, ledger, p, known, e)?;
        all.push(next)?;
    }
    Ok(all)
}
