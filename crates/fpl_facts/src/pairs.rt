//! Brackets that are exchanged, and brackets of an even expression with itself.
ghost use Rattle.std.specs.Prelude.{◌≡◌, ◌<◌, ◌-◌, ◌+◌, ◌/◌, ◌++◌, [], ◌∷◌, length, All, IfOk, OnOk};
ghost use Rattle.fpl_forms.specs.Ledgers.{IsExpr, Grows, left_of};
ghost use Rattle.fpl_forms.specs.Forms.{IsWork, tidied};
ghost use Rattle.fpl_forms.specs.Combining.{multiplied};
ghost use Rattle.fpl_facts.specs.Axioms.{HasParityIn, swap_number};
ghost use Rattle.fpl_facts.specs.Facts.{halved, once, IsFact};

use crate::axioms::{swap, swap_number};
use crate::zeros::{past_two, plus};
use fpl_forms::{Fact, Ledger, bracket};
use fpl_model::{Expr, Parity};
use std::alloc::{AllocError, Global};

/// From `[b,a] = F` where a has parity s and b has t: `[a,b] = -(-1)^(st) F`.
pub fn swapped<'a>(
    alloc: Global,
    ledger: &mut Ledger<'a>,
    atoms: &[Expr],
    parities: (Parity, Parity),
    a: &Expr,
    b: &Expr,
    fact: &Fact,
) -> Result<Fact, AllocError>
    requires atoms { All (IsExpr ledger.old.presentation) atoms.now }
    requires left { IsExpr ledger.old.presentation a.now }
    requires right { IsExpr ledger.old.presentation b.now }
    requires first { HasParityIn ledger.old.presentation a.now parities.0 }
    requires second { HasParityIn ledger.old.presentation b.now parities.1 }
    requires fact { IsFact ledger.old atoms.now (Expr.Br b.now a.now) fact.now }
    ensures grows { OnOk result (Grows ledger.old ledger.new) }
    ensures fact { IfOk result (λ f. IsFact ledger.new atoms.now (Expr.Br a.now b.now) f) }
    ensures terms { IfOk result (λ f. f.terms.items ≡ multiplied ledger.old.prime (swap_number ledger.old.prime parities.0 parities.1) fact.now.terms.items) }
{
    past_two(ledger);
    let number = swap_number(ledger.prime(), parities.0, parities.1);
    let n = swap(alloc, ledger, parities.0, parities.1, a, b)?;
    let multiple = ledger.times(atoms, number, fact)?;
    let turned = ledger.led(atoms, n, &multiple)?;
    Ok(turned)
}

/// The sum of the halves of two facts. The half of 1 is half of the prime, and 1/2 more.
fn halved<'a>(
    alloc: Global,
    ledger: &mut Ledger<'a>,
    atoms: &[Expr],
    first: &Fact,
    second: &Fact,
) -> Result<Fact, AllocError>
    requires atoms { All (IsExpr ledger.old.presentation) atoms.now }
    requires first { IsWork ledger.old atoms.now first.now }
    requires second { IsWork ledger.old atoms.now second.now }
    ensures grows { OnOk result (Grows ledger.old ledger.new) }
    ensures fact { IfOk result (λ f. IsFact ledger.new atoms.now (halved ledger.old.prime (left_of ledger.old first.now.line) (left_of ledger.old second.now.line)) f) }
    ensures terms { IfOk result (λ f. f.terms.items ≡ tidied ledger.old.prime
        (multiplied ledger.old.prime (ledger.old.prime / 2 + 1) first.now.terms.items ++ multiplied ledger.old.prime (ledger.old.prime / 2 + 1) second.now.terms.items)) }
{
    past_two(ledger);
    let half = ledger.prime() / 2 + 1;
    let once = ledger.times(atoms, half, first)?;
    let then = ledger.times(atoms, half, second)?;
    let sum = plus(alloc, ledger, atoms, &once, &then)?;
    Ok(sum)
}

/// Half of e and half of e are e.
fn half_and_half<'a>(
    alloc: Global,
    ledger: &mut Ledger<'a>,
    whole: &[Expr],
    unit: &Fact,
) -> Result<Fact, AllocError>
    requires whole { All (IsExpr ledger.old.presentation) whole.now }
    requires unit { IsWork ledger.old whole.now unit.now }
    requires once { unit.now.terms.items ≡ once }
    ensures grows { OnOk result (Grows ledger.old ledger.new) }
    ensures fact { IfOk result (λ f. IsFact ledger.new whole.now (halved ledger.old.prime (left_of ledger.old unit.now.line) (left_of ledger.old unit.now.line)) f) }
    ensures terms { IfOk result (λ f. f.terms.items ≡ once) }
{
    ledger.sound();
    let fact = halved(alloc, ledger, whole, unit, unit)?;
    Ok(fact)
}

/// Half of e and half of what is -e are nothing.
fn half_less_half<'a>(
    alloc: Global,
    ledger: &mut Ledger<'a>,
    whole: &[Expr],
    unit: &Fact,
    minus: &Fact,
) -> Result<Fact, AllocError>
    requires whole { All (IsExpr ledger.old.presentation) whole.now }
    requires unit { IsWork ledger.old whole.now unit.now }
    requires once { unit.now.terms.items ≡ once }
    requires minus { IsWork ledger.old whole.now minus.now }
    requires off { minus.now.terms.items ≡ multiplied ledger.old.prime (ledger.old.prime - 1) once }
    ensures grows { OnOk result (Grows ledger.old ledger.new) }
    ensures fact { IfOk result (λ f. IsFact ledger.new whole.now (halved ledger.old.prime (left_of ledger.old unit.now.line) (left_of ledger.old minus.now.line)) f) }
    ensures terms { IfOk result (λ f. f.terms.items ≡ []) }
{
    ledger.sound();
    let fact = halved(alloc, ledger, whole, unit, minus)?;
    Ok(fact)
}

/// The bracket of an expression with itself alone.
fn bracket_alone<'a>(alloc: Global, ledger: &Ledger<'a>, a: &Expr) -> Result<Vec<Expr>, AllocError>
    requires over { IsExpr ledger.now.presentation a.now }
    ensures item { IfOk result (λ es. es.items ≡ Expr.Br a.now a.now ∷ []) }
    ensures over { IfOk result (λ es. All (IsExpr ledger.now.presentation) es.items) }
{
    let _ = ledger;
    let whole = bracket(alloc, a, a)?;
    let mut all = Vec::new(alloc);
    all.push(whole)?;
    Ok(all)
}

/// The bracket of an even expression with itself is the empty sum.
pub fn square<'a>(
    alloc: Global,
    ledger: &mut Ledger<'a>,
    atoms: &[Expr],
    a: &Expr,
) -> Result<Fact, AllocError>
    requires atoms { All (IsExpr ledger.old.presentation) atoms.now }
    requires over { IsExpr ledger.old.presentation a.now }
    requires even { HasParityIn ledger.old.presentation a.now Parity.Even }
    ensures grows { OnOk result (Grows ledger.old ledger.new) }
    ensures fact { IfOk result (λ f. IsFact ledger.new atoms.now (Expr.Br a.now a.now) f) }
    ensures terms { IfOk result (λ f. f.terms.items ≡ []) }
{
    let whole = bracket_alone(alloc, ledger, a)?;
    let unit = ledger.unit(&whole, 0)?;
    let minus = swapped(
        alloc,
        ledger,
        &whole,
        (Parity::Even, Parity::Even),
        a,
        a,
        &unit,
    )?;
    // once as 1/2 + 1/2, once as 1/2 - 1/2
    let one = half_and_half(alloc, ledger, &whole, &unit)?;
    let none = half_less_half(alloc, ledger, &whole, &unit, &minus)?;
    let gone = ledger.join(&whole, atoms, &one, &none)?;
    let square = ledger.led(atoms, unit.line, &gone)?;
    Ok(square)
}
