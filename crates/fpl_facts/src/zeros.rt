//! What is 0, as a fact: the empty sum equals the sum of its terms.
ghost use Rattle.std.specs.Prelude.{◌≡◌, ◌≤◌, ◌<◌, ◌-◌, ◌++◌, [], ◌∷◌, length, All, IfOk, OnOk};
ghost use Rattle.fpl_forms.specs.Ledgers.{IsExpr, Grows, left_of};
ghost use Rattle.fpl_forms.specs.Forms.{IsWork, tidied};
ghost use Rattle.fpl_forms.specs.Combining.{multiplied};
ghost use Rattle.fpl_facts.specs.Facts.{nought, once, difference, less, IsFact, IsZero};

use fpl_forms::{Fact, Ledger};
use fpl_model::Expr;
use std::alloc::{AllocError, Global};

/// The empty sum is itself.
pub fn blank<'a>(alloc: Global, ledger: &mut Ledger<'a>, atoms: &[Expr]) -> Result<Fact, AllocError>
    requires atoms { All (IsExpr ledger.old.presentation) atoms.now }
    ensures grows { OnOk result (Grows ledger.old ledger.new) }
    ensures fact { IfOk result (λ f. IsZero ledger.new atoms.now f) }
    ensures terms { IfOk result (λ f. f.terms.items ≡ []) }
{
    ledger.form(atoms, Vec::new(alloc))
}

/// A multiple of what is 0.
pub fn zero_times<'a>(
    alloc: Global,
    ledger: &mut Ledger<'a>,
    atoms: &[Expr],
    number: u32,
    zero: &Fact,
) -> Result<Fact, AllocError>
    requires atoms { All (IsExpr ledger.old.presentation) atoms.now }
    requires number { number < ledger.old.prime }
    requires zero { IsZero ledger.old atoms.now zero.now }
    ensures grows { OnOk result (Grows ledger.old ledger.new) }
    ensures fact { IfOk result (λ f. IsZero ledger.new atoms.now f) }
    ensures terms { IfOk result (λ f. f.terms.items ≡ multiplied ledger.old.prime number zero.now.terms.items) }
{
    let empty = blank(alloc, ledger, atoms)?;
    let down = ledger.times(atoms, number, &empty)?;
    let up = ledger.times(atoms, number, zero)?;
    let whole = ledger.join(atoms, atoms, &down, &up)?;
    Ok(whole)
}

/// Two facts.
pub(crate) fn both(alloc: Global, first: Fact, second: Fact) -> Result<Vec<Fact>, AllocError>
    ensures { IfOk result (λ fs. fs.items ≡ first ∷ second ∷ []) }
{
    let mut all = Vec::new(alloc);
    all.push(first)?;
    all.push(second)?;
    Ok(all)
}

/// The left side of line `n` alone.
fn left_alone<'a>(alloc: Global, ledger: &Ledger<'a>, n: u64) -> Result<Vec<Expr>, AllocError>
    requires line { (1 ≤ n) × (n ≤ length ledger.now.lines) }
    ensures item { IfOk result (λ es. es.items ≡ left_of ledger.now n ∷ []) }
    ensures over { IfOk result (λ es. All (IsExpr ledger.now.presentation) es.items) }
{
    ledger.sound();
    let left = ledger.line(n).left.copy(alloc)?;
    let mut all = Vec::new(alloc);
    all.push(left)?;
    Ok(all)
}

/// The prime of a ledger is an accepted one.
pub(crate) fn past_two<'a>(ledger: &Ledger<'a>)
    ensures { 2 < ledger.now.prime }
{
    ledger.sound();
}

/// The sum of two facts.
pub(crate) fn plus<'a>(
    alloc: Global,
    ledger: &mut Ledger<'a>,
    atoms: &[Expr],
    first: &Fact,
    second: &Fact,
) -> Result<Fact, AllocError>
    requires atoms { All (IsExpr ledger.old.presentation) atoms.now }
    requires first { IsWork ledger.old atoms.now first.now }
    requires second { IsWork ledger.old atoms.now second.now }
    ensures grows { OnOk result (Grows ledger.old ledger.new) }
    ensures fact { IfOk result (λ f. IsFact ledger.new atoms.now (Expr.Sum (left_of ledger.old first.now.line ∷ left_of ledger.old second.now.line ∷ [])) f) }
    ensures terms { IfOk result (λ f. f.terms.items ≡ tidied ledger.old.prime (first.now.terms.items ++ second.now.terms.items)) }
{
    let once = first.copy(alloc)?;
    let then = second.copy(alloc)?;
    let facts = both(alloc, once, then)?;
    let sum = ledger.sum(atoms, &facts)?;
    Ok(sum)
}

/// What equals the sum of some terms equals it with what is 0 added.
pub fn plus_zero<'a>(
    alloc: Global,
    ledger: &mut Ledger<'a>,
    atoms: &[Expr],
    fact: &Fact,
    zero: &Fact,
) -> Result<Fact, AllocError>
    requires atoms { All (IsExpr ledger.old.presentation) atoms.now }
    requires fact { IsWork ledger.old atoms.now fact.now }
    requires zero { IsZero ledger.old atoms.now zero.now }
    ensures grows { OnOk result (Grows ledger.old ledger.new) }
    ensures fact { IfOk result (λ f. IsFact ledger.new atoms.now (left_of ledger.old fact.now.line) f) }
    ensures terms { IfOk result (λ f. f.terms.items ≡ tidied ledger.old.prime (fact.now.terms.items ++ zero.now.terms.items)) }
{
    let whole = left_alone(alloc, ledger, fact.line)?;
    let unit = ledger.unit(&whole, 0)?;
    let empty = blank(alloc, ledger, &whole)?;
    let down = plus(alloc, ledger, &whole, &unit, &empty)?;
    let up = plus(alloc, ledger, atoms, fact, zero)?;
    let more = ledger.join(&whole, atoms, &down, &up)?;
    let sum = ledger.led(atoms, unit.line, &more)?;
    Ok(sum)
}

/// From e = F and f = G: 1*e + (q-1)*f = F - G.
fn taken_off<'a>(
    alloc: Global,
    ledger: &mut Ledger<'a>,
    atoms: &[Expr],
    first: &Fact,
    second: &Fact,
) -> Result<Fact, AllocError>
    requires atoms { All (IsExpr ledger.old.presentation) atoms.now }
    requires first { IsWork ledger.old atoms.now first.now }
    requires second { IsWork ledger.old atoms.now second.now }
    ensures grows { OnOk result (Grows ledger.old ledger.new) }
    ensures fact { IfOk result (λ f. IsFact ledger.new atoms.now
        (difference ledger.old.prime (left_of ledger.old first.now.line) (left_of ledger.old second.now.line)) f) }
    ensures terms { IfOk result (λ f. f.terms.items ≡ less ledger.old.prime first.now.terms.items second.now.terms.items) }
{
    past_two(ledger);
    let off_number = ledger.prime() - 1;
    let once = ledger.times(atoms, 1, first)?;
    let off = ledger.times(atoms, off_number, second)?;
    let sum = plus(alloc, ledger, atoms, &once, &off)?;
    Ok(sum)
}

/// From e alone: 1*e + (q-1)*e is the empty sum.
fn gone<'a>(
    alloc: Global,
    ledger: &mut Ledger<'a>,
    whole: &[Expr],
    unit: &Fact,
) -> Result<Fact, AllocError>
    requires whole { All (IsExpr ledger.old.presentation) whole.now }
    requires unit { IsWork ledger.old whole.now unit.now }
    requires once { unit.now.terms.items ≡ once }
    ensures grows { OnOk result (Grows ledger.old ledger.new) }
    ensures fact { IfOk result (λ f. IsFact ledger.new whole.now
        (difference ledger.old.prime (left_of ledger.old unit.now.line) (left_of ledger.old unit.now.line)) f) }
    ensures terms { IfOk result (λ f. f.terms.items ≡ []) }
{
    past_two(ledger);
    let fact = taken_off(alloc, ledger, whole, unit, unit)?;
    Ok(fact)
}

/// From e = F and e = G: F - G is 0.
pub fn less<'a>(
    alloc: Global,
    ledger: &mut Ledger<'a>,
    atoms: &[Expr],
    first: &Fact,
    second: &Fact,
) -> Result<Fact, AllocError>
    requires atoms { All (IsExpr ledger.old.presentation) atoms.now }
    requires first { IsWork ledger.old atoms.now first.now }
    requires second { IsWork ledger.old atoms.now second.now }
    requires meet { left_of ledger.old first.now.line ≡ left_of ledger.old second.now.line }
    ensures grows { OnOk result (Grows ledger.old ledger.new) }
    ensures fact { IfOk result (λ f. IsZero ledger.new atoms.now f) }
    ensures terms { IfOk result (λ f. f.terms.items ≡ less ledger.old.prime first.now.terms.items second.now.terms.items) }
{
    let whole = left_alone(alloc, ledger, first.line)?;
    let unit = ledger.unit(&whole, 0)?;
    let down = gone(alloc, ledger, &whole, &unit)?;
    let up = taken_off(alloc, ledger, atoms, first, second)?;
    let rest = ledger.join(&whole, atoms, &down, &up)?;
    Ok(rest)
}
