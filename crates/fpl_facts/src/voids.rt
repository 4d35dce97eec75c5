//! Brackets with a member that equals the empty sum.
ghost use Rattle.std.specs.Prelude.{◌≡◌, ◌<◌, [], All, IfOk, OnOk};
ghost use Rattle.fpl_numbers.specs.declared.number.Kind.TheVariants.{Prime};
ghost use Rattle.fpl_numbers.specs.Numbers.{IsElement, residue};
ghost use Rattle.fpl_forms.specs.Ledgers.{IsExpr, Grows, left_of};
ghost use Rattle.fpl_forms.specs.Forms.{IsWork};
ghost use Rattle.fpl_facts.specs.Facts.{IsFact};

use fpl_forms::{Fact, Ledger};
use fpl_model::Expr;
use fpl_numbers::Num;
use std::alloc::{AllocError, Global};

/// The residue that a number is.
pub fn residue_part(prime: u32, number: Num) -> u32
    requires { IsElement (Prime prime) number }
    ensures value { residue result ≡ number }
    ensures below { result < prime }
{
    let _ = prime;
    number.numerator as u32
}

/// A bracket whose left member equals the empty sum.
pub fn void_left<'a>(
    alloc: Global,
    ledger: &mut Ledger<'a>,
    atoms: &[Expr],
    left: &Fact,
    b: &Expr,
) -> Result<Fact, AllocError>
    requires atoms { All (IsExpr ledger.old.presentation) atoms.now }
    requires right { IsExpr ledger.old.presentation b.now }
    requires work { IsWork ledger.old atoms.now left.now }
    requires none { left.now.terms.items ≡ [] }
    ensures grows { OnOk result (Grows ledger.old ledger.new) }
    ensures fact { IfOk result (λ f. IsFact ledger.new atoms.now (Expr.Br (left_of ledger.old left.now.line) b.now) f) }
    ensures terms { IfOk result (λ f. f.terms.items ≡ []) }
{
    let none = Vec::new(alloc);
    let no_facts = Vec::new(alloc);
    let right = ledger.same(b.copy(alloc)?)?;
    let n = ledger.members(left.line, right)?;
    let gone = ledger.sum_left(atoms, &none, b, &no_facts)?;
    let void = ledger.led(atoms, n, &gone)?;
    Ok(void)
}

/// A bracket whose right member equals the empty sum.
pub fn void_right<'a>(
    alloc: Global,
    ledger: &mut Ledger<'a>,
    atoms: &[Expr],
    a: &Expr,
    right: &Fact,
) -> Result<Fact, AllocError>
    requires atoms { All (IsExpr ledger.old.presentation) atoms.now }
    requires left { IsExpr ledger.old.presentation a.now }
    requires work { IsWork ledger.old atoms.now right.now }
    requires none { right.now.terms.items ≡ [] }
    ensures grows { OnOk result (Grows ledger.old ledger.new) }
    ensures fact { IfOk result (λ f. IsFact ledger.new atoms.now (Expr.Br a.now (left_of ledger.old right.now.line)) f) }
    ensures terms { IfOk result (λ f. f.terms.items ≡ []) }
{
    let none = Vec::new(alloc);
    let no_facts = Vec::new(alloc);
    let left = ledger.same(a.copy(alloc)?)?;
    let n = ledger.members(left, right.line)?;
    let gone = ledger.sum_right(atoms, a, &none, &no_facts)?;
    let void = ledger.led(atoms, n, &gone)?;
    Ok(void)
}
