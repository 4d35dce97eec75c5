//! Lines of the axioms.
ghost use Rattle.std.specs.Prelude.{◌≡◌, ◌≤◌, ◌<◌, ◌-◌, length, IfOk, OnOk};
ghost use Rattle.fpl_numbers.specs.Numbers.{residue};
ghost use Rattle.fpl_forms.specs.Ledgers.{IsExpr, Grows, Says};
ghost use Rattle.fpl_model.specs.Sound.{IsSound};
ghost use Rattle.fpl_facts.specs.Axioms.{HasParityIn, swap_number, sign_number, jacobi_sum, relation_at};

use crate::zeros::past_two;
use fpl_forms::{Ledger, bracket, multiple};
use fpl_lines::{Line, Rule};
use fpl_model::{Expr, Members, Parity, Presentation};
use std::alloc::{AllocError, Global};

/// -(-1)^(st), modulo a prime.
pub(crate) fn swap_number(prime: u32, s: Parity, t: Parity) -> u32
    requires { 2 < prime }
    ensures value { result ≡ swap_number prime s t }
    ensures below { result < prime }
{
    match (s, t) {
        (Parity::Odd, Parity::Odd) => 1,
        (Parity::Even, _) | (Parity::Odd, Parity::Even) => prime - 1,
    }
}

/// (-1)^(st), modulo a prime.
fn sign_number(prime: u32, s: Parity, t: Parity) -> u32
    requires { 1 ≤ prime }
    ensures { result ≡ sign_number prime s t }
{
    match (s, t) {
        (Parity::Odd, Parity::Odd) => prime - 1,
        (Parity::Even, _) | (Parity::Odd, Parity::Even) => 1,
    }
}

/// `[a,b]`, where a has parity s and b has t, and a multiple of `[b,a]`.
pub fn swap<'a>(
    alloc: Global,
    ledger: &mut Ledger<'a>,
    s: Parity,
    t: Parity,
    a: &Expr,
    b: &Expr,
) -> Result<u64, AllocError>
    requires left { IsExpr ledger.old.presentation a.now }
    requires right { IsExpr ledger.old.presentation b.now }
    requires first { HasParityIn ledger.old.presentation a.now s }
    requires second { HasParityIn ledger.old.presentation b.now t }
    ensures grows { OnOk result (Grows ledger.old ledger.new) }
    ensures says { IfOk result (λ n. Says ledger.new n (Expr.Br a.now b.now) (Expr.Times (residue (swap_number ledger.old.prime s t)) (Expr.Br b.now a.now))) }
{
    past_two(ledger);
    ledger.sound();
    let number = swap_number(ledger.prime(), s, t);
    let left = bracket(alloc, a, b)?;
    let turned = bracket(alloc, b, a)?;
    let right = multiple(alloc, number, turned)?;
    let why = Rule::Swap(s, t);
    ledger.push(Line { left, right, why })
}

/// The right side of the Jacobi identity.
fn jacobi_sum(alloc: Global, number: u32, a: &Expr, b: &Expr, c: &Expr) -> Result<Expr, AllocError>
    ensures { IfOk result (λ e. e ≡ jacobi_sum number a.now b.now c.now) }
{
    let inner = bracket(alloc, a, b)?;
    let first = bracket(alloc, &inner, c)?;
    let other = bracket(alloc, a, c)?;
    let second = bracket(alloc, b, &other)?;
    let mut members = Members::new(alloc);
    members.push(first)?;
    members.push(multiple(alloc, number, second)?)?;
    members.sum(alloc)
}

/// The Jacobi identity of a, b and c, which have parities s, t and u.
pub fn jacobi<'a>(
    alloc: Global,
    ledger: &mut Ledger<'a>,
    parities: (Parity, Parity, Parity),
    a: &Expr,
    b: &Expr,
    c: &Expr,
) -> Result<u64, AllocError>
    requires left { IsExpr ledger.old.presentation a.now }
    requires middle { IsExpr ledger.old.presentation b.now }
    requires right { IsExpr ledger.old.presentation c.now }
    requires first { HasParityIn ledger.old.presentation a.now parities.0 }
    requires second { HasParityIn ledger.old.presentation b.now parities.1 }
    requires third { HasParityIn ledger.old.presentation c.now parities.2 }
    ensures grows { OnOk result (Grows ledger.old ledger.new) }
    ensures says { IfOk result (λ n. Says ledger.new n (Expr.Br a.now (Expr.Br b.now c.now))
        (jacobi_sum (sign_number ledger.old.prime parities.0 parities.1) a.now b.now c.now)) }
{
    past_two(ledger);
    ledger.sound();
    let number = sign_number(ledger.prime(), parities.0, parities.1);
    let inner = bracket(alloc, b, c)?;
    let left = bracket(alloc, a, &inner)?;
    let right = jacobi_sum(alloc, number, a, b, c)?;
    let why = Rule::Jacobi(parities.0, parities.1);
    ledger.push(Line { left, right, why })
}

/// `[a,[a,a]]` for odd a, and 0, modulo 3.
pub fn cube<'a>(alloc: Global, ledger: &mut Ledger<'a>, a: &Expr) -> Result<u64, AllocError>
    requires three { ledger.old.prime ≡ 3 }
    requires over { IsExpr ledger.old.presentation a.now }
    requires odd { HasParityIn ledger.old.presentation a.now Parity.Odd }
    ensures grows { OnOk result (Grows ledger.old ledger.new) }
    ensures says { IfOk result (λ n. Says ledger.new n (Expr.Br a.now (Expr.Br a.now a.now)) Expr.Zero) }
{
    ledger.sound();
    let inner = bracket(alloc, a, a)?;
    let left = bracket(alloc, a, &inner)?;
    let right = Expr::Zero;
    let why = Rule::Cube;
    ledger.push(Line { left, right, why })
}

/// The left and the right side of relation `r`, which counts from 1.
pub fn relation<'a>(
    alloc: Global,
    ledger: &mut Ledger<'a>,
    p: &Presentation,
    r: u32,
) -> Result<u64, AllocError>
    requires presentation { p.now ≡ ledger.old.presentation }
    requires sound { IsSound p.now }
    requires number { (1 ≤ r) × (r ≤ length p.now.relations) }
    ensures grows { OnOk result (Grows ledger.old ledger.new) }
    ensures says { IfOk result (λ n. Says ledger.new n (relation_at p.now r).left (relation_at p.now r).right) }
{
    ledger.sound();
    let sides = &p.relations.as_slice()[r as usize - 1];
    let left = sides.left.copy(alloc)?;
    let right = sides.right.copy(alloc)?;
    let why = Rule::Relation(r);
    ledger.push(Line { left, right, why })
}
