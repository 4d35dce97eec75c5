//! The matrices of expressions, and the least relation that doesn't hold.
ghost use Rattle.std.specs.Prelude.{◌≡◌, ◌<◌, ◌≤◌, ◌+◌, ℕ, length, map, IfOk, IfSome, IfNone, IsTrue, ◌↔◌};
ghost use Rattle.math_algebra.specs.Tree.{trees};
ghost use Rattle.fpl_model.specs.Meaning.{plain};
ghost use Rattle.fpl_model.specs.Sound.{IsTerm, AreTerms};
ghost use Rattle.fpl_model.specs.Sound.{IsSound as IsSoundPresentation};
ghost use Rattle.plain_matrices.specs.Plain.{numbers_from, zeros};
ghost use Rattle.fpl_matrices.specs.Matrices.{IsSound, IsAssignment, matrix_at, prime_in, numbers_in, IsRespectedBy, IsRespectedAt, IsFirstBroken};

use crate::assignment::Assignment;
use crate::bracketing::bracket;
use crate::matrix::{Matrix, zero};
use fpl_model::{Equation, Expr, Exprs, Presentation};
use fpl_numbers::Kind;
use std::alloc::{AllocError, Global};

pub(crate) fn prime_of(p: &Presentation) -> u32
    ensures { result ≡ prime_in p.now.field }
{
    match p.field {
        Kind::Rational => 0,
        Kind::Prime(prime) => prime,
    }
}

/// The matrix of an expression: it follows the tree from the generators' matrices.
#[cycle(assigning)]
#[tactic(auto, using(fpl_model::proofs::Plain::plain_forms))]
pub fn matrix_of(
    alloc: Global,
    p: &Presentation,
    a: &Assignment,
    e: &Expr,
) -> Result<Matrix, AllocError>
    requires assignment { IsAssignment p.now a.now }
    requires term { IsTerm p.now.field (length p.now.generators) (plain e.now) }
    ensures value { IfOk result (λ x. x ≡ matrix_at p.now a.now (plain e.now)) }
    ensures sound { IfOk result (λ x. IsSound x) }
{
    match e {
        Expr::Gen(g) => a.matrix(*g).copy(alloc),
        Expr::Zero => zero(alloc, prime_of(p), a.shape),
        Expr::Sum(members) => sum_of(alloc, p, a, members.get()),
        Expr::Times(c, factor) => {
            let mut x = matrix_of(alloc, p, a, factor.get())?;
            x.multiply(c.number().numerator as u32);
            Ok(x)
        }
        Expr::Br(left, right) => {
            let x = matrix_of(alloc, p, a, left.get())?;
            let y = matrix_of(alloc, p, a, right.get())?;
            bracket(alloc, &x, &y)
        }
    }
}

#[cycle(assigning)]
#[tactic(auto, using(fpl_model::proofs::Plain::plain_forms))]
fn sum_of(
    alloc: Global,
    p: &Presentation,
    a: &Assignment,
    members: &Exprs,
) -> Result<Matrix, AllocError>
    requires assignment { IsAssignment p.now a.now }
    requires terms { AreTerms p.now.field (length p.now.generators) (trees (map plain members.now)) }
    ensures value { IfOk result (λ x. x ≡ record {
      prime = prime_in p.now.field;
      even = a.now.even;
      odd = a.now.odd;
      numbers = numbers_from (prime_in p.now.field) a.now.even (a.now.even + a.now.odd) (numbers_in a.now) (trees (map plain members.now))
          (zeros (a.now.even + a.now.odd));
    }) }
    ensures sound { IfOk result (λ x. IsSound x) }
{
    let mut sum = zero(alloc, prime_of(p), a.shape)?;
    for e in members.as_slice() {
        let x = matrix_of(alloc, p, a, e)?;
        sum.add(&x);
    }
    Ok(sum)
}

fn is_respected(
    alloc: Global,
    p: &Presentation,
    a: &Assignment,
    e: &Equation,
) -> Result<bool, AllocError>
    requires assignment { IsAssignment p.now a.now }
    requires left { IsTerm p.now.field (length p.now.generators) (plain e.now.left) }
    requires right { IsTerm p.now.field (length p.now.generators) (plain e.now.right) }
    ensures { IfOk result (λ b. IsTrue b ↔ IsRespectedBy p.now a.now e.now) }
{
    let left = matrix_of(alloc, p, a, &e.left)?;
    let right = matrix_of(alloc, p, a, &e.right)?;
    Ok(left.numbers.as_slice() == right.numbers.as_slice())
}

/// The least relation, counted from 1 and of any weight, whose two sides have different matrices.
pub fn first_broken(
    alloc: Global,
    p: &Presentation,
    a: &Assignment,
) -> Result<Option<u32>, AllocError>
    requires sound { IsSoundPresentation p.now }
    requires assignment { IsAssignment p.now a.now }
    ensures broken { IfOk result (λ r. IfSome r (λ k. IsFirstBroken p.now a.now k)) }
    ensures respected { IfOk result (λ r. IfNone r ((k : ℕ) → k < length p.now.relations → IsRespectedAt p.now a.now k)) }
{
    let relations = p.relations.as_slice();
    for at in 0..relations.len() {
        let relation = &relations[at];
        if !is_respected(alloc, p, a, relation)? {
            return Ok(Some(at as u32 + 1));
        }
    }
    Ok(None)
}
