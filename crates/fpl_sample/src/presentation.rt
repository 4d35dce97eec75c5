//! The positive part of the simple Lie algebra of type A.
ghost use Rattle.std.specs.Prelude.{◌≡◌, ◌≤◌, ◌+◌, ◌++◌, ◌∷◌, [], IfOk, OnOk, codes, decimal};
ghost use Rattle.math_linear.specs.Lists.{joined};
ghost use Rattle.fpl_sample.specs.TypeA.{generator, commuting, serre, commuting_at, serre_at, commutings, serres, relations, type_a};

use fpl_model::{Equation, Equations, Expr, Generator, Generators, Name, Parity, Presentation};
use fpl_numbers::Kind;
use itoa::Buffer;
use sqlite_items::{Boxed, Items};
use std::alloc::{AllocError, Global};

fn name(alloc: Global, i: u32) -> Result<Name, AllocError>
    ensures { IfOk result (λ name. name ≡ codes "e" ++ decimal i) }
{
    let mut text = String::from_str(alloc, "e")?;
    let mut buffer = Buffer::new();
    text.push_str(buffer.format(i))?;
    Name::of_text(alloc, text.as_str())
}

fn generator(alloc: Global, i: u32) -> Result<Generator, AllocError>
    ensures { IfOk result (λ g. g ≡ generator i) }
{
    Ok(Generator {
        name: name(alloc, i)?,
        parity: Parity::Even,
        weight: 1,
    })
}

#[tactic(auto, unfolding(math_linear::specs::Lists::joined))]
fn generators(alloc: Global, n: u32) -> Result<Generators, AllocError>
    requires { n ≤ 64 }
    ensures { IfOk result (λ all. all ≡ joined n (λ i. generator (i + 1) ∷ [])) }
{
    let mut all = Items::new(alloc);
    for i in 0..n {
        all.push(generator(alloc, i + 1)?)?;
    }
    Ok(all)
}

fn bracket(alloc: Global, a: Expr, b: Expr) -> Result<Expr, AllocError>
    ensures { IfOk result (λ e. e ≡ Expr.Br a b) }
{
    Ok(Expr::Br(Boxed::new(alloc, a)?, Boxed::new(alloc, b)?))
}

// The equation that sets an expression to zero.
fn vanishing(left: Expr) -> Equation
    ensures { result ≡ record { left = left; right = Expr.Zero } }
{
    Equation {
        left,
        right: Expr::Zero,
    }
}

fn commuting(alloc: Global, i: u32, j: u32) -> Result<Equation, AllocError>
    ensures { IfOk result (λ q. q ≡ commuting i j) }
{
    Ok(vanishing(bracket(alloc, Expr::Gen(i), Expr::Gen(j))?))
}

fn serre(alloc: Global, i: u32, j: u32) -> Result<Equation, AllocError>
    ensures { IfOk result (λ q. q ≡ serre i j) }
{
    let inner = bracket(alloc, Expr::Gen(i), Expr::Gen(j))?;
    Ok(vanishing(bracket(alloc, Expr::Gen(i), inner)?))
}

fn push_commuting_at(alloc: Global, all: &mut Equations, i: u32, j: u32) -> Result<(), AllocError>
    requires { (i ≤ 64) × (j ≤ 64) }
    ensures { OnOk result (all.new ≡ all.old ++ commuting_at i j) }
{
    if i + 2 <= j {
        all.push(commuting(alloc, i, j)?)?;
    }
    Ok(())
}

fn push_serre_at(alloc: Global, all: &mut Equations, i: u32, j: u32) -> Result<(), AllocError>
    requires { (i ≤ 64) × (j ≤ 64) }
    ensures { OnOk result (all.new ≡ all.old ++ serre_at i j) }
{
    if j == i + 1 || i == j + 1 {
        all.push(serre(alloc, i, j)?)?;
    }
    Ok(())
}

#[tactic(auto, unfolding(math_linear::specs::Lists::joined))]
fn push_commuting(alloc: Global, all: &mut Equations, n: u32, i: u32) -> Result<(), AllocError>
    requires { (n ≤ 64) × (i ≤ 64) }
    ensures { OnOk result (all.new ≡ all.old ++ commutings n i) }
{
    for j in 0..n {
        push_commuting_at(alloc, all, i, j + 1)?;
    }
    Ok(())
}

#[tactic(auto, unfolding(math_linear::specs::Lists::joined))]
fn push_serre(alloc: Global, all: &mut Equations, n: u32, i: u32) -> Result<(), AllocError>
    requires { (n ≤ 64) × (i ≤ 64) }
    ensures { OnOk result (all.new ≡ all.old ++ serres n i) }
{
    for j in 0..n {
        push_serre_at(alloc, all, i, j + 1)?;
    }
    Ok(())
}

#[tactic(auto, unfolding(math_linear::specs::Lists::joined))]
fn push_all_commuting(alloc: Global, all: &mut Equations, n: u32) -> Result<(), AllocError>
    requires { n ≤ 64 }
    ensures { OnOk result (all.new ≡ all.old ++ joined n (λ i. commutings n (i + 1))) }
{
    for i in 0..n {
        push_commuting(alloc, all, n, i + 1)?;
    }
    Ok(())
}

#[tactic(auto, unfolding(math_linear::specs::Lists::joined))]
fn push_all_serre(alloc: Global, all: &mut Equations, n: u32) -> Result<(), AllocError>
    requires { n ≤ 64 }
    ensures { OnOk result (all.new ≡ all.old ++ joined n (λ i. serres n (i + 1))) }
{
    for i in 0..n {
        push_serre(alloc, all, n, i + 1)?;
    }
    Ok(())
}

fn relations(alloc: Global, n: u32) -> Result<Equations, AllocError>
    requires { n ≤ 64 }
    ensures { IfOk result (λ all. all ≡ relations n) }
{
    let mut all = Items::new(alloc);
    push_all_commuting(alloc, &mut all, n)?;
    push_all_serre(alloc, &mut all, n)?;
    Ok(all)
}

/// The positive part of the simple Lie algebra of type A and rank `n`, which is at most 64, over the residues modulo
/// 65521: the generators e1 to en, even and of weight 1, and the relations of J.-P. Serre, Algèbres de Lie semi-simples
/// complexes (1966), chapter VI: `[ei,ej] = 0` for j of at least i + 2, then `[ei,[ei,ej]] = 0` for i and j that differ by
/// 1, both in lexicographic order.
pub fn type_a(alloc: Global, n: u32) -> Result<Presentation, AllocError>
    requires { n ≤ 64 }
    ensures { IfOk result (λ p. p ≡ type_a n) }
{
    Ok(Presentation {
        field: Kind::Prime(65521),
        generators: generators(alloc, n)?,
        relations: relations(alloc, n)?,
        ideals: Items::new(alloc),
        queries: Items::new(alloc),
    })
}
