ghost use Rattle.std.specs.Prelude.{◌≡◌, length, map};
ghost use Rattle.math_algebra.specs.Tree.{trees};
ghost use Rattle.math_algebra.specs.Degrees.{of_both, same_parity};
ghost use Rattle.math_proofs.specs.Shown.{of_members, shown, showns};
ghost use Rattle.fpl_model.specs.Meaning.{plain, tree_in, trees_in, presentation_in};
ghost use Rattle.fpl_model.specs.Sound.{IsTerm, AreTerms};
ghost use Rattle.fpl_model.specs.Degrees.{parity_degree};

use fpl_model::{Expr, Exprs, Parity, ParityOf, Presentation};

// Those of a sum, from those of two parts.
fn of_both(a: ParityOf, b: ParityOf) -> ParityOf
    ensures { parity_degree result ≡ of_both same_parity (parity_degree a) (parity_degree b) }
{
    match (a, b) {
        (ParityOf::Mixed, _) | (_, ParityOf::Mixed) => ParityOf::Mixed,
        (ParityOf::Any, _) => b,
        (_, ParityOf::Any) => a,
        (ParityOf::Exact(Parity::Even), ParityOf::Exact(Parity::Even)) => a,
        (ParityOf::Exact(Parity::Odd), ParityOf::Exact(Parity::Odd)) => a,
        (ParityOf::Exact(_), ParityOf::Exact(_)) => ParityOf::Mixed,
    }
}

// Those of a bracket, from those of its members: with a void member it is void.
fn of_members(a: ParityOf, b: ParityOf) -> ParityOf
    ensures { parity_degree result ≡ of_members (parity_degree a) (parity_degree b) }
{
    match (a, b) {
        (ParityOf::Any, _) | (_, ParityOf::Any) => ParityOf::Any,
        (ParityOf::Mixed, _) | (_, ParityOf::Mixed) => ParityOf::Mixed,
        (ParityOf::Exact(s), ParityOf::Exact(t)) => ParityOf::Exact(s.plus(t)),
    }
}

/// The parities that an expression has: both where it is void, and else one or none. Unlike the parity as written, that of a bracket with a void member
/// is any.
#[cycle(showing)]
#[tactic(auto, using(fpl_model::proofs::Plain::plain_forms), unfolding(math_proofs::specs::Shown::shown))]
pub fn shown_parities(p: &Presentation, e: &Expr) -> ParityOf
    requires { IsTerm p.now.field (length p.now.generators) (plain e.now) }
    ensures { parity_degree result ≡ shown (presentation_in p.now) (tree_in p.now.field e.now) }
{
    match e {
        Expr::Gen(g) => {
            let at = *g as usize - 1;
            ParityOf::Exact(p.generators.as_slice()[at].parity)
        }
        Expr::Zero => ParityOf::Any,
        Expr::Sum(members) => shown_by_all(p, members.get()),
        Expr::Times(_, e) => shown_parities(p, e.get()),
        Expr::Br(a, b) => {
            let left = shown_parities(p, a.get());
            let right = shown_parities(p, b.get());
            of_members(left, right)
        }
    }
}

#[cycle(showing)]
#[tactic(auto, using(fpl_model::proofs::Plain::plain_forms), unfolding(math_proofs::specs::Shown::shown))]
fn shown_by_all(p: &Presentation, members: &Exprs) -> ParityOf
    requires { AreTerms p.now.field (length p.now.generators) (trees (map plain members.now)) }
    ensures { parity_degree result ≡ showns (presentation_in p.now) (trees_in p.now.field members.now) }
{
    let mut all = ParityOf::Any;
    for e in members.as_slice() {
        all = of_both(all, shown_parities(p, e));
    }
    all
}
